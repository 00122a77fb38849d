ghost use Rattle.std.specs.Prelude.{◌≡◌, ℕ, ◌<◌, ◌^◌, IfOk};
ghost use Rattle.xio.specs.CallPlan.{CallPlan, next_call, is_failing};

use lists::OutOfMemory;
use std::alloc::Global;
use std::marker::Model;

/// The calls of a form in memory, and which of them are to fail.
#[derive(Debug, Drop)]
pub struct Calls {
    failing: Vec<u32>,
    made: u32,
}

impl Model for Calls {
    ghost Value = { CallPlan };

    ghost view = { λ calls. record { failing = calls.failing.items; made = calls.made } };
}

impl Calls {
    /// The calls with these numbers, from 1, are to fail.
    pub fn new(alloc: Global, failing: &[u32]) -> Result<Self, OutOfMemory>
        ensures { IfOk result (λ calls. calls ≡ record { failing = failing.now; made = 0 }) }
    {
        Ok(Calls {
            failing: Vec::from_slice(alloc, failing)?,
            made: 0,
        })
    }

    /// Counts a call and says whether it is to fail.
    pub fn next_fails(&mut self) -> bool
        ensures counted { self.new ≡ next_call self.old }
        ensures fails { result ≡ is_failing self.new }
    {
        self.made = self.made.saturating_add(1);
        self.failing.contains(&self.made)
    }
}
