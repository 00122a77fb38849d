ghost use Rattle.std.specs.Prelude.{◌≡◌, None, Some, IfOk};
ghost use Rattle.std.specs.Option.{option_copied};

use crate::dump::Captured;
use std::alloc::Global;
use std::marker::Model;
use xio::OutOfMemory;

/// A frame that a dump keeps, or none. The frame has a place of its own, since most visits have none.
#[derive(Debug, Drop)]
pub struct KeptFrame {
    captured: Option<Box<Captured>>,
}

impl Model for KeptFrame {
    ghost use Rattle.std.specs.Prelude.{Option};
    ghost use Rattle.std.specs.Option.{option_map};
    ghost use Rattle.xdp_state.specs.declared.dump.Captured.{Captured};

    ghost Value = { Option Captured };

    ghost view = { λ kept. option_map (λ boxed. boxed.value) kept.captured };
}

impl KeptFrame {
    pub fn none() -> Self
        ensures { result ≡ None }
    {
        KeptFrame { captured: None }
    }

    pub fn new(alloc: Global, captured: Captured) -> Result<Self, OutOfMemory>
        ensures { IfOk result (λ kept. kept ≡ Some captured) }
    {
        Ok(KeptFrame {
            captured: Some(Box::new(alloc, captured)?),
        })
    }

    pub fn get(&self) -> Option<&Captured>
        ensures { option_copied result ≡ self.now }
    {
        match &self.captured {
            Some(captured) => Some(&**captured),
            None => None,
        }
    }
}
