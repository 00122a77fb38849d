ghost use Rattle.std.specs.Prelude.{◌≡◌, [], ◌∷◌, ◌++◌, IfOk, OnOk, OnErr};

use crate::traversal::Visit;
use std::alloc::Global;
use std::marker::Model;
use xio::OutOfMemory;

/// The visits of a packet, in order. One is kept for each packet, so it takes no more room than it is told.
#[derive(Debug, Drop)]
pub struct VisitList {
    visits: Vec<Visit>,
}

impl Model for VisitList {
    ghost use Rattle.std.specs.Prelude.{List};
    ghost use Rattle.xdp_state.specs.declared.traversal.Visit.{Visit};

    ghost Value = { List Visit };

    ghost view = { λ list. list.visits.items };
}

impl VisitList {
    /// No visit, with room for so many.
    pub fn with_capacity(alloc: Global, capacity: usize) -> Result<Self, OutOfMemory>
        ensures { IfOk result (λ list. list ≡ []) }
    {
        Ok(VisitList {
            visits: Vec::with_capacity(alloc, capacity)?,
        })
    }

    /// Puts a visit behind the others.
    pub fn push(&mut self, visit: Visit) -> Result<(), OutOfMemory>
        ensures ok { OnOk result (self.new ≡ self.old ++ visit ∷ []) }
        ensures err { OnErr result (self.new ≡ self.old) }
    {
        self.visits.push(visit)?;
        Ok(())
    }

    pub fn as_slice(&self) -> &[Visit]
        ensures { result.now ≡ self.now }
    {
        self.visits.as_slice()
    }
}
