ghost use Rattle.std.specs.Prelude.{◌≡◌, ◌<◌, [], ◌∷◌, ◌++◌, length, slice_get, vec_len, vec_capacity, Some, IfOk};
ghost use Rattle.bpf_machine.specs.Buffer.{bytes_in};
ghost use Rattle.xdp_state.specs.Dump.{captured_at};
ghost use Rattle.xdp_state.specs.Trails.{IsEven, visits_in};

use crate::frames::Frames;
use crate::state::MEMBERS;
use crate::traversal::Visit;
use crate::visit_list::VisitList;
use bpf_machine::{Cause, Frame};
use chain_order::Kind;
use std::alloc::Global;
use xio::{Action, OutOfMemory};

/// What one member made of a packet.
#[derive(Clone, Copy, Debug, PartialEq, Eq)]
pub(crate) struct Seen {
    pub number: u32,
    pub kind: Kind,
    pub action: Action,
    pub cause: Cause,
    pub target: u32,
    pub rule: Option<u32>,
}

/// What the members made of a packet, and for each of them the frames that a dump keeps as it enters and as it leaves.
#[derive(Debug, Drop)]
pub(crate) struct Trail {
    pub seen: Vec<Seen>,
    pub entries: Frames,
    pub exits: Frames,
}

impl Trail {
    /// The trail of no members, with room for those of a chain.
    pub fn new(alloc: Global) -> Result<Self, OutOfMemory>
        ensures none { IfOk result (λ trail. visits_in trail ≡ []) }
        ensures even { IfOk result IsEven }
    {
        Ok(Trail {
            seen: Vec::with_capacity(alloc, MEMBERS as usize)?,
            entries: Frames::new(alloc)?,
            exits: Frames::new(alloc)?,
        })
    }

    pub fn clear(&mut self)
        requires even { IsEven self.old }
        ensures seen { self.new.seen.items ≡ [] }
        ensures even { IsEven self.new }
    {
        self.seen.clear();
        self.entries.clear();
        self.exits.clear();
    }

    /// Keeps a packet's frame as it enters the next member, where that is asked for.
    pub fn enter(&mut self, frame: &Frame, snap: Option<u32>)
        requires few { length self.old.entries < 10 }
        ensures entries { self.new.entries ≡ self.old.entries ++ captured_at snap (bytes_in frame.now) ∷ [] }
        ensures exits { self.new.exits ≡ self.old.exits }
        ensures seen { self.new.seen ≡ self.old.seen }
    {
        self.entries.put(frame.bytes(), snap);
    }

    /// Adds what the member made of the packet, and keeps its frame as it leaves, where that is asked for.
    pub fn leave(&mut self, frame: &Frame, snap: Option<u32>, seen: Seen)
        requires few { length self.old.exits < 10 }
        requires room { vec_len self.old.seen < vec_capacity self.old.seen }
        ensures seen { self.new.seen.items ≡ self.old.seen.items ++ seen ∷ [] }
        ensures entries { self.new.entries ≡ self.old.entries }
        ensures exits { self.new.exits ≡ self.old.exits ++ captured_at snap (bytes_in frame.now) ∷ [] }
        ensures room { vec_capacity self.new.seen ≡ vec_capacity self.old.seen }
    {
        self.exits.put(frame.bytes(), snap);
        self.seen.push_reserved(seen);
    }

    /// The visits of these members.
    pub fn copy(&self, alloc: Global) -> Result<VisitList, OutOfMemory>
        requires even { IsEven self.now }
        ensures { IfOk result (λ visits. visits ≡ visits_in self.now) }
    {
        let mut visits = VisitList::with_capacity(alloc, self.seen.len())?;
        for place in 0..self.seen.len() {
            let visit = self.visit_at(alloc, place)?;
            visits.push(visit)?;
        }
        Ok(visits)
    }

    /// The visit of the member at a place.
    fn visit_at(&self, alloc: Global, place: usize) -> Result<Visit, OutOfMemory>
        requires even { IsEven self.now }
        requires place { place < length self.now.seen.items }
        ensures { IfOk result (λ visit. slice_get (visits_in self.now) place ≡ Some visit) }
    {
        let seen = self.seen[place];
        let entry = self.entries.copy_at(alloc, place)?;
        let exit = self.exits.copy_at(alloc, place)?;
        Ok(Visit {
            number: seen.number,
            kind: seen.kind,
            action: seen.action,
            cause: seen.cause,
            target: seen.target,
            rule: seen.rule,
            entry,
            exit,
        })
    }
}
