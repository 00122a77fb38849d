ghost use Rattle.std.specs.Prelude.{◌≡◌, ◌<◌, [], ◌∷◌, ◌++◌, length, IfOk, OnOk};
ghost use Rattle.xdp_state.specs.Library.{IsSound};
ghost use Rattle.xdp_state.specs.Traversal.{standing_behind, traversal_of};
ghost use Rattle.xdp_state.specs.Traversals.{way_over};
ghost use Rattle.xdp_tool.specs.QueueView.{queue_of};
ghost use Rattle.xdp_tool.specs.Traversed.{standing_of};

use crate::queue::Queue;
use std::alloc::Global;
use xdp_state::{Carried, CarriedList, Library, Own, Packet, State, traverse};
use xio::OutOfMemory;

/// A processor, and what it carried of the phase under way.
#[derive(Debug, Drop)]
pub struct Processor {
    pub own: Own,
    pub carried: CarriedList,
}

impl Processor {
    /// The one of this number, which serves a queue and has carried nothing.
    pub fn new(alloc: Global, number: u32, queue: &Queue<'_>) -> Result<Self, OutOfMemory>
        requires { queue.now.interface < 8 }
        ensures standing { IfOk result (λ processor. processor.own.standing ≡ standing_of number (queue_of queue.now)) }
        ensures idle { IfOk result (λ processor. processor.carried ≡ []) }
    {
        Ok(Processor {
            own: Own::new(alloc, number, queue.interface, queue.queue)?,
            carried: CarriedList::new(alloc),
        })
    }

    /// Carries a packet over the state.
    pub fn carry(
        &mut self,
        alloc: Global,
        state: &State,
        library: &Library,
        packet: &Packet,
    ) -> Result<(), OutOfMemory>
        requires { IsSound library.now }
        ensures carried { OnOk result (self.new.carried ≡ self.old.carried ++ record {
          count = state.now.count;
          handed = length packet.now.frame;
          traversal = traversal_of (way_over library.now state.now self.old.own.standing packet.now);
        } ∷ []) }
        ensures standing { OnOk result (self.new.own.standing
            ≡ standing_behind self.old.own.standing (way_over library.now state.now self.old.own.standing packet.now)) }
    {
        self.own.prepare(state, library)?;
        traverse(state, library, &mut self.own, packet);
        self.carried.push(Carried {
            count: state.count(),
            handed: packet.frame.as_slice().len() as u32,
            traversal: self.own.trip(alloc)?,
        })
    }

    /// Ends the phase, and answers what was carried of it.
    pub fn finish(&mut self, alloc: Global) -> CarriedList
        ensures carried { result ≡ self.old.carried }
        ensures idle { self.new.carried ≡ [] }
        ensures standing { self.new.own.standing ≡ self.old.own.standing }
    {
        std::mem::replace(&mut self.carried, CarriedList::new(alloc))
    }
}
