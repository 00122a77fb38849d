ghost use Rattle.std.specs.Prelude.{◌≡◌, ◌<◌, [], None, Some, IsSome, IfSome, IfOk, OnOk, OnErr};
ghost use Rattle.xdp_state.specs.Library.{IsSound};
ghost use Rattle.xdp_state.specs.Own.{IsPrepared};
ghost use Rattle.xdp_state.specs.Traversal.{standing_for};

use crate::library::Library;
use crate::machine::Machine;
use crate::state::State;
use crate::trail::Trail;
use crate::traversal::Traversal;
use lists::Bytes;
use std::alloc::Global;
use std::marker::Model;
use xio::{Action, OutOfMemory};

mod way;

pub use way::traverse;

/// What a processor keeps of its own: the queue of an interface that it serves, the maps of each member there, one frame
/// for all, and the way of its last packet.
#[derive(Debug, Drop)]
pub struct Own {
    processor: u32,
    interface: u32,
    queue: u32,
    machine: Machine,
    trail: Trail,
    verdict: Option<Action>,
    target: u32,
}

impl Model for Own {
    ghost use Rattle.xdp_state.specs.Carrier.{Carrier};
    ghost use Rattle.xdp_state.specs.OwnView.{view_of, HasRoom};

    ghost Value = { Carrier };

    ghost view = { view_of };

    ghost invariant = { HasRoom };
}

impl Own {
    /// What the processor of this number, of a queue of this interface, starts with.
    pub fn new(
        alloc: Global,
        processor: u32,
        interface: u32,
        queue: u32,
    ) -> Result<Self, OutOfMemory>
        requires { interface < 8 }
        ensures { IfOk result (λ own. own ≡ record {
          standing = record { processor = processor; interface = interface; queue = queue; stores = [] };
          trip = None;
        }) }
    {
        Ok(Own {
            processor,
            interface,
            queue,
            machine: Machine::new(alloc)?,
            trail: Trail::new(alloc)?,
            verdict: None,
            target: 0,
        })
    }

    /// Makes the maps of the members that are new on the interface, and drops those of members that have left. Where
    /// nothing changed it does nothing.
    pub fn prepare(&mut self, state: &State, library: &Library) -> Result<(), OutOfMemory>
        requires { IsSound library.now }
        ensures ok { OnOk result (self.new ≡ record self.old { standing = standing_for library.now state.now self.old.standing }) }
        ensures ready { OnOk result (IsPrepared library.now self.new state.now) }
        ensures err { OnErr result (self.new ≡ self.old) }
    {
        self.machine.prepare(library, state.chain(self.interface))
    }

    /// The verdict on the last packet.
    pub fn verdict(&self) -> Action
        requires { IsSome self.now.trip }
        ensures { IfSome self.now.trip (λ trip. result ≡ trip.verdict) }
    {
        self.verdict.unwrap()
    }

    /// The verdict's target: where XDP_REDIRECT sends it, else 0.
    pub fn target(&self) -> u32
        requires { IsSome self.now.trip }
        ensures { IfSome self.now.trip (λ trip. result ≡ trip.target) }
    {
        self.target
    }

    /// The last packet's frame behind the chain.
    pub fn frame(&self) -> &[u8]
        requires { IsSome self.now.trip }
        ensures { IfSome self.now.trip (λ trip. result.now ≡ trip.frame) }
    {
        self.machine.frame.bytes()
    }

    /// The way of the last packet.
    pub fn trip(&self, alloc: Global) -> Result<Traversal, OutOfMemory>
        requires { IsSome self.now.trip }
        ensures { IfOk result (λ trip. self.now.trip ≡ Some trip) }
    {
        let visits = self.trail.copy(alloc)?;
        let mut frame = Bytes::new(alloc);
        frame.append(self.machine.frame.bytes())?;
        Ok(Traversal {
            visits,
            verdict: self.verdict(),
            target: self.target,
            frame,
        })
    }
}
