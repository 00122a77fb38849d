ghost use Rattle.std.specs.Prelude.{◌≡◌, ◌<◌, [], ◌∷◌, ◌++◌, length, slice_get, Some, OnOk, OnErr, MatchOption};
ghost use Rattle.std.specs.Borrow.{sem};
ghost use Rattle.dispatch_plane.specs.Ports.{LendsPorts};

use crate::port::Port;
use std::alloc::Global;
use std::marker::Model;
use xio::OutOfMemory;

/// Ports in order, fewer than 2^32, named by their places from 0.
#[derive(Drop)]
pub struct PortList {
    ports: Vec<Port>,
}

impl Model for PortList {
    ghost use Rattle.std.specs.Prelude.{◌^◌, ◌<◌, List, length};
    ghost use Rattle.dispatch_plane.specs.Sight.{Sight};

    ghost Value = { List Sight };

    ghost view = { λ list. list.ports.items };

    ghost invariant = { λ list. length list.ports.items < 2 ^ 32 };
}

impl PortList {
    /// An empty list, which takes its memory from `alloc` as it grows.
    pub fn new(alloc: Global) -> Self
        ensures { result ≡ [] }
    {
        PortList {
            ports: Vec::new(alloc),
        }
    }

    /// Puts a port behind the others.
    pub fn push(&mut self, port: Port) -> Result<(), OutOfMemory>
        ensures ok { OnOk result (self.new ≡ self.old ++ port ∷ []) }
        ensures err { OnErr result (self.new ≡ self.old) }
    {
        if self.ports.len() == u32::MAX as usize {
            return Err(OutOfMemory);
        }
        self.ports.push(port)?;
        Ok(())
    }

    pub fn len(&self) -> u32
        ensures { result ≡ length self.now }
    {
        self.ports.len() as u32
    }

    pub fn as_slice(&self) -> &[Port]
        ensures { result.now ≡ self.now }
    {
        self.ports.as_slice()
    }

    pub fn at(&self, place: u32) -> &Port
        requires { place < length self.now }
        ensures { slice_get self.now place ≡ Some result.now }
    {
        &self.ports[place as usize]
    }

    /// The ports in place. What is written to them stands in the list.
    pub fn as_mut_slice(&mut self) -> &mut [Port]
        ensures* writes_back { sem 𝓛 (LendsPorts self.entry result) }
        ensures value { result.now ≡ self.old }
    {
        self.ports.as_mut_slice()
    }

    /// The last port, which leaves the list.
    pub(crate) fn pop(&mut self) -> Option<Port>
        ensures { MatchOption result (self.old ≡ []) (λ port. self.old ≡ self.new ++ port ∷ []) }
    {
        self.ports.pop()
    }
}
