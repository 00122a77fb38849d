//! A plane from its opening to its end.

ghost use Rattle.std.specs.Prelude.{◌≡◌, ◌<◌, [], replicate, IfOk};
ghost use Rattle.std.specs.List.{All};
ghost use Rattle.xdp_state.specs.Book.{after, empty};
ghost use Rattle.dispatch_plane.specs.Sight.{fresh, Joins, Ends};

use crate::history::Front;
use crate::ports::PortList;
use crate::publisher::Publisher;
use std::alloc::Global;
use std::sync::Wait;
use xdp_state::State;
use xio::OutOfMemory;

/// Opens a plane over a state before any change, with so many ports. It waits for nobody, since no port is inside yet.
pub fn open_plane<R: Wait>(
    rt: &R,
    alloc: Global,
    state: State,
    readers: u32,
) -> Result<(Publisher, PortList), OutOfMemory>
    requires empty { state ≡ empty }
    requires some { 0 < readers }
    ensures publisher { IfOk result (λ plane. plane.0.changes ≡ []) }
    ensures ports { IfOk result (λ plane. plane.1 ≡ replicate readers (fresh plane.0.plane)) }
{
    let (mut publisher, origin) = Publisher::open(rt, alloc, state, readers)?;
    match ports_of(alloc, &mut publisher, &origin, readers) {
        Ok(ports) => Ok((publisher, ports)),
        Err(OutOfMemory) => {
            publisher.let_go(rt);
            Err(OutOfMemory)
        }
    }
}

/// Makes the ports of a publisher that has published nothing.
fn ports_of(
    alloc: Global,
    publisher: &mut Publisher,
    origin: &Front,
    readers: u32,
) -> Result<PortList, OutOfMemory>
    requires empty { origin.now.log ≡ [] }
    requires plane { origin.now.plane ≡ publisher.old.plane }
    ensures ports { IfOk result (λ ports. ports ≡ replicate readers (fresh publisher.old.plane)) }
    ensures same { publisher.new ≡ publisher.old }
{
    let mut ports = PortList::new(alloc);
    'seats: while ports.len() < readers {
        ports.push(publisher.seat(origin)?)?;
    }
    Ok(ports)
}

/// Ends a plane with all its ports, which are outside, and gives the state after all that were published. It may wait.
pub fn close_plane<R: Wait>(rt: &R, publisher: Publisher, ports: PortList) -> State
    requires { All (Joins publisher.plane) ports }
    ensures state { result ≡ after publisher.changes }
    ensures ports { All (Ends publisher.changes) ports }
{
    let mut rest = ports;
    'ports: while let Some(port) = rest.pop() {
        publisher.settle(rt, port);
    }
    publisher.take(rt)
}
