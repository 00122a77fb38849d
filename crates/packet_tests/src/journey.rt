//! A packet's way through a state, in plain values.
ghost use Rattle.std.specs.Prelude.{◌≡◌, ◌<◌, IfOk, IsSome};
ghost use Rattle.xdp_state.specs.Library.{IsSound};

use bpf_machine::Cause;
use lists::{Bytes, OutOfMemory};
use std::alloc::Global;
use xdp_state::{KeptFrame, Library, Own, Packet, State, Visit, traverse};
use xio::Action;

/// What was kept of a frame: its length, how many bytes, and the first of them.
pub type Kept = Option<(u32, usize, Option<u8>)>;

/// What the first member made of a packet: its number, action, cause, target and row.
pub type Seen = (u32, Action, Cause, u32, Option<u32>);

/// What was told of a packet's way: the verdict, what the first member made of it, what was kept as it came to that member and
/// as it left, and the first byte of the frame at the end.
#[derive(Clone, Copy)]
pub struct Journey {
    pub verdict: Action,
    pub seen: Seen,
    pub entry: Kept,
    pub exit: Kept,
    pub first: Option<u8>,
}

/// A processor of the interface behind a packet's way.
pub fn gone(
    alloc: Global,
    state: &State,
    library: &Library,
    interface: u32,
    frame: &[u8; 14],
) -> Result<Own, OutOfMemory>
    requires sound { IsSound library.now }
    requires interface { interface < 8 }
    ensures { IfOk result (λ own. IsSome own.trip) }
{
    let mut own = Own::new(alloc, 0, interface, 0)?;
    own.prepare(state, library)?;
    traverse(state, library, &mut own, &packet(alloc, frame)?);
    Ok(own)
}

fn packet(alloc: Global, bytes: &[u8; 14]) -> Result<Packet, OutOfMemory>
    ensures { IfOk result (λ packet. packet.frame ≡ bytes.now) }
{
    let mut frame = Bytes::new(alloc);
    frame.append(bytes)?;
    Ok(Packet {
        id: 0,
        timestamp: 0,
        frame,
    })
}

/// What is told of the last packet, where both tell the same of it.
pub fn told(alloc: Global, own: &Own) -> Result<Option<Journey>, OutOfMemory>
    requires { IsSome own.now.trip }
{
    let trip = own.trip(alloc)?;
    let alike = trip.verdict == own.verdict() && trip.target == own.target();
    if !alike || trip.frame.as_slice() != own.frame() {
        return Ok(None);
    }
    let first = own.frame().first().copied();
    Ok(
        trip.visits
            .as_slice()
            .first()
            .map(|visit| journey_of(own.verdict(), visit, first)),
    )
}

fn journey_of(verdict: Action, visit: &Visit, first: Option<u8>) -> Journey {
    Journey {
        verdict,
        seen: (
            visit.number,
            visit.action,
            visit.cause,
            visit.target,
            visit.rule,
        ),
        entry: kept(&visit.entry),
        exit: kept(&visit.exit),
        first,
    }
}

fn kept(frame: &KeptFrame) -> Kept {
    let kept = frame.get()?;
    let bytes = kept.kept.as_slice();
    Some((kept.length, bytes.len(), bytes.first().copied()))
}
