ghost use Rattle.std.specs.Prelude.{◌≡◌, ◌≤◌, ◌<◌, true, IfOk, IfErr, IfSome};
ghost use Rattle.script_text.specs.Interfaces.{is_declared, queue_count, has_room, interface_of, processor_of, hand_in_of};

use crate::name::is_name;
use crate::numbers::{number_of, number_within};
use crate::reading::{both, keeps};
use crate::rule::{BAD_NAME, BAD_NUMBER, LATE_INTERFACE, NO_QUEUE, NO_ROOM, Rule, SAME_NAME};
use xdp_state::Interface;

/// How many interfaces there may be, and how many queues in all.
const MOST: u32 = 8;

fn is_declared(interfaces: &[Interface], name: &[u8]) -> bool
    ensures { result ≡ is_declared interfaces.now name.now }
{
    interfaces
        .iter()
        .any(|interface| interface.name.as_slice() == name)
}

/// How many queues there are in all.
fn queue_count(interfaces: &[Interface]) -> u32
    requires { queue_count interfaces.now ≤ 8 }
    ensures { result ≡ queue_count interfaces.now }
{
    let mut count = 0;
    for interface in interfaces {
        count += interface.queues;
    }
    count
}

fn has_room(interfaces: &[Interface], queues: u32) -> bool
    requires all { queue_count interfaces.now ≤ 8 }
    requires more { queues ≤ 8 }
    ensures { result ≡ has_room interfaces.now queues }
{
    interfaces.len() < MOST as usize && queue_count(interfaces) + queues <= MOST
}

/// The queues of an interface that is declared beside the others, `first` where no other line stands before it.
#[tactic(auto, unfolding(crate::specs::Interfaces::interface_of))]
pub fn interface_of(
    interfaces: &[Interface],
    first: bool,
    name: &[u8],
    queues: &[u8],
) -> Result<u32, Rule>
    requires { queue_count interfaces.now ≤ 8 }
    ensures value { result ≡ interface_of interfaces.now first name.now queues.now }
    ensures room { IfOk result (λ queues. has_room interfaces.now queues ≡ true) }
    ensures first { IfOk result (λ _. first ≡ true) }
{
    let (queues, _) = both(
        number_within(1, MOST, queues).ok_or(BAD_NUMBER),
        both(
            keeps(BAD_NAME, is_name(name)),
            both(
                keeps(LATE_INTERFACE, first),
                keeps(SAME_NAME, !is_declared(interfaces, name)),
            ),
        ),
    )?;
    keeps(NO_ROOM, has_room(interfaces, queues))?;
    Ok(queues)
}

/// The processor of a queue of the named interface.
fn processor_of(interfaces: &[Interface], name: &[u8], queue: u128) -> Option<u32>
    requires { queue_count interfaces.now ≤ 8 }
    ensures value { result ≡ processor_of interfaces.now name.now queue }
    ensures below { IfSome result (λ processor. processor < queue_count interfaces.now) }
{
    let mut before = 0;
    for interface in interfaces {
        if interface.name.as_slice() == name {
            if queue < u128::from(interface.queues) {
                return Some(before + queue as u32);
            }
            return None;
        }
        before += interface.queues;
    }
    None
}

/// The processor of a hand-in.
#[tactic(auto, unfolding(crate::specs::Interfaces::hand_in_of))]
pub fn hand_in_of(interfaces: &[Interface], name: &[u8], queue: &[u8]) -> Result<u32, Rule>
    requires { queue_count interfaces.now ≤ 8 }
    ensures value { result ≡ hand_in_of interfaces.now name.now queue.now }
    ensures rule { IfErr result (λ rule. rule ≤ 9) }
    ensures below { IfOk result (λ processor. processor < queue_count interfaces.now) }
{
    let (queue, ()) = both(
        number_of(queue).ok_or(BAD_NUMBER),
        keeps(BAD_NAME, is_name(name)),
    )?;
    processor_of(interfaces, name, queue).ok_or(NO_QUEUE)
}
