ghost use Rattle.std.specs.Prelude.{◌≡◌, ◌<◌, ◌≤◌, true, length, position, Some, None, IfSome, if◌then◌else◌};
ghost use Rattle.xdp_state.specs.Answer.{answer, attach_answer, rule_fits, status_answer};
ghost use Rattle.xdp_state.specs.Book.{takes};
ghost use Rattle.xdp_state.specs.Interfaces.{has_name, is_declared, interface_named};
ghost use Rattle.xdp_state.specs.Library.{IsSound};
ghost use Rattle.xdp_state.specs.declared.change.Change.{Change};
ghost use Rattle.xdp_state.specs.declared.judgement.Judgement.TheVariants.{Accepted};

use crate::change::Change;
use crate::command::Command;
use crate::interface::{Interface, InterfaceList};
use crate::judgement::{Judgement, Reason};
use crate::library::Library;
use crate::mode::{Mode, differs};
use crate::state::{MEMBERS, State};
use chain_order::Kind;

mod dump;
mod filter;
mod loader;
mod rules;

use dump::{judge_dump, judge_dump_off};
use filter::{judge_filter, judge_filter_off};
use loader::{judge_load, judge_off, judge_status};
use rules::{judge_clear, judge_set};

/// The answer to a command; a rule's flags are some flags of its kind. What is accepted is taken by a state of fewer than
/// 65,536 publications.
pub fn judge(state: &State, library: &Library, command: &Command) -> Judgement
    requires rule { rule_fits command.now ≡ true }
    requires interfaces { length library.now.interfaces ≤ 8 }
    requires sound { IsSound library.now }
    ensures answer { result ≡ answer library.now state.now command.now }
    ensures taken { (change : Change) → result ≡ Accepted change → state.now.count < 65536
        → takes state.now change ≡ true }
{
    match command {
        Command::LoaderLoad(words) => judge_load(state, library, words),
        Command::LoaderUnload { interface, id } => {
            judge_off(state, library, interface.as_slice(), *id)
        }
        Command::LoaderStatus { interface } => judge_status(library, interface),
        Command::FilterLoad {
            interface,
            mode,
            policy,
            features,
        } => {
            let kind = Kind::Filter {
                policy: *policy,
                features: *features,
            };
            judge_filter(state, library, interface.as_slice(), kind, *mode)
        }
        Command::FilterUnload { interface, keep } => {
            judge_filter_off(state, library, interface.as_slice(), *keep)
        }
        Command::FilterRule { key, flags, remove } => {
            if *remove {
                judge_clear(state, *key, *flags)
            } else {
                judge_set(state, *key, *flags)
            }
        }
        Command::FilterStatus => Judgement::Shown,
        Command::DumpStart { interface, setting } => {
            judge_dump(state, library, interface.as_slice(), *setting)
        }
        Command::DumpStop { interface } => judge_dump_off(state, library, interface.as_slice()),
    }
}

/// Accepts a change that attaches a member, where the interface takes one of this mode.
fn judge_attach(state: &State, interface: u32, mode: Mode, change: Change) -> Judgement
    requires { interface < 8 }
    ensures { result ≡ attach_answer state.now interface mode change }
{
    if differs(state.mode(interface), mode) {
        return Judgement::Refused(Reason::ModeDiffers);
    }
    if state.chain(interface).len() >= MEMBERS {
        return Judgement::Refused(Reason::ChainFull);
    }
    Judgement::Accepted(change)
}

/// The number of the interface of this name.
#[tactic(auto, using(crate::proofs::Judging::places))]
fn place_of(interfaces: &InterfaceList, name: &[u8]) -> Option<u32>
    ensures place { result ≡ (if is_declared interfaces.now name.now then Some (interface_named interfaces.now name.now) else None) }
    ensures within { IfSome result (λ place. place < length interfaces.now) }
{
    let place = named(interfaces.as_slice(), name)?;
    prove!(place < interfaces.len() as usize);
    Some(place as u32)
}

/// The place of the interface of this name.
fn named(interfaces: &[Interface], name: &[u8]) -> Option<usize>
    ensures { result ≡ position (has_name name.now) interfaces.now }
{
    interfaces
        .iter()
        .position(|interface| interface.name.as_slice() == name)
}
