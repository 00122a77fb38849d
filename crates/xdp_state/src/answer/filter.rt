ghost use Rattle.std.specs.Prelude.{◌≡◌, ◌≤◌, length};
ghost use Rattle.xdp_state.specs.Answer.{at_interface, filter_answer, filter_off_answer};
ghost use Rattle.xdp_state.specs.Library.{IsSound};

use super::{judge_attach, place_of};
use crate::change::Change;
use crate::filters::{filter_in, has_filter, has_filter_elsewhere};
use crate::judgement::{Judgement, Reason};
use crate::library::Library;
use crate::mode::Mode;
use crate::names::{FILTER_NAME, rank};
use crate::state::State;
use chain_order::Kind;

/// The priority of a filter, and its mask: XDP_PASS.
const PRIORITY: u32 = 10;

const MASK: u8 = 4;

pub(super) fn judge_filter(
    state: &State,
    library: &Library,
    name: &[u8],
    kind: Kind,
    mode: Mode,
) -> Judgement
    requires interfaces { length library.now.interfaces ≤ 8 }
    requires sound { IsSound library.now }
    ensures { result ≡ at_interface library.now name.now (filter_answer library.now state.now kind mode) }
{
    let Some(interface) = place_of(&library.interfaces, name) else {
        return Judgement::Refused(Reason::NoInterface);
    };
    if has_filter(state.chain(interface)) {
        return Judgement::Refused(Reason::FilterThere);
    }
    let change = Change::Attach {
        interface,
        kind,
        priority: PRIORITY,
        rank: rank(library, FILTER_NAME),
        mask: MASK,
        mode,
    };
    judge_attach(state, interface, mode, change)
}

/// Judges an unload of the filter; with `keep` the rules stay.
pub(super) fn judge_filter_off(
    state: &State,
    library: &Library,
    name: &[u8],
    keep: bool,
) -> Judgement
    requires { length library.now.interfaces ≤ 8 }
    ensures { result ≡ at_interface library.now name.now (filter_off_answer state.now keep) }
{
    let Some(interface) = place_of(&library.interfaces, name) else {
        return Judgement::Refused(Reason::NoInterface);
    };
    let Some(number) = filter_in(state.chain(interface)) else {
        return Judgement::Refused(Reason::FilterNotThere);
    };
    Judgement::Accepted(Change::Detach {
        interface,
        number,
        clear_rules: !keep && !has_filter_elsewhere(state, interface),
    })
}
