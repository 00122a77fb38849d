ghost use Rattle.std.specs.Prelude.{◌≡◌, ◌≤◌, length};
ghost use Rattle.xdp_state.specs.Answer.{at_interface, dump_answer, dump_off_answer};

use super::place_of;
use crate::change::Change;
use crate::judgement::{Judgement, Reason};
use crate::library::Library;
use crate::state::State;

pub(super) fn judge_dump(state: &State, library: &Library, name: &[u8], setting: u32) -> Judgement
    requires { length library.now.interfaces ≤ 8 }
    ensures { result ≡ at_interface library.now name.now (dump_answer state.now setting) }
{
    let Some(interface) = place_of(&library.interfaces, name) else {
        return Judgement::Refused(Reason::NoInterface);
    };
    if state.dump(interface).is_some() {
        return Judgement::Refused(Reason::DumpThere);
    }
    Judgement::Accepted(Change::DumpOn { interface, setting })
}

pub(super) fn judge_dump_off(state: &State, library: &Library, name: &[u8]) -> Judgement
    requires { length library.now.interfaces ≤ 8 }
    ensures { result ≡ at_interface library.now name.now (dump_off_answer state.now) }
{
    let Some(interface) = place_of(&library.interfaces, name) else {
        return Judgement::Refused(Reason::NoInterface);
    };
    if state.dump(interface).is_none() {
        return Judgement::Refused(Reason::DumpNotThere);
    }
    Judgement::Accepted(Change::DumpOff { interface })
}
