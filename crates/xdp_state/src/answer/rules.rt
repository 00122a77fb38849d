ghost use Rattle.std.specs.Prelude.{◌≡◌};
ghost use Rattle.xdp_state.specs.Answer.{clear_answer, lacks_feature, set_answer};

use crate::change::Change;
use crate::filters::{has_filter_somewhere, is_on};
use crate::judgement::{Judgement, Reason};
use crate::state::State;
use filter_rules::{ROWS, RuleKey, RuleKind, features, flags};

/// The flags of a port's protocols.
const TCP_FLAGS: u8 = flags::SOURCE_TCP | flags::TARGET_TCP;

const UDP_FLAGS: u8 = flags::SOURCE_UDP | flags::TARGET_UDP;

pub(super) fn judge_set(state: &State, key: RuleKey, flags: u8) -> Judgement
    ensures { result ≡ set_answer state.now key flags }
{
    if !has_filter_somewhere(state) {
        return Judgement::Refused(Reason::FilterNotThere);
    }
    if lacks_feature(state, key.kind, flags) {
        return Judgement::Refused(Reason::FeatureMissing);
    }
    if state.rules().len() >= ROWS && !state.rules().contains(key) {
        return Judgement::Refused(Reason::RulesFull);
    }
    Judgement::Accepted(Change::SetRule { key, flags })
}

pub(super) fn judge_clear(state: &State, key: RuleKey, flags: u8) -> Judgement
    ensures { result ≡ clear_answer state.now key flags }
{
    if !has_filter_somewhere(state) {
        return Judgement::Refused(Reason::FilterNotThere);
    }
    if !state.rules().has_rule(key, flags) {
        return Judgement::Refused(Reason::NoSuchRule);
    }
    Judgement::Accepted(Change::ClearRule { key, flags })
}

/// Whether a feature that the rule needs is on in no filter.
fn lacks_feature(state: &State, kind: RuleKind, flags: u8) -> bool
    ensures { result ≡ lacks_feature state.now.members kind flags }
{
    match kind {
        RuleKind::Port => {
            flags & TCP_FLAGS != 0 && !is_on(state, features::TCP)
                || flags & UDP_FLAGS != 0 && !is_on(state, features::UDP)
        }
        RuleKind::Ip4 => !is_on(state, features::IPV4),
        RuleKind::Ip6 => !is_on(state, features::IPV6),
        RuleKind::Ether => !is_on(state, features::ETHERNET),
    }
}
