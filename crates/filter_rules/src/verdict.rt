//! The questions of a filter about a frame, and what their answers make of it.

ghost use Rattle.std.specs.Prelude.{◌≡◌, [], ◌∷◌};
ghost use Rattle.filter_rules.specs.Verdict.{Ask, ethernet_items, net_items, port_items, decided, verdict};

use crate::policy::Policy;
use crate::rule::RuleKey;
use crate::rules::Rules;
use crate::{features, flags};
use net_headers::{Headers, Net, Ports};
use xio::Action;

/// What a filter makes of a frame.
#[derive(Clone, Copy, Debug, PartialEq, Eq)]
pub enum FilterEnd {
    /// The row of this number names it.
    Hit { rule: u32, action: Action },
    /// No row names it.
    Miss { action: Action },
    /// It ends inside a header that the filter asks for.
    Cut,
}

/// A row that has this key and this flag is asked for.
#[derive(Clone, Copy)]
struct Question {
    key: RuleKey,
    flag: u8,
}

impl Question {
    fn new(key: RuleKey, flag: u8) -> Self
        ensures { result ≡ record { key = key; flag = flag } }
    {
        Question { key, flag }
    }
}

/// What a filter of this policy and these features makes of a frame with these headers.
#[tactic(auto, using(crate::proofs::Verdicts::parts_in_turn))]
pub fn verdict(rules: &Rules, headers: &Headers, policy: Policy, features: u8) -> FilterEnd
    ensures { result ≡ verdict rules.now headers.now policy features }
{
    let decided = by_ethernet(rules, headers, policy, features)
        .or_else(|| by_net(rules, headers.net, policy, features))
        .or_else(|| by_ports(rules, headers.ports, policy, features));
    decided.unwrap_or(FilterEnd::Miss {
        action: policy.miss(),
    })
}

fn by_ethernet(rules: &Rules, headers: &Headers, policy: Policy, features: u8) -> Option<FilterEnd>
    ensures { result ≡ decided rules.now policy (ethernet_items features headers.now) }
{
    if features & features::ETHERNET == 0 {
        return None;
    }
    let target = RuleKey::ether(headers.target);
    by_addresses(rules, policy, target, RuleKey::ether(headers.source))
}

fn by_net(rules: &Rules, net: Net, policy: Policy, features: u8) -> Option<FilterEnd>
    ensures { result ≡ decided rules.now policy (net_items features net) }
{
    match net {
        Net::Cut if features & features::IP != 0 => Some(FilterEnd::Cut),
        Net::V4 { source, target } if features & features::IPV4 != 0 => {
            by_addresses(rules, policy, RuleKey::ip4(target), RuleKey::ip4(source))
        }
        Net::V6 { source, target } if features & features::IPV6 != 0 => {
            by_addresses(rules, policy, RuleKey::ip6(target), RuleKey::ip6(source))
        }
        _ => None,
    }
}

fn by_ports(rules: &Rules, ports: Ports, policy: Policy, features: u8) -> Option<FilterEnd>
    ensures { result ≡ decided rules.now policy (port_items features ports) }
{
    match ports {
        Ports::Cut if features & features::PORTS != 0 => Some(FilterEnd::Cut),
        Ports::Tcp { source, target } if features & features::TCP != 0 => {
            let target = Question::new(RuleKey::port(target), flags::TARGET_TCP);
            let source = Question::new(RuleKey::port(source), flags::SOURCE_TCP);
            by_pair(rules, policy, target, source)
        }
        Ports::Udp { source, target } if features & features::UDP != 0 => {
            let target = Question::new(RuleKey::port(target), flags::TARGET_UDP);
            let source = Question::new(RuleKey::port(source), flags::SOURCE_UDP);
            by_pair(rules, policy, target, source)
        }
        _ => None,
    }
}

fn by_addresses(
    rules: &Rules,
    policy: Policy,
    target: RuleKey,
    source: RuleKey,
) -> Option<FilterEnd>
    ensures { result ≡ decided rules.now policy (Ask target 2 ∷ Ask source 1 ∷ []) }
{
    let target = Question::new(target, flags::TARGET);
    let source = Question::new(source, flags::SOURCE);
    by_pair(rules, policy, target, source)
}

/// What the row makes of the frame that answers the first of two questions that a row answers.
fn by_pair(rules: &Rules, policy: Policy, first: Question, second: Question) -> Option<FilterEnd>
    ensures { result ≡ decided rules.now policy
        (Ask first.key first.flag ∷ Ask second.key second.flag ∷ []) }
{
    let rule = rules
        .answering(first.key, first.flag)
        .or_else(|| rules.answering(second.key, second.flag))?;
    Some(FilterEnd::Hit {
        rule,
        action: policy.hit(),
    })
}
