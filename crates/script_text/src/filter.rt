ghost use Rattle.std.specs.Prelude.{◌≡◌, ◌≤◌, true, IfOk, IfSome};
ghost use Rattle.filter_rules.specs.Rule.{all_flags};
ghost use Rattle.script_text.specs.Filter.{load_of, unload_of, direction_flags, protocol_flags, port_flags, port_of, address_rule, ether_key, ip_key, command_of, filter_line};
ghost use Rattle.xdp_state.specs.Answer.{rule_fits};
ghost use Rattle.script_text.specs.Readings.{Reads};
ghost use Rattle.script_text.specs.WordViews.{word_of};
ghost use Rattle.script_text.specs.Words.{words_of};

use crate::arranged::arranged;
use crate::ethernet::ether_of;
use crate::ip4::ip4_of;
use crate::ip6::ip6_of;
use crate::name::is_name;
use crate::numbers::number_within;
use crate::options::{Given, Verb, filter_verb_of};
use crate::reading::{LineEnd, both, keeps, or_else};
use crate::rule::{BAD_ADDRESS, BAD_FORM, BAD_NAME, BAD_NUMBER, Rule, UNKNOWN};
use crate::text::bytes_of;
use crate::word_lists::{Directions, Protocols};
use crate::words::next_word;
use filter_rules::{Policy, RuleKey, RuleKind, features};
use std::alloc::Global;
use xdp_state::{Command, Mode};

/// Reads the words of `load`.
#[tactic(auto, unfolding(crate::specs::Filter::load_of))]
fn load_of(alloc: Global, name: &[u8], given: Given) -> Result<Command, LineEnd>
    ensures command { Reads result (load_of name.now given) }
    ensures flags { IfOk result (λ command. rule_fits command ≡ true) }
{
    let policy = or_else(given.policy, Policy::Allow);
    let features = or_else(given.features, features::ALL);
    let mode = or_else(given.mode, Mode::Native);
    let ((), (mode, (policy, features))) = both(
        keeps(BAD_NAME, is_name(name)),
        both(mode, both(policy, features)),
    )?;
    Ok(Command::FilterLoad {
        interface: bytes_of(alloc, name)?,
        mode,
        policy,
        features,
    })
}

/// Reads the words of `unload`.
#[tactic(auto, unfolding(crate::specs::Filter::unload_of))]
fn unload_of(alloc: Global, name: &[u8], given: Given) -> Result<Command, LineEnd>
    ensures command { Reads result (unload_of name.now given) }
    ensures flags { IfOk result (λ command. rule_fits command ≡ true) }
{
    keeps(BAD_NAME, is_name(name))?;
    Ok(Command::FilterUnload {
        interface: bytes_of(alloc, name)?,
        keep: given.keep,
    })
}

/// The flags of an address: 1 for the source, 2 for the target.
fn direction_flags(directions: Directions) -> u8
    ensures value { result ≡ direction_flags directions }
    ensures some { 1 ≤ result }
    ensures within { result ≤ 3 }
{
    match directions {
        Directions::Source => 1,
        Directions::Target => 2,
        Directions::Both => 3,
    }
}

/// The flags of a source's port.
fn protocol_flags(protocols: Protocols) -> u8
    ensures value { result ≡ protocol_flags protocols }
    ensures some { 1 ≤ result }
    ensures within { result ≤ 3 }
{
    match protocols {
        Protocols::Tcp => 1,
        Protocols::Udp => 2,
        Protocols::Both => 3,
    }
}

/// The flags of all pairs of a direction and a protocol.
fn port_flags(directions: Directions, protocols: Protocols) -> u8
    ensures value { result ≡ port_flags directions protocols }
    ensures some { 1 ≤ result }
    ensures within { result ≤ 15 }
{
    let flags = protocol_flags(protocols);
    match directions {
        Directions::Source => flags,
        Directions::Target => 4 * flags,
        Directions::Both => flags + 4 * flags,
    }
}

/// Reads the words of `port`.
#[tactic(auto, unfolding(crate::specs::Filter::port_of))]
fn port_of(port: &[u8], given: Given) -> Result<Command, Rule>
    ensures command { result ≡ port_of port.now given }
    ensures flags { IfOk result (λ command. rule_fits command ≡ true) }
{
    let directions = or_else(given.directions, Directions::Target);
    let protocols = or_else(given.protocols, Protocols::Both);
    let (port, (directions, protocols)) = both(
        number_within(0, 65_535, port).ok_or(BAD_NUMBER),
        both(directions, protocols),
    )?;
    Ok(Command::FilterRule {
        key: RuleKey {
            kind: RuleKind::Port,
            value: u128::from(port),
        },
        flags: port_flags(directions, protocols),
        remove: given.remove,
    })
}

/// Reads the words of a rule on an address.
fn address_rule(key: Option<RuleKey>, given: Given) -> Result<Command, Rule>
    requires { IfSome key (λ key. 3 ≤ all_flags key.kind) }
    ensures command { result ≡ address_rule key given }
    ensures flags { IfOk result (λ command. rule_fits command ≡ true) }
{
    let directions = or_else(given.directions, Directions::Target);
    let (directions, key) = both(directions, key.ok_or(BAD_ADDRESS))?;
    Ok(Command::FilterRule {
        key,
        flags: direction_flags(directions),
        remove: given.remove,
    })
}

fn ether_key(word: &[u8]) -> Option<RuleKey>
    ensures key { result ≡ ether_key word.now }
    ensures flags { IfSome result (λ key. 3 ≤ all_flags key.kind) }
{
    let address = ether_of(word)?;
    Some(RuleKey {
        kind: RuleKind::Ether,
        value: u128::from(address),
    })
}

/// The key of an IPv4 or an IPv6 address.
fn ip_key(word: &[u8]) -> Option<RuleKey>
    ensures key { result ≡ ip_key word.now }
    ensures flags { IfSome result (λ key. 3 ≤ all_flags key.kind) }
{
    if let Some(address) = ip4_of(word) {
        return Some(RuleKey {
            kind: RuleKind::Ip4,
            value: u128::from(address),
        });
    }
    let address = ip6_of(word)?;
    Some(RuleKey {
        kind: RuleKind::Ip6,
        value: address,
    })
}

/// Reads the words of a verb; all but `status` have one word of their own.
fn command_of(
    alloc: Global,
    verb: Verb,
    given: Given,
    own: Option<&[u8]>,
) -> Result<Command, LineEnd>
    ensures command { Reads result (command_of verb given (word_of own.entry)) }
    ensures flags { IfOk result (λ command. rule_fits command ≡ true) }
{
    match (verb, own) {
        (Verb::FilterLoad, Some(name)) => load_of(alloc, name, given),
        (Verb::FilterUnload, Some(name)) => unload_of(alloc, name, given),
        (Verb::FilterPort, Some(port)) => Ok(port_of(port, given)?),
        (Verb::FilterIp, Some(address)) => Ok(address_rule(ip_key(address), given)?),
        (Verb::FilterEther, Some(address)) => Ok(address_rule(ether_key(address), given)?),
        (Verb::FilterStatus, None) => Ok(Command::FilterStatus),
        _ => Err(LineEnd::BadLine { rule: BAD_FORM }),
    }
}

/// Reads a line of `xdp-filter`, by the words behind the first.
#[tactic(auto, unfolding(crate::specs::Filter::filter_line))]
pub fn filter_line(alloc: Global, words: &[u8]) -> Result<Command, LineEnd>
    ensures command { Reads result (filter_line (words_of words.now)) }
    ensures flags { IfOk result (λ command. rule_fits command ≡ true) }
{
    let Some((verb, behind)) = next_word(words) else {
        return Err(LineEnd::BadLine { rule: BAD_FORM });
    };
    let Some(verb) = filter_verb_of(verb) else {
        return Err(LineEnd::BadLine { rule: UNKNOWN });
    };
    let words = arranged(verb, behind)?;
    if words.plain.second.is_some() {
        return Err(LineEnd::BadLine { rule: BAD_FORM });
    }
    command_of(alloc, verb, words.given, words.plain.first)
}
