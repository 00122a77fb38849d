//! The words of choices, in one place for what reads them and what prints them.

ghost use Rattle.std.specs.Prelude.{◌≡◌, Some};
ghost use Rattle.script_text.specs.Vocabulary.{action_name, action_of, policy_name, policy_of, mode_name, mode_of, feature_name, feature_of, address_flag_name, address_flag_of, port_flag_name, port_flag_of, action_bit_name, action_bit_of, side_name, side_of, bit_name, bit_of};

use crate::{actions, sides};
use filter_rules::{Policy, features, flags};
use xdp_state::Mode;
use xio::Action;

/// The word of an action.
pub fn action_name(action: Action) -> &'static [u8]
    ensures value { result.now ≡ action_name action }
    ensures reads_back { action_of result.now ≡ Some action }
{
    match action {
        Action::Aborted => b"aborted",
        Action::Drop => b"drop",
        Action::Pass => b"pass",
        Action::Tx => b"tx",
        Action::Redirect => b"redirect",
    }
}

/// The action of a word.
pub fn action_of(word: &[u8]) -> Option<Action>
    ensures { result ≡ action_of word.now }
{
    if word == action_name(Action::Aborted) {
        Some(Action::Aborted)
    } else if word == action_name(Action::Drop) {
        Some(Action::Drop)
    } else if word == action_name(Action::Pass) {
        Some(Action::Pass)
    } else if word == action_name(Action::Tx) {
        Some(Action::Tx)
    } else if word == action_name(Action::Redirect) {
        Some(Action::Redirect)
    } else {
        None
    }
}

/// The word of a policy.
pub fn policy_name(policy: Policy) -> &'static [u8]
    ensures value { result.now ≡ policy_name policy }
    ensures reads_back { policy_of result.now ≡ Some policy }
{
    match policy {
        Policy::Allow => b"allow",
        Policy::Deny => b"deny",
    }
}

/// The policy of a word.
pub fn policy_of(word: &[u8]) -> Option<Policy>
    ensures { result ≡ policy_of word.now }
{
    if word == policy_name(Policy::Allow) {
        Some(Policy::Allow)
    } else if word == policy_name(Policy::Deny) {
        Some(Policy::Deny)
    } else {
        None
    }
}

/// The word of a mode.
pub fn mode_name(mode: Mode) -> &'static [u8]
    ensures value { result.now ≡ mode_name mode }
    ensures reads_back { mode_of result.now ≡ Some mode }
{
    match mode {
        Mode::Native => b"native",
        Mode::Skb => b"skb",
    }
}

/// The mode of a word; `unspecified` is native.
pub fn mode_of(word: &[u8]) -> Option<Mode>
    ensures { result ≡ mode_of word.now }
{
    if word == mode_name(Mode::Native) {
        Some(Mode::Native)
    } else if word == mode_name(Mode::Skb) {
        Some(Mode::Skb)
    } else if word == b"unspecified".as_slice() {
        Some(Mode::Native)
    } else {
        None
    }
}

/// The word of a feature's bit; it is `ethernet` for all but the four lower bits.
fn feature_name(bit: u8) -> &'static [u8]
    ensures { result.now ≡ feature_name bit }
{
    if bit == features::TCP {
        b"tcp"
    } else if bit == features::UDP {
        b"udp"
    } else if bit == features::IPV4 {
        b"ipv4"
    } else if bit == features::IPV6 {
        b"ipv6"
    } else {
        b"ethernet"
    }
}

/// The bit of a feature's word.
fn feature_of(word: &[u8]) -> Option<u8>
    ensures { result ≡ feature_of word.now }
{
    if word == feature_name(features::TCP) {
        Some(features::TCP)
    } else if word == feature_name(features::UDP) {
        Some(features::UDP)
    } else if word == feature_name(features::IPV4) {
        Some(features::IPV4)
    } else if word == feature_name(features::IPV6) {
        Some(features::IPV6)
    } else if word == feature_name(features::ETHERNET) {
        Some(features::ETHERNET)
    } else {
        None
    }
}

/// The word of an address flag's bit; it is `dst` for all but the source.
fn address_flag_name(bit: u8) -> &'static [u8]
    ensures { result.now ≡ address_flag_name bit }
{
    if bit == flags::SOURCE { b"src" } else { b"dst" }
}

fn address_flag_of(word: &[u8]) -> Option<u8>
    ensures { result ≡ address_flag_of word.now }
{
    if word == address_flag_name(flags::SOURCE) {
        Some(flags::SOURCE)
    } else if word == address_flag_name(flags::TARGET) {
        Some(flags::TARGET)
    } else {
        None
    }
}

/// The word of a port flag's bit; it is `dst-udp` for all but the three lower bits.
fn port_flag_name(bit: u8) -> &'static [u8]
    ensures { result.now ≡ port_flag_name bit }
{
    if bit == flags::SOURCE_TCP {
        b"src-tcp"
    } else if bit == flags::SOURCE_UDP {
        b"src-udp"
    } else if bit == flags::TARGET_TCP {
        b"dst-tcp"
    } else {
        b"dst-udp"
    }
}

fn port_flag_of(word: &[u8]) -> Option<u8>
    ensures { result ≡ port_flag_of word.now }
{
    if word == port_flag_name(flags::SOURCE_TCP) {
        Some(flags::SOURCE_TCP)
    } else if word == port_flag_name(flags::SOURCE_UDP) {
        Some(flags::SOURCE_UDP)
    } else if word == port_flag_name(flags::TARGET_TCP) {
        Some(flags::TARGET_TCP)
    } else if word == port_flag_name(flags::TARGET_UDP) {
        Some(flags::TARGET_UDP)
    } else {
        None
    }
}

/// The word of an action's bit; it is `XDP_REDIRECT` for all but the four lower bits.
fn action_bit_name(bit: u8) -> &'static [u8]
    ensures { result.now ≡ action_bit_name bit }
{
    if bit == actions::ABORTED {
        b"XDP_ABORTED"
    } else if bit == actions::DROP {
        b"XDP_DROP"
    } else if bit == actions::PASS {
        b"XDP_PASS"
    } else if bit == actions::TX {
        b"XDP_TX"
    } else {
        b"XDP_REDIRECT"
    }
}

fn action_bit_of(word: &[u8]) -> Option<u8>
    ensures { result ≡ action_bit_of word.now }
{
    if word == action_bit_name(actions::ABORTED) {
        Some(actions::ABORTED)
    } else if word == action_bit_name(actions::DROP) {
        Some(actions::DROP)
    } else if word == action_bit_name(actions::PASS) {
        Some(actions::PASS)
    } else if word == action_bit_name(actions::TX) {
        Some(actions::TX)
    } else if word == action_bit_name(actions::REDIRECT) {
        Some(actions::REDIRECT)
    } else {
        None
    }
}

/// The word of a side's bit: 1 as a packet enters a program, all others as it leaves.
fn side_name(bit: u8) -> &'static [u8]
    ensures { result.now ≡ side_name bit }
{
    if bit == sides::ENTRY {
        b"entry"
    } else {
        b"exit"
    }
}

fn side_of(word: &[u8]) -> Option<u8>
    ensures { result ≡ side_of word.now }
{
    if word == side_name(sides::ENTRY) {
        Some(sides::ENTRY)
    } else if word == side_name(sides::EXIT) {
        Some(sides::EXIT)
    } else {
        None
    }
}

/// What bits have names, of which lists are made.
#[derive(Clone, Copy)]
pub enum BitNames {
    /// Those of the protocols are the features' too.
    Features,
    /// Of an address, or of any rule's two directions.
    AddressFlags,
    PortFlags,
    Actions,
    /// Of a program: as a packet enters it, and as it leaves.
    Sides,
}

/// The word of a bit.
pub fn bit_name(names: BitNames, bit: u8) -> &'static [u8]
    ensures { result.now ≡ bit_name names bit }
{
    match names {
        BitNames::Features => feature_name(bit),
        BitNames::AddressFlags => address_flag_name(bit),
        BitNames::PortFlags => port_flag_name(bit),
        BitNames::Actions => action_bit_name(bit),
        BitNames::Sides => side_name(bit),
    }
}

/// The bit of a word.
pub fn bit_of(names: BitNames, word: &[u8]) -> Option<u8>
    ensures { result ≡ bit_of names word.now }
{
    match names {
        BitNames::Features => feature_of(word),
        BitNames::AddressFlags => address_flag_of(word),
        BitNames::PortFlags => port_flag_of(word),
        BitNames::Actions => action_bit_of(word),
        BitNames::Sides => side_of(word),
    }
}
