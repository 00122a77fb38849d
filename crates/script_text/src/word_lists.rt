//! Lists of words with commas between them, in one place for what reads them and what prints them.

ghost use Rattle.std.specs.Prelude.{◌≡◌};
ghost use Rattle.script_text.specs.Lists.{actions_of, bits_of, directions_in, directions_of, features_of, flag_names, flags_text, list_text, mask_text, protocols_in, protocols_of, sides_in, sides_of};
ghost use Rattle.script_text.specs.Pieces.{listed, piece_text};
ghost use Rattle.script_text.specs.Vocabulary.{bit_name};
ghost use Rattle.xio.specs.Printing.{Prints};

use crate::parts::first_part;
use crate::piece::{Piece, print_line};
use crate::vocabulary::{BitNames, bit_name, bit_of};
use crate::{actions, sides};
use filter_rules::{RuleKind, features, flags};
use xio::Printer;

/// Which of a packet's two ends a rule asks for.
#[derive(Clone, Copy)]
pub enum Directions {
    Source,
    Target,
    Both,
}

/// Which protocols a rule on a port asks for.
#[derive(Clone, Copy)]
pub enum Protocols {
    Tcp,
    Udp,
    Both,
}

/// On which sides of programs packets are captured.
#[derive(Clone, Copy)]
pub enum Sides {
    Entry,
    Exit,
    Both,
}

/// The bits of a list of their names, each at most once.
fn bits_of(names: BitNames, list: &[u8]) -> Option<u8>
    ensures { result ≡ bits_of names list.now }
{
    let mut bits = 0;
    let mut rest = list;
    loop {
        let part = first_part(rest, b',');
        let bit = bit_of(names, part.part)?;
        if bits & bit != 0 {
            return None;
        }
        bits |= bit;
        match part.behind {
            Some(behind) => rest = behind,
            None => return Some(bits),
        }
    }
}

/// The bits of a list of features, or of the one word `all`.
pub fn features_of(list: &[u8]) -> Option<u8>
    ensures { result ≡ features_of list.now }
{
    if list == b"all".as_slice() {
        return Some(features::ALL);
    }
    bits_of(BitNames::Features, list)
}

fn directions_in(bits: u8) -> Option<Directions>
    ensures { result ≡ directions_in bits }
{
    match bits {
        1 => Some(Directions::Source),
        2 => Some(Directions::Target),
        3 => Some(Directions::Both),
        _ => None,
    }
}

/// The directions of a list of `src` and `dst`.
pub fn directions_of(list: &[u8]) -> Option<Directions>
    ensures { result ≡ directions_of list.now }
{
    directions_in(bits_of(BitNames::AddressFlags, list)?)
}

fn protocols_in(bits: u8) -> Option<Protocols>
    ensures { result ≡ protocols_in bits }
{
    match bits {
        1 => Some(Protocols::Tcp),
        2 => Some(Protocols::Udp),
        3 => Some(Protocols::Both),
        _ => None,
    }
}

/// The protocols of a list of `tcp` and `udp`, which are features.
pub fn protocols_of(list: &[u8]) -> Option<Protocols>
    ensures { result ≡ protocols_of list.now }
{
    protocols_in(bits_of(BitNames::Features, list)?)
}

fn sides_in(bits: u8) -> Option<Sides>
    ensures { result ≡ sides_in bits }
{
    match bits {
        1 => Some(Sides::Entry),
        2 => Some(Sides::Exit),
        3 => Some(Sides::Both),
        _ => None,
    }
}

/// The sides of a list of `entry` and `exit`.
pub fn sides_of(list: &[u8]) -> Option<Sides>
    ensures { result ≡ sides_of list.now }
{
    sides_in(bits_of(BitNames::Sides, list)?)
}

/// The mask of a list of actions.
pub fn actions_of(list: &[u8]) -> Option<u8>
    ensures { result ≡ actions_of list.now }
{
    bits_of(BitNames::Actions, list)
}

fn listed(names: BitNames, bits: u8, bit: u8) -> Piece<'static>
    ensures { piece_text result ≡ listed bits bit (bit_name names bit) }
{
    let name = bit_name(names, bit);
    Piece::Listed { bits, bit, name }
}

/// Prints the names of the bits that are set, in the order of the bits.
#[tactic(auto, unfolding(crate::specs::Lists::list_text))]
pub fn list_print<P: Printer>(printer: &mut P, names: BitNames, bits: u8) -> Result<(), P::End>
    ensures { Prints P.tells P.counts (P.state printer.old) (P.state printer.new) (list_text names bits) result }
{
    match names {
        BitNames::Features => print_line(
            printer,
            &[
                listed(names, bits, features::TCP),
                listed(names, bits, features::UDP),
                listed(names, bits, features::IPV4),
                listed(names, bits, features::IPV6),
                listed(names, bits, features::ETHERNET),
            ],
        ),
        BitNames::AddressFlags => print_line(
            printer,
            &[
                listed(names, bits, flags::SOURCE),
                listed(names, bits, flags::TARGET),
            ],
        ),
        BitNames::PortFlags => print_line(
            printer,
            &[
                listed(names, bits, flags::SOURCE_TCP),
                listed(names, bits, flags::SOURCE_UDP),
                listed(names, bits, flags::TARGET_TCP),
                listed(names, bits, flags::TARGET_UDP),
            ],
        ),
        BitNames::Actions => print_line(
            printer,
            &[
                listed(names, bits, actions::ABORTED),
                listed(names, bits, actions::DROP),
                listed(names, bits, actions::PASS),
                listed(names, bits, actions::TX),
                listed(names, bits, actions::REDIRECT),
            ],
        ),
        BitNames::Sides => print_line(
            printer,
            &[
                listed(names, bits, sides::ENTRY),
                listed(names, bits, sides::EXIT),
            ],
        ),
    }
}

fn flag_names(kind: RuleKind) -> BitNames
    ensures { result ≡ flag_names kind }
{
    match kind {
        RuleKind::Port => BitNames::PortFlags,
        RuleKind::Ip4 | RuleKind::Ip6 | RuleKind::Ether => BitNames::AddressFlags,
    }
}

/// Prints the names of a row's flags.
#[tactic(auto, unfolding(crate::specs::Lists::flags_text))]
pub fn flags_print<P: Printer>(printer: &mut P, kind: RuleKind, bits: u8) -> Result<(), P::End>
    ensures { Prints P.tells P.counts (P.state printer.old) (P.state printer.new) (flags_text kind bits) result }
{
    list_print(printer, flag_names(kind), bits)
}

/// Prints the names of a mask's actions, or `-` where it has none.
#[tactic(auto, unfolding(crate::specs::Lists::mask_text))]
pub fn mask_print<P: Printer>(printer: &mut P, mask: u8) -> Result<(), P::End>
    ensures { Prints P.tells P.counts (P.state printer.old) (P.state printer.new) (mask_text mask) result }
{
    if mask & actions::ALL == 0 {
        return printer.print(b"-");
    }
    list_print(printer, BitNames::Actions, mask)
}
