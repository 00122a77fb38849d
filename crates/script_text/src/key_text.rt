ghost use Rattle.std.specs.Prelude.{◌≡◌};
ghost use Rattle.script_text.specs.Table.{ip4_text, ip6_text, ether_text, key_text};
ghost use Rattle.xio.specs.Printing.{Prints};

use crate::piece::{Piece, print_line};
use filter_rules::{RuleKey, RuleKind};
use xio::Printer;

/// Prints an IPv4 address, the last four of sixteen bytes.
#[tactic(auto, unfolding(crate::specs::Table::ip4_text))]
fn ip4_print<P: Printer>(printer: &mut P, bytes: &[u8; 16]) -> Result<(), P::End>
    ensures { Prints P.tells P.counts (P.state printer.old) (P.state printer.new) (ip4_text bytes.now) result }
{
    print_line(
        printer,
        &[
            Piece::Text(b"ip "),
            Piece::Number(u128::from(bytes[12])),
            Piece::Text(b"."),
            Piece::Number(u128::from(bytes[13])),
            Piece::Text(b"."),
            Piece::Number(u128::from(bytes[14])),
            Piece::Text(b"."),
            Piece::Number(u128::from(bytes[15])),
        ],
    )
}

/// Prints an IPv6 address.
#[tactic(auto, unfolding(crate::specs::Table::ip6_text))]
fn ip6_print<P: Printer>(printer: &mut P, bytes: &[u8; 16]) -> Result<(), P::End>
    ensures { Prints P.tells P.counts (P.state printer.old) (P.state printer.new) (ip6_text bytes.now) result }
{
    print_line(
        printer,
        &[
            Piece::Text(b"ip "),
            Piece::Digits(&[bytes[0], bytes[1]]),
            Piece::Text(b":"),
            Piece::Digits(&[bytes[2], bytes[3]]),
            Piece::Text(b":"),
            Piece::Digits(&[bytes[4], bytes[5]]),
            Piece::Text(b":"),
            Piece::Digits(&[bytes[6], bytes[7]]),
            Piece::Text(b":"),
            Piece::Digits(&[bytes[8], bytes[9]]),
            Piece::Text(b":"),
            Piece::Digits(&[bytes[10], bytes[11]]),
            Piece::Text(b":"),
            Piece::Digits(&[bytes[12], bytes[13]]),
            Piece::Text(b":"),
            Piece::Digits(&[bytes[14], bytes[15]]),
        ],
    )
}

/// Prints an Ethernet address, the last six of sixteen bytes.
#[tactic(auto, unfolding(crate::specs::Table::ether_text))]
fn ether_print<P: Printer>(printer: &mut P, bytes: &[u8; 16]) -> Result<(), P::End>
    ensures { Prints P.tells P.counts (P.state printer.old) (P.state printer.new) (ether_text bytes.now) result }
{
    print_line(
        printer,
        &[
            Piece::Text(b"ether "),
            Piece::Digits(&[bytes[10]]),
            Piece::Text(b":"),
            Piece::Digits(&[bytes[11]]),
            Piece::Text(b":"),
            Piece::Digits(&[bytes[12]]),
            Piece::Text(b":"),
            Piece::Digits(&[bytes[13]]),
            Piece::Text(b":"),
            Piece::Digits(&[bytes[14]]),
            Piece::Text(b":"),
            Piece::Digits(&[bytes[15]]),
        ],
    )
}

/// Prints what a rule speaks of.
#[tactic(auto, unfolding(crate::specs::Table::key_text))]
pub fn key_print<P: Printer>(printer: &mut P, key: RuleKey) -> Result<(), P::End>
    ensures { Prints P.tells P.counts (P.state printer.old) (P.state printer.new) (key_text key) result }
{
    let bytes = key.value.to_be_bytes();
    match key.kind {
        RuleKind::Port => print_line(printer, &[Piece::Text(b"port "), Piece::Number(key.value)]),
        RuleKind::Ip4 => ip4_print(printer, &bytes),
        RuleKind::Ip6 => ip6_print(printer, &bytes),
        RuleKind::Ether => ether_print(printer, &bytes),
    }
}
