ghost use Rattle.std.specs.Prelude.{◌≡◌, ◌≤◌, find, length, IfOk};
ghost use Rattle.xdp_state.specs.Hits.{hits_in};
ghost use Rattle.xdp_state.specs.Members.{is_filter};
ghost use Rattle.script_text.specs.Table.{filter_line, member_line, filters_from, row_line, rows_text, verdict_line, verdicts_text, rules_text};
ghost use Rattle.xio.specs.Printing.{Prints};

use crate::key_text::key_print;
use crate::piece::{Piece, print_line};
use crate::vocabulary::{BitNames, action_name, policy_name};
use crate::word_lists::{flags_print, list_print};
use filter_rules::{Policy, RuleRow, Rules};
use std::alloc::Global;
use xdp_state::{Chain, InterfaceList, Kind, Member, State, Tally};
use xio::{Action, Bytes, OutOfMemory, Printer};

/// Prints an interface's filter.
#[tactic(auto, unfolding(crate::specs::Table::filter_line), using(xio::proofs::PrintLemmas::printing))]
fn filter_print<P: Printer>(
    printer: &mut P,
    name: &[u8],
    policy: Policy,
    features: u8,
) -> Result<(), P::End>
    ensures { Prints P.tells P.counts (P.state printer.old) (P.state printer.new) (filter_line name.now policy features) result }
{
    print_line(
        printer,
        &[
            Piece::Text(b"  "),
            Piece::Text(name),
            Piece::Text(b" "),
            Piece::Text(policy_name(policy)),
            Piece::Text(b" "),
        ],
    )?;
    list_print(printer, BitNames::Features, features)?;
    printer.print(b"\n")
}

/// The first filter of a chain.
fn filter_in(chain: &Chain) -> Option<Member>
    ensures { result ≡ find (λ member. is_filter member.kind) chain.now }
{
    chain
        .members()
        .copied()
        .find(|member| matches!(member.kind, Kind::Filter { .. }))
}

/// Prints the line of an interface's filter, where it has one.
fn member_print<P: Printer>(
    printer: &mut P,
    name: &[u8],
    member: Option<Member>,
) -> Result<(), P::End>
    ensures { Prints P.tells P.counts (P.state printer.old) (P.state printer.new) (member_line name.now member) result }
{
    let Some(member) = member else {
        return Ok(());
    };
    match member.kind {
        Kind::Program(_) => Ok(()),
        Kind::Filter { policy, features } => filter_print(printer, name, policy, features),
    }
}

/// Prints the lines of the interfaces that have a filter.
fn filters_print<P: Printer>(
    printer: &mut P,
    state: &State,
    interfaces: &InterfaceList,
) -> Result<(), P::End>
    requires { length interfaces.now ≤ 8 }
    ensures { Prints P.tells P.counts (P.state printer.old) (P.state printer.new) (filters_from state.now.members 0 interfaces.now) result }
{
    for place in 0..interfaces.len() {
        let interface = interfaces.at(place);
        let filter = filter_in(state.chain(place));
        member_print(printer, interface.name.as_slice(), filter)?;
    }
    Ok(())
}

/// Prints a row and how often it was hit.
#[tactic(auto, unfolding(crate::specs::Table::row_line), using(xio::proofs::PrintLemmas::printing))]
fn row_print<P: Printer>(printer: &mut P, row: RuleRow, hits: u64) -> Result<(), P::End>
    ensures { Prints P.tells P.counts (P.state printer.old) (P.state printer.new) (row_line row hits) result }
{
    printer.print(b"  ")?;
    key_print(printer, row.key)?;
    printer.print(b" ")?;
    flags_print(printer, row.key.kind, row.flags)?;
    print_line(
        printer,
        &[
            Piece::Text(b" #"),
            Piece::Number(u128::from(row.number)),
            Piece::Text(b" hits "),
            Piece::Number(u128::from(hits)),
            Piece::Text(b"\n"),
        ],
    )
}

/// Prints the lines of the rows.
fn rows_print<P: Printer>(printer: &mut P, rules: &Rules, tally: &Tally) -> Result<(), P::End>
    ensures { Prints P.tells P.counts (P.state printer.old) (P.state printer.new) (rows_text tally.now.hits rules.now) result }
{
    for index in 0..rules.len() {
        let row = rules.row(index);
        row_print(printer, row, tally.hits_of(row.number))?;
    }
    Ok(())
}

/// Prints the packets and bytes of a verdict.
#[tactic(auto, unfolding(crate::specs::Table::verdict_line))]
fn verdict_print<P: Printer>(
    printer: &mut P,
    action: Action,
    packets: u64,
    bytes: u64,
) -> Result<(), P::End>
    ensures { Prints P.tells P.counts (P.state printer.old) (P.state printer.new) (verdict_line action packets bytes) result }
{
    print_line(
        printer,
        &[
            Piece::Text(b"  "),
            Piece::Text(action_name(action)),
            Piece::Text(b" "),
            Piece::Number(u128::from(packets)),
            Piece::Text(b" "),
            Piece::Number(u128::from(bytes)),
            Piece::Text(b"\n"),
        ],
    )
}

/// Prints packets and bytes by verdict.
#[tactic(auto, unfolding(crate::specs::Table::verdicts_text), using(xio::proofs::PrintLemmas::printing))]
fn verdicts_print<P: Printer>(
    printer: &mut P,
    packets: &[u64; 5],
    bytes: &[u64; 5],
) -> Result<(), P::End>
    ensures { Prints P.tells P.counts (P.state printer.old) (P.state printer.new) (verdicts_text packets.now bytes.now) result }
{
    verdict_print(printer, Action::Aborted, packets[0], bytes[0])?;
    verdict_print(printer, Action::Drop, packets[1], bytes[1])?;
    verdict_print(printer, Action::Pass, packets[2], bytes[2])?;
    verdict_print(printer, Action::Tx, packets[3], bytes[3])?;
    verdict_print(printer, Action::Redirect, packets[4], bytes[4])
}

/// Prints the table of `xdp-filter status`, behind its first line. Hits are those of the rows' numbers.
#[tactic(auto, unfolding(crate::specs::Table::rules_text), using(xio::proofs::PrintLemmas::printing))]
pub fn rules_print<P: Printer>(
    printer: &mut P,
    state: &State,
    interfaces: &InterfaceList,
    tally: &Tally,
) -> Result<(), P::End>
    requires { length interfaces.now ≤ 8 }
    ensures { Prints P.tells P.counts (P.state printer.old) (P.state printer.new) (rules_text interfaces.now state.now tally.now) result }
{
    filters_print(printer, state, interfaces)?;
    rows_print(printer, state.rules(), tally)?;
    verdicts_print(printer, &tally.packets, &tally.bytes)
}

/// The table of `xdp-filter status`, behind its first line. Hits are those of the rows' numbers.
pub fn rules_text(
    alloc: Global,
    state: &State,
    interfaces: &InterfaceList,
    tally: &Tally,
) -> Result<Bytes, OutOfMemory>
    requires { length interfaces.now ≤ 8 }
    ensures { IfOk result (λ text. text ≡ rules_text interfaces.now state.now tally.now) }
{
    let mut text = Bytes::new(alloc);
    rules_print(&mut text, state, interfaces, tally)?;
    Ok(text)
}
