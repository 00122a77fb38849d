ghost use Rattle.std.specs.Prelude.{◌≡◌, IfOk, sum};
ghost use Rattle.script_text.specs.Texts.{processor_line, totals_text, actions_text};
ghost use Rattle.xio.specs.Printing.{Prints};

use crate::piece::{Piece, print_line};
use crate::vocabulary::action_name;
use std::alloc::Global;
use xdp_state::Tally;
use xio::{Action, Bytes, OutOfMemory, Printer};

/// The sum of the five actions' numbers.
fn total(numbers: &[u64; 5]) -> u128
    ensures { result ≡ sum numbers.now }
{
    let [aborted, drop, pass, tx, redirect] = *numbers;
    u128::from(aborted)
        + u128::from(drop)
        + u128::from(pass)
        + u128::from(tx)
        + u128::from(redirect)
}

/// Prints the packets of each action.
fn actions_print<P: Printer>(printer: &mut P, packets: &[u64; 5]) -> Result<(), P::End>
    ensures { Prints P.tells P.counts (P.state printer.old) (P.state printer.new) (actions_text packets.now) result }
{
    let [aborted, drop, pass, tx, redirect] = *packets;
    print_line(
        printer,
        &[
            Piece::Text(b" "),
            Piece::Text(action_name(Action::Aborted)),
            Piece::Text(b" "),
            Piece::Number(u128::from(aborted)),
            Piece::Text(b" "),
            Piece::Text(action_name(Action::Drop)),
            Piece::Text(b" "),
            Piece::Number(u128::from(drop)),
            Piece::Text(b" "),
            Piece::Text(action_name(Action::Pass)),
            Piece::Text(b" "),
            Piece::Number(u128::from(pass)),
            Piece::Text(b" "),
            Piece::Text(action_name(Action::Tx)),
            Piece::Text(b" "),
            Piece::Number(u128::from(tx)),
            Piece::Text(b" "),
            Piece::Text(action_name(Action::Redirect)),
            Piece::Text(b" "),
            Piece::Number(u128::from(redirect)),
            Piece::Text(b"\n"),
        ],
    )
}

/// Prints which processor it is, which queue it serves, and the packets and bytes of all five actions.
fn totals_print<P: Printer>(
    printer: &mut P,
    processor: u32,
    interface: &[u8],
    queue: u32,
    tally: &Tally,
) -> Result<(), P::End>
    ensures { Prints P.tells P.counts (P.state printer.old) (P.state printer.new) (totals_text processor interface.now queue tally.now) result }
{
    let packets = total(&tally.packets);
    let bytes = total(&tally.bytes);
    print_line(
        printer,
        &[
            Piece::Text(b"  cpu "),
            Piece::Number(u128::from(processor)),
            Piece::Text(b" "),
            Piece::Text(interface),
            Piece::Text(b"/"),
            Piece::Number(u128::from(queue)),
            Piece::Text(b" packets "),
            Piece::Number(packets),
            Piece::Text(b" bytes "),
            Piece::Number(bytes),
        ],
    )
}

/// Prints what a processor, which serves a queue of an interface, has carried.
#[tactic(auto, unfolding(crate::specs::Texts::processor_line), using(xio::proofs::PrintLemmas::printing))]
pub fn processor_print<P: Printer>(
    printer: &mut P,
    processor: u32,
    interface: &[u8],
    queue: u32,
    tally: &Tally,
) -> Result<(), P::End>
    ensures { Prints P.tells P.counts (P.state printer.old) (P.state printer.new) (processor_line processor interface.now queue tally.now) result }
{
    totals_print(printer, processor, interface, queue, tally)?;
    actions_print(printer, &tally.packets)
}

/// What is printed of a processor, which serves a queue of an interface.
pub fn processor_line(
    alloc: Global,
    processor: u32,
    interface: &[u8],
    queue: u32,
    tally: &Tally,
) -> Result<Bytes, OutOfMemory>
    ensures { IfOk result (λ text. text ≡ processor_line processor interface.now queue tally.now) }
{
    let mut text = Bytes::new(alloc);
    processor_print(&mut text, processor, interface, queue, tally)?;
    Ok(text)
}
