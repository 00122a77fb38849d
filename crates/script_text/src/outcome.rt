ghost use Rattle.std.specs.Prelude.{◌≡◌, IfOk};
ghost use Rattle.script_text.specs.Texts.{counted, outcome_text, reason_text, refused_text, end_text};
ghost use Rattle.xio.specs.Printing.{Prints};

use crate::piece::{Piece, print_line};
use crate::refusal::refusal_print;
use std::alloc::Global;
use xdp_state::Reason;
use xio::{Bytes, OutOfMemory, Printer};

/// What came of a line of the script.
#[derive(Clone, Copy, Debug, PartialEq, Eq)]
pub enum Outcome {
    /// A command was accepted, as the publication of this number.
    Ok(u32),
    /// A table is shown.
    Shown,
    /// A command was refused.
    Refused(Reason),
    /// Packets were handed in.
    Handed { packets: u32 },
    /// A phase ended, after so many publications.
    Barrier(u32),
}

/// Prints why a command is refused.
#[tactic(auto, unfolding(crate::specs::Texts::reason_text), using(xio::proofs::PrintLemmas::printing))]
fn reason_print<P: Printer>(printer: &mut P, reason: Reason) -> Result<(), P::End>
    ensures { Prints P.tells P.counts (P.state printer.old) (P.state printer.new) (reason_text reason) result }
{
    match reason {
        Reason::NoInterface => printer.print(b"no such interface"),
        Reason::BadObject(refusal) => {
            printer.print(b"bad object: ")?;
            refusal_print(printer, refusal)
        }
        Reason::NoSuchProgram => printer.print(b"no such program"),
        Reason::ModeDiffers => printer.print(b"mode differs"),
        Reason::ChainFull => printer.print(b"chain full"),
        Reason::NothingLoaded => printer.print(b"nothing loaded"),
        Reason::NoSuchId => printer.print(b"no such id"),
        Reason::FilterThere => printer.print(b"filter there"),
        Reason::FilterNotThere => printer.print(b"filter not there"),
        Reason::FeatureMissing => printer.print(b"feature missing"),
        Reason::RulesFull => printer.print(b"rules full"),
        Reason::NoSuchRule => printer.print(b"no such rule"),
        Reason::DumpThere => printer.print(b"dump there"),
        Reason::DumpNotThere => printer.print(b"dump not there"),
    }
}

/// Prints the line of a refused command.
#[tactic(auto, using(xio::proofs::PrintLemmas::printing))]
fn refused_print<P: Printer>(printer: &mut P, line: u32, reason: Reason) -> Result<(), P::End>
    ensures { Prints P.tells P.counts (P.state printer.old) (P.state printer.new) (refused_text line reason) result }
{
    print_line(
        printer,
        &[Piece::Number(u128::from(line)), Piece::Text(b" refused ")],
    )?;
    reason_print(printer, reason)?;
    printer.print(b"\n")
}

/// Prints a line that ends with a count.
fn print_counted<P: Printer>(
    printer: &mut P,
    line: u32,
    word: &[u8],
    count: u32,
) -> Result<(), P::End>
    ensures { Prints P.tells P.counts (P.state printer.old) (P.state printer.new) (counted line word.now count) result }
{
    print_line(
        printer,
        &[
            Piece::Number(u128::from(line)),
            Piece::Text(word),
            Piece::Number(u128::from(count)),
            Piece::Text(b"\n"),
        ],
    )
}

/// Prints a line's outcome, without the lines of a table or of processors.
#[tactic(auto, unfolding(crate::specs::Texts::outcome_text))]
pub fn outcome_print<P: Printer>(
    printer: &mut P,
    line: u32,
    outcome: &Outcome,
) -> Result<(), P::End>
    ensures { Prints P.tells P.counts (P.state printer.old) (P.state printer.new) (outcome_text line outcome.now) result }
{
    match outcome {
        Outcome::Ok(number) => print_counted(printer, line, b" ok ", *number),
        Outcome::Shown => print_line(
            printer,
            &[Piece::Number(u128::from(line)), Piece::Text(b" ok\n")],
        ),
        Outcome::Refused(reason) => refused_print(printer, line, *reason),
        Outcome::Handed { packets } => print_counted(printer, line, b" handed ", *packets),
        Outcome::Barrier(count) => print_counted(printer, line, b" barrier ", *count),
    }
}

/// What is printed of a line's outcome, without the lines of a table or of processors.
pub fn outcome_text(alloc: Global, line: u32, outcome: &Outcome) -> Result<Bytes, OutOfMemory>
    ensures { IfOk result (λ text. text ≡ outcome_text line outcome.now) }
{
    let mut text = Bytes::new(alloc);
    outcome_print(&mut text, line, outcome)?;
    Ok(text)
}

/// Prints the script's end, after so many publications.
#[tactic(auto, unfolding(crate::specs::Texts::end_text))]
pub fn end_print<P: Printer>(printer: &mut P, count: u32) -> Result<(), P::End>
    ensures { Prints P.tells P.counts (P.state printer.old) (P.state printer.new) (end_text count) result }
{
    print_line(
        printer,
        &[
            Piece::Text(b"end "),
            Piece::Number(u128::from(count)),
            Piece::Text(b"\n"),
        ],
    )
}

/// What is printed at the script's end, after so many publications.
pub fn end_text(alloc: Global, count: u32) -> Result<Bytes, OutOfMemory>
    ensures { IfOk result (λ text. text ≡ end_text count) }
{
    let mut text = Bytes::new(alloc);
    end_print(&mut text, count)?;
    Ok(text)
}
