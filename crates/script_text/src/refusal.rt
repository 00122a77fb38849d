ghost use Rattle.script_text.specs.Texts.{refusal_text, rule_text};
ghost use Rattle.xio.specs.Printing.{Prints};

use crate::piece::{Piece, print_line};
use object_load::LoadRefusal;
use xio::Printer;

/// Prints why an object gives no programs.
#[tactic(auto, unfolding(crate::specs::Texts::refusal_text))]
pub(crate) fn refusal_print<P: Printer>(printer: &mut P, refusal: LoadRefusal) -> Result<(), P::End>
    ensures { Prints P.tells P.counts (P.state printer.old) (P.state printer.new) (refusal_text refusal) result }
{
    match refusal {
        LoadRefusal::BadElf(bad) => print_rule(
            printer,
            b"elf ",
            bad.offset,
            b" E",
            u32::from(bad.rule),
        ),
        LoadRefusal::WritableData => printer.print(b"writable data"),
        LoadRefusal::NoProgram => printer.print(b"no program"),
        LoadRefusal::TooManyPrograms => printer.print(b"too many programs"),
        LoadRefusal::BadBtf(bad) => print_rule(
            printer,
            b"btf ",
            bad.offset,
            b" B",
            u32::from(bad.rule),
        ),
        LoadRefusal::BadConfig { member } => print_line(
            printer,
            &[Piece::Text(b"config "), Piece::Number(u128::from(member))],
        ),
        LoadRefusal::BadMap { index, rule } => {
            print_rule(printer, b"map ", u64::from(index), b" M", u32::from(rule))
        }
        LoadRefusal::BadInsn { program, index } => {
            print_rule(printer, b"insn ", u64::from(program), b" ", index)
        }
        LoadRefusal::BadReloc { program, index } => {
            print_rule(printer, b"reloc ", u64::from(program), b" ", index)
        }
    }
}

/// Prints a place, and a rule or another place.
fn print_rule<'a, P: Printer>(
    printer: &mut P,
    word: &'a [u8],
    place: u64,
    letter: &'a [u8],
    rule: u32,
) -> Result<(), P::End>
    ensures { Prints P.tells P.counts (P.state printer.old) (P.state printer.new) (rule_text word.now place letter.now rule) result }
{
    print_line(
        printer,
        &[
            Piece::Text(word),
            Piece::Number(u128::from(place)),
            Piece::Text(letter),
            Piece::Number(u128::from(rule)),
        ],
    )
}
