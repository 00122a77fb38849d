ghost use Rattle.std.specs.Prelude.{◌++◌, codes};
ghost use Rattle.script_text.specs.Pieces.{listed, piece_text, line_of};
ghost use Rattle.xio.specs.Printing.{Prints};

use crate::hexadecimal::print_digits;
use crate::numbers::print_number;
use xio::Printer;

/// A piece of a printed line.
#[derive(Clone, Copy)]
pub enum Piece<'a> {
    Text(&'a [u8]),
    /// A number in decimal digits.
    Number(u128),
    /// Bytes in lower-case hexadecimal digits.
    Digits(&'a [u8]),
    /// The name of a bit, where that is set, in a list of such names with commas between.
    Listed { bits: u8, bit: u8, name: &'a [u8] },
}

/// Prints pieces, one behind the other.
pub fn print_line<P: Printer>(printer: &mut P, pieces: &[Piece<'_>]) -> Result<(), P::End>
    ensures { Prints P.tells P.counts (P.state printer.old) (P.state printer.new) (line_of pieces.now) result }
{
    for piece in pieces {
        print_piece(printer, *piece)?;
    }
    Ok(())
}

fn print_piece<P: Printer>(printer: &mut P, piece: Piece<'_>) -> Result<(), P::End>
    ensures { Prints P.tells P.counts (P.state printer.old) (P.state printer.new) (piece_text piece.entry) result }
{
    match piece {
        Piece::Text(text) => printer.print(text),
        Piece::Number(number) => print_number(printer, number),
        Piece::Digits(bytes) => print_digits(printer, bytes),
        Piece::Listed { bits, bit, name } => print_listed(printer, bits, bit, name),
    }
}

fn print_listed<P: Printer>(printer: &mut P, bits: u8, bit: u8, name: &[u8]) -> Result<(), P::End>
    ensures { Prints P.tells P.counts (P.state printer.old) (P.state printer.new) (listed bits bit name.now) result }
{
    if bits & bit == 0 {
        return Ok(());
    }
    if bits & bit.saturating_sub(1) == 0 {
        return printer.print(name);
    }
    print_further(printer, name)
}

/// Prints a name that isn't a list's first.
fn print_further<P: Printer>(printer: &mut P, name: &[u8]) -> Result<(), P::End>
    ensures { Prints P.tells P.counts (P.state printer.old) (P.state printer.new) (codes "," ++ name.now) result }
{
    printer.print(b",")?;
    printer.print(name)
}
