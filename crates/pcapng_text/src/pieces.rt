//! Bytes in pieces, one behind the other.

ghost use Rattle.std.specs.Prelude.{◌≡◌, ◌^◌, ◌<◌, length};
ghost use Rattle.pcapng_text.specs.Parts.{joined};
ghost use Rattle.xio.specs.Printing.{Prints};

use xio::Printer;

/// The number of bytes.
pub(crate) fn pieces_size(pieces: &[&[u8]]) -> usize
    requires { length (joined pieces.now) < 2 ^ 32 }
    ensures { result ≡ length (joined pieces.now) }
{
    let mut size = 0;
    for piece in pieces {
        size += piece.len();
    }
    size
}

pub(crate) fn pieces_print<P: Printer>(printer: &mut P, pieces: &[&[u8]]) -> Result<(), P::End>
    ensures { Prints P.tells P.counts (P.state printer.old) (P.state printer.new) (joined pieces.now) result }
{
    for piece in pieces {
        printer.print(piece)?;
    }
    Ok(())
}
