//! Options of a block that is written.

ghost use Rattle.std.specs.Prelude.{◌≡◌, ◌+◌, ◌<◌, ◌≤◌, ◌^◌, ◌++◌, length};
ghost use Rattle.pcapng_text.specs.Options as option;
ghost use Rattle.pcapng_text.specs.Parts.{joined};
ghost use Rattle.pcapng_text.specs.Written as written;
ghost use Rattle.xio.specs.Printing.{Prints};

use crate::options::padded;
use crate::pieces::{pieces_print, pieces_size};
use xio::{Action, Printer};

const OPT_COMMENT: u16 = 1;

const EPB_VERDICT: u16 = 7;

/// The kind of a verdict that is an action of XDP on Linux.
const XDP_ACTION: u8 = 2;

/// The zeros that pad so many bytes to 32 bits.
#[tactic(auto, unfolding(crate::specs::Written::padding))]
pub(crate) fn padding(size: usize) -> &'static [u8]
    requires { size < 2 ^ 32 }
    ensures { result.now ≡ written.padding size }
{
    &[0, 0, 0][..padded(size) - size]
}

fn head_print<P: Printer>(printer: &mut P, code: u16, size: u16) -> Result<(), P::End>
    ensures { Prints P.tells P.counts (P.state printer.old) (P.state printer.new) (written.u16_bytes code ++ written.u16_bytes size) result }
{
    printer.print(&code.to_le_bytes())?;
    printer.print(&size.to_le_bytes())
}

/// Prints an option with a value in pieces.
#[tactic(auto, unfolding(crate::specs::Written::option_bytes))]
pub(crate) fn option_print<P: Printer>(
    printer: &mut P,
    code: u16,
    value: &[&[u8]],
) -> Result<(), P::End>
    requires { length (joined value.now) < 2 ^ 16 }
    ensures { Prints P.tells P.counts (P.state printer.old) (P.state printer.new) (written.option_bytes code (joined value.now)) result }
{
    let size = pieces_size(value);
    head_print(printer, code, size as u16)?;
    pieces_print(printer, value)?;
    printer.print(padding(size))
}

/// The length of an option with a value of so many bytes.
pub(crate) fn option_size(value: usize) -> usize
    requires { value < 2 ^ 32 }
    ensures { result ≡ 4 + option.padded value }
{
    4 + padded(value)
}

/// Prints the number of publications, as a comment.
pub(crate) fn publications_print<P: Printer>(printer: &mut P, count: u32) -> Result<(), P::End>
    ensures { Prints P.tells P.counts (P.state printer.old) (P.state printer.new) (written.option_bytes 1 (written.comment count)) result }
{
    let mut digits = itoa::Buffer::new();
    let digits = digits.format(count).as_bytes();
    option_print(printer, OPT_COMMENT, &[b"publication=", digits])
}

/// The length of that comment.
pub(crate) fn comment_size(count: u32) -> usize
    ensures value { result ≡ length (written.comment count) }
    ensures short { result < 2 ^ 16 }
{
    let mut digits = itoa::Buffer::new();
    12 + digits.format(count).len()
}

pub(crate) fn verdict_print<P: Printer>(printer: &mut P, action: Action) -> Result<(), P::End>
    ensures { Prints P.tells P.counts (P.state printer.old) (P.state printer.new) (written.action_option action) result }
{
    let number = u64::from(action.number());
    option_print(
        printer,
        EPB_VERDICT,
        &[&[XDP_ACTION], &number.to_le_bytes()],
    )
}
