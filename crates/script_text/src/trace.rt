ghost use Rattle.std.specs.Prelude.{◌≡◌, IfOk};
ghost use Rattle.script_text.specs.Trace.{trace_line};
ghost use Rattle.xio.specs.Printing.{Prints};

use crate::piece::{Piece, print_line};
use crate::vocabulary::action_name;
use std::alloc::Global;
use xio::{Action, Bytes, OutOfMemory, Printer};

/// A packet as the trace has it: the processor that carried it, its place from 0 among that processor's packets of the
/// phase, with how many publications it was carried, its verdict with the target, and its frame at the end.
#[derive(Clone, Copy, Debug)]
pub struct TraceRow<'a> {
    pub processor: u32,
    pub place: u32,
    pub count: u32,
    pub verdict: Action,
    pub target: u32,
    pub frame: &'a [u8],
}

/// Prints the trace's line of a packet.
#[tactic(auto, unfolding(crate::specs::Trace::trace_line))]
pub fn trace_print<P: Printer>(printer: &mut P, row: &TraceRow<'_>) -> Result<(), P::End>
    ensures { Prints P.tells P.counts (P.state printer.old) (P.state printer.new)
        (trace_line row.now.processor row.now.place row.now.count row.now.verdict row.now.target row.now.frame.now) result }
{
    print_line(
        printer,
        &[
            Piece::Number(u128::from(row.processor)),
            Piece::Text(b" "),
            Piece::Number(u128::from(row.place)),
            Piece::Text(b" "),
            Piece::Number(u128::from(row.count)),
            Piece::Text(b" "),
            Piece::Text(action_name(row.verdict)),
            Piece::Text(b" "),
            Piece::Number(u128::from(row.target)),
            Piece::Text(b" "),
            Piece::Number(row.frame.len() as u128),
            Piece::Text(b" "),
            Piece::Digits(row.frame),
            Piece::Text(b"\n"),
        ],
    )
}

/// The trace's line of a packet.
pub fn trace_line(alloc: Global, row: &TraceRow<'_>) -> Result<Bytes, OutOfMemory>
    ensures { IfOk result (λ text. text ≡ trace_line row.now.processor row.now.place row.now.count row.now.verdict row.now.target row.now.frame.now) }
{
    let mut text = Bytes::new(alloc);
    trace_print(&mut text, row)?;
    Ok(text)
}
