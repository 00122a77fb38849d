ghost use Rattle.std.specs.Prelude.{◌++◌, ℕ};
ghost use Rattle.script_text.specs.Trace.{heading, packet_trace, packets_trace, processors_trace};
ghost use Rattle.xdp_tool.specs.Trace.{end_mark, phase_trace};
ghost use Rattle.xio.specs.Printing.{Prints};

use crate::closed::Closed;
use lists::List;
use script_text::{TraceRow, trace_print};
use xdp_state::{Carried, CarriedList};
use xio::Printer;

/// Prints the trace of a phase.
#[tactic(auto, using(xio::proofs::PrintLemmas::printing))]
pub fn phase_trace_print<P: Printer>(printer: &mut P, closed: &Closed) -> Result<(), P::End>
    ensures { Prints P.tells P.counts (P.state printer.old) (P.state printer.new)
        (phase_trace closed.now.number closed.now.barrier closed.now.carried) result }
{
    heading_print(printer, closed.number)?;
    processors_print(printer, &closed.carried)?;
    end_mark_print(printer, closed.barrier)
}

#[tactic(auto, using(xio::proofs::PrintLemmas::printing))]
fn heading_print<P: Printer>(printer: &mut P, number: u32) -> Result<(), P::End>
    ensures { Prints P.tells P.counts (P.state printer.old) (P.state printer.new) (heading number) result }
{
    let mut digits = itoa::Buffer::new();
    printer.print(b"phase ")?;
    printer.print(digits.format(number).as_bytes())?;
    printer.print(b"\n")
}

/// Marks the script's end, where no barrier ends the phase.
fn end_mark_print<P: Printer>(printer: &mut P, barrier: Option<u32>) -> Result<(), P::End>
    ensures { Prints P.tells P.counts (P.state printer.old) (P.state printer.new) (end_mark barrier) result }
{
    match barrier {
        Some(_) => Ok(()),
        None => printer.print(b"end\n"),
    }
}

/// Prints the traces of the processors, one behind another.
fn processors_print<P: Printer>(printer: &mut P, carried: &List<CarriedList>) -> Result<(), P::End>
    ensures { Prints P.tells P.counts (P.state printer.old) (P.state printer.new) (processors_trace 0 carried.now) result }
{
    for processor in 0..carried.len() {
        packets_print(printer, processor, carried.at(processor))?;
    }
    Ok(())
}

/// Prints the trace of one processor's packets.
fn packets_print<P: Printer>(
    printer: &mut P,
    processor: u32,
    packets: &CarriedList,
) -> Result<(), P::End>
    ensures { Prints P.tells P.counts (P.state printer.old) (P.state printer.new) (packets_trace processor 0 packets.now) result }
{
    for place in 0..packets.len() {
        packet_print(printer, processor, place, packets.at(place))?;
    }
    Ok(())
}

/// Prints the line of the packet at this place.
fn packet_print<P: Printer>(
    printer: &mut P,
    processor: u32,
    place: u32,
    packet: &Carried,
) -> Result<(), P::End>
    ensures { Prints P.tells P.counts (P.state printer.old) (P.state printer.new) (packet_trace processor place packet.now) result }
{
    let way = &packet.traversal;
    let row = TraceRow {
        processor,
        place,
        count: packet.count,
        verdict: way.verdict,
        target: way.target,
        frame: way.frame.as_slice(),
    };
    trace_print(printer, &row)
}
