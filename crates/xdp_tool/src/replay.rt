ghost use Rattle.std.specs.Prelude.{◌≡◌, ◌<◌, ◌≤◌, ◌^◌, ◌==◌, ℕ, Bool, true, List, [], ◌∷◌, length, drop, slice_index_or, IfOk, OnOk};
ghost use Rattle.std.specs.List.{count_by};
ghost use Rattle.script_text.specs.Trace.{first_line, heading, last_line, packet_trace};
ghost use Rattle.xdp_state.specs.Legal.{lasts_of};
ghost use Rattle.xdp_state.specs.Work.{all_needs};
ghost use Rattle.xdp_tool.specs.Replay.{are_whole, compared, end_lines, fronts_from, line_of_rest, packets_lines, phase_lines, processors_lines};

use crate::fronts::{Fronts, fronts_of};
use lists::List;
use script_text::{TraceRow, trace_line};
use std::alloc::Global;
use xdp_state::{Carried, CarriedList, Choices, CountList, HandInList};
use xio::{Bytes, OutOfMemory};

/// The first line of a trace.
const FIRST_LINE: &[u8] = b"xdptrace 1\n";

/// A trace that was read: its text, and by phase the counts of eight processors.
#[derive(Debug, Drop)]
pub struct Trace {
    pub text: Bytes,
    pub choices: Choices,
}

/// A trace that is replayed, as far as its phases are covered.
#[derive(Debug, Drop)]
pub struct Replay<'a> {
    pub trace: &'a Trace,
    /// by processor the last count in the phases before
    pub lasts: CountList,
    /// what is left of the text
    pub rest: &'a [u8],
}

impl<'a> Replay<'a> {
    /// Before the first phase.
    pub fn new(alloc: Global, trace: &'a Trace) -> Self
        ensures trace { result.trace.now ≡ trace.now }
        ensures lasts { result.lasts ≡ [] }
        ensures rest { result.rest.now ≡ drop (length first_line) trace.now.text }
    {
        let text = trace.text.as_slice();
        let rest = if text.len() < FIRST_LINE.len() {
            &text[text.len()..]
        } else {
            &text[FIRST_LINE.len()..]
        };
        Replay {
            trace,
            lasts: CountList::new(alloc),
            rest,
        }
    }

    /// The number of the line from which on the text is left.
    pub fn line(&self) -> u32
        requires { length self.now.trace.now.text < 2 ^ 31 }
        ensures { result ≡ line_of_rest self.now.trace.now.text self.now.rest.now }
    {
        let text = self.trace.text.as_slice();
        let place = text.len().saturating_sub(self.rest.len());
        1 + feeds_in(&text[..place])
    }

    /// The counts that the trace has for the packets of the phase of this number, as far as they are legal.
    pub fn fronts(
        &self,
        alloc: Global,
        number: u32,
        published: u32,
        hand_ins: &[HandInList],
    ) -> Result<Fronts, OutOfMemory>
        ensures counts { IfOk result (λ fronts. fronts.counts ≡ fronts_from true self.now.lasts published (all_needs hand_ins.now)
            (slice_index_or self.now.trace.now.choices number [])) }
        ensures whole { IfOk result (λ fronts. fronts.whole ≡ are_whole (all_needs hand_ins.now) fronts.counts) }
    {
        let choices = &self.trace.choices;
        let counts = if number < choices.len() {
            choices.at(number).as_slice()
        } else {
            &[]
        };
        fronts_of(alloc, self.lasts.as_slice(), published, hand_ins, counts)
    }

    /// Whether the text goes on with the lines of a phase, of which these packets were carried; it is left from the first line on
    /// that differs.
    pub fn passes_phase(
        &mut self,
        alloc: Global,
        number: u32,
        whole: bool,
        barrier: Option<u32>,
        carried: &List<CarriedList>,
    ) -> Result<bool, OutOfMemory>
        ensures lines { IfOk result (λ same. compared (phase_lines number whole barrier carried.now) self.old.rest.now
            ≡ record { rest = self.new.rest.now; same = same }) }
        ensures same_trace { self.new.trace.now ≡ self.old.trace.now }
        ensures same_lasts { self.new.lasts ≡ self.old.lasts }
    {
        let heading = format!(in alloc; "phase {number}\n")?;
        if !self.passes(heading.as_bytes()) {
            return Ok(false);
        }
        if !self.passes_processors(alloc, carried)? {
            return Ok(false);
        }
        Ok(self.passes_end(whole, barrier))
    }

    /// The same of the script's end.
    fn passes_end(&mut self, whole: bool, barrier: Option<u32>) -> bool
        ensures lines { compared (end_lines whole barrier) self.old.rest.now ≡ record { rest = self.new.rest.now; same = result } }
        ensures same_trace { self.new.trace.now ≡ self.old.trace.now }
        ensures same_lasts { self.new.lasts ≡ self.old.lasts }
    {
        if !whole || barrier.is_some() {
            return true;
        }
        self.passes(b"end\n")
    }

    /// The same of the packets of the processors, one behind another.
    fn passes_processors(
        &mut self,
        alloc: Global,
        carried: &List<CarriedList>,
    ) -> Result<bool, OutOfMemory>
        ensures lines { IfOk result (λ same. compared (processors_lines 0 carried.now) self.old.rest.now
            ≡ record { rest = self.new.rest.now; same = same }) }
        ensures same_trace { self.new.trace.now ≡ self.old.trace.now }
        ensures same_lasts { self.new.lasts ≡ self.old.lasts }
    {
        for processor in 0..carried.len() {
            if !self.passes_packets(alloc, processor, carried.at(processor))? {
                return Ok(false);
            }
        }
        Ok(true)
    }

    /// The same of one processor's packets.
    fn passes_packets(
        &mut self,
        alloc: Global,
        processor: u32,
        packets: &CarriedList,
    ) -> Result<bool, OutOfMemory>
        ensures lines { IfOk result (λ same. compared (packets_lines processor 0 packets.now) self.old.rest.now
            ≡ record { rest = self.new.rest.now; same = same }) }
        ensures same_trace { self.new.trace.now ≡ self.old.trace.now }
        ensures same_lasts { self.new.lasts ≡ self.old.lasts }
    {
        for place in 0..packets.len() {
            let line = line_of(alloc, processor, place, packets.at(place))?;
            if !self.passes(line.as_slice()) {
                return Ok(false);
            }
        }
        Ok(true)
    }

    /// Whether the text goes on with this line; then it is left behind the line.
    fn passes(&mut self, line: &[u8]) -> bool
        ensures line { compared (line.now ∷ []) self.old.rest.now ≡ record { rest = self.new.rest.now; same = result } }
        ensures same_trace { self.new.trace.now ≡ self.old.trace.now }
        ensures same_lasts { self.new.lasts ≡ self.old.lasts }
    {
        if !self.rest.starts_with(line) {
            return false;
        }
        self.rest = &self.rest[line.len()..];
        true
    }
}

/// How many line feeds there are.
#[tactic(auto, using(crate::proofs::Comparing::feeds))]
fn feeds_in(text: &[u8]) -> u32
    requires { length text.now < 2 ^ 31 }
    ensures feeds { result ≡ count_by (λ b. b == 10) text.now }
    ensures most { result ≤ length text.now }
{
    text.iter().filter(|b| **b == b'\n').count() as u32
}

/// The trace's line of the packet at this place.
fn line_of(
    alloc: Global,
    processor: u32,
    place: u32,
    packet: &Carried,
) -> Result<Bytes, OutOfMemory>
    ensures { IfOk result (λ line. line ≡ packet_trace processor place packet.now) }
{
    let way = &packet.traversal;
    let row = TraceRow {
        processor,
        place,
        count: packet.count,
        verdict: way.verdict,
        target: way.target,
        frame: way.frame.as_slice(),
    };
    trace_line(alloc, &row)
}
