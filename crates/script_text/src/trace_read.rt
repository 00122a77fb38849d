ghost use Rattle.std.specs.Prelude.{◌≡◌, ◌++◌, length, replicate, [], IfOk, OnOk};
ghost use Rattle.script_text.specs.Readings.{found};
ghost use Rattle.script_text.specs.TraceRead.{LeadsTrace, ReadsTrace, at_end, counted_on, counts_of, is_next, last_phase, no_counts, phases_in, read_from, trace_read, with_line, with_phase};
ghost use Rattle.script_text.specs.Words.{parts_of};
ghost use Rattle.script_text.specs.declared.trace_read.TraceEnd.TheVariants as end;

use crate::parts::{Part, first_part};
use crate::trace_row::{CountRow, is_heading, row_of};
use std::alloc::Global;
use xdp_state::{Choices, CountList, NeedsList};
use xio::OutOfMemory;

/// The processors that each phase of a trace has.
const PROCESSORS: usize = 8;

/// Why a trace isn't read: a line, from 1, that can't stand there.
#[derive(Clone, Copy, Debug, PartialEq, Eq)]
pub enum TraceEnd {
    BadTrace { line: u32 },
    OutOfMemory,
}

impl From<OutOfMemory> for TraceEnd {
    ghost from_gives = { λ _ e. e ≡ end.OutOfMemory };

    fn from(_: OutOfMemory) -> Self {
        TraceEnd::OutOfMemory
    }
}

/// The counts of a trace, as far as its lines are read.
#[derive(Drop)]
pub struct Reading {
    /// of the phases before the last one
    pub ended: Choices,
    /// of the last phase, by processor; of no processor before the first heading
    pub last: Vec<CountList>,
    /// that of the last packet, and 0 behind a heading
    pub processor: u32,
}

/// The counts of a trace's packets, of eight processors in each phase. A trace outside the grammar ends with the first line that
/// can't stand there; where the last line is missing, that is the one behind the last.
#[tactic(auto, unfolding(crate::specs::TraceRead::trace_read))]
pub fn read_trace(alloc: Global, bytes: &[u8]) -> Result<Choices, TraceEnd>
    ensures { ReadsTrace result (trace_read bytes.now) }
{
    let Part {
        part: first,
        behind,
    } = first_part(bytes, b'\n');
    let Some(behind) = behind else {
        return Err(TraceEnd::BadTrace { line: 1 });
    };
    if first != b"xdptrace 1".as_slice() {
        return Err(TraceEnd::BadTrace { line: 1 });
    }
    read_lines(alloc, behind)
}

/// Reads the lines behind the first one.
fn read_lines(alloc: Global, lines: &[u8]) -> Result<Choices, TraceEnd>
    ensures { ReadsTrace result (read_from no_counts 2 (parts_of 10 lines.now)) }
{
    let mut read = Reading {
        ended: Choices::new(alloc),
        last: Vec::new(alloc),
        processor: 0,
    };
    let mut line = 2;
    let mut rest = lines;
    'lines: loop {
        let Part { part, behind } = first_part(rest, b'\n');
        let Some(behind) = behind else {
            return Err(TraceEnd::BadTrace { line });
        };
        if line == u32::MAX {
            return Err(TraceEnd::OutOfMemory);
        }
        if part == b"end".as_slice() {
            return end_at(alloc, read, line + 1, behind);
        }
        match read_line(alloc, &mut read, line, part) {
            Ok(()) => {}
            Err(TraceEnd::BadTrace { line }) => return Err(TraceEnd::BadTrace { line }),
            Err(TraceEnd::OutOfMemory) => return Err(TraceEnd::OutOfMemory),
        }
        line += 1;
        rest = behind;
    }
}

/// Ends the reading where nothing stands behind the last line; the line of this number would.
#[tactic(auto, using(crate::proofs::TraceLemmas::behind))]
fn end_at(alloc: Global, read: Reading, line: u32, behind: &[u8]) -> Result<Choices, TraceEnd>
    ensures { ReadsTrace result (at_end (counts_of read) line (parts_of 10 behind.now)) }
{
    if !behind.is_empty() {
        return Err(TraceEnd::BadTrace { line });
    }
    let Reading {
        mut ended,
        last,
        ..
    } = read;
    match end_phase(alloc, &mut ended, last) {
        Ok(()) => Ok(ended),
        Err(_) => Err(TraceEnd::OutOfMemory),
    }
}

/// Reads the line of this number, which is neither the first nor the last.
#[tactic(auto, unfolding(crate::specs::TraceRead::with_line))]
fn read_line(alloc: Global, read: &mut Reading, line: u32, text: &[u8]) -> Result<(), TraceEnd>
    ensures { LeadsTrace result read.new (found line (with_line (counts_of read.old) text.now)) }
{
    if is_heading(phases_begun(read), text) {
        begin_phase(alloc, read)?;
        return Ok(());
    }
    let Some(row) = row_of(text) else {
        return Err(TraceEnd::BadTrace { line });
    };
    if !is_next(read.processor, &read.last, &row) {
        return Err(TraceEnd::BadTrace { line });
    }
    count_on(&mut read.last, row.processor, row.count)?;
    read.processor = row.processor;
    Ok(())
}

/// How many phases have begun.
#[tactic(auto, using(crate::proofs::TraceLemmas::phases))]
fn phases_begun(read: &Reading) -> u64
    ensures { result ≡ length (phases_in (counts_of read.now)) }
{
    let ended = u64::from(read.ended.len());
    if read.last.is_empty() {
        ended
    } else {
        ended + 1
    }
}

/// Whether a packet's line may stand behind those of the last phase, of which the last packet is one of this processor.
fn is_next(processor: u32, last: &[CountList], row: &CountRow) -> bool
    ensures { result ≡ is_next processor last.now row.now }
{
    if row.processor < processor {
        return false;
    }
    match last.get(row.processor as usize) {
        Some(counts) => counts.len() == row.place,
        None => false,
    }
}

/// Puts a count behind those of a processor.
fn count_on(counts: &mut Vec<CountList>, processor: u32, count: u32) -> Result<(), OutOfMemory>
    ensures { OnOk result (counts.new.items ≡ counted_on processor count counts.old.items) }
{
    let place = processor as usize;
    if place >= counts.len() {
        return Ok(());
    }
    counts[place].push(count)
}

/// Begins the next phase.
fn begin_phase(alloc: Global, read: &mut Reading) -> Result<(), OutOfMemory>
    ensures { OnOk result (counts_of read.new ≡ with_phase (counts_of read.old)) }
{
    let next = no_packets(alloc)?;
    let last = std::mem::replace(&mut read.last, next);
    read.processor = 0;
    end_phase(alloc, &mut read.ended, last)
}

/// No packet of eight processors.
fn no_packets(alloc: Global) -> Result<Vec<CountList>, OutOfMemory>
    ensures { IfOk result (λ counts. counts.items ≡ replicate 8 []) }
{
    let mut counts = Vec::new(alloc);
    for _ in 0..PROCESSORS {
        counts.push(CountList::new(alloc))?;
    }
    Ok(counts)
}

/// Puts the counts of the last phase behind those of the phases before it, where a phase has begun.
#[tactic(auto, using(crate::proofs::TraceLemmas::lasts))]
fn end_phase(alloc: Global, ended: &mut Choices, last: Vec<CountList>) -> Result<(), OutOfMemory>
    ensures { OnOk result (ended.new ≡ ended.old ++ last_phase last.items) }
{
    if last.is_empty() {
        return Ok(());
    }
    ended.push(list_of(alloc, last)?)
}

/// The counts of the processors as a list.
fn list_of(alloc: Global, mut counts: Vec<CountList>) -> Result<NeedsList, OutOfMemory>
    ensures { IfOk result (λ list. list ≡ counts.items) }
{
    let mut list = NeedsList::new(alloc);
    for place in 0..counts.len() {
        list.push(std::mem::replace(&mut counts[place], CountList::new(alloc)))?;
    }
    Ok(list)
}
