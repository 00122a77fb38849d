ghost use Rattle.std.specs.Prelude.{◌≡◌, ◌+◌, ◌%◌, ◌^◌, ◌<◌, ◌≤◌, length, [], IsTrue, is_ok, IfOk, OnOk, IfSome, OnSome, Ok, Err, None, true};
ghost use Rattle.pcapng_text.specs.declared.block_end.BlockEnd.TheVariants.{ReadFault};
ghost use Rattle.pcapng_text.specs.Packet.{IsFrameSize};
ghost use Rattle.pcapng_text.specs.Reading.{at_start, block_step, has_ended, reading, step, Finishes, HasBlockCause, HasFrameSize, IsFurther, NamesLimit, Reader, Reads, Starts, Steps, StopsBefore, StopsInBlock, TakesUpTo};

use crate::advance::Advance;
use crate::block::take_block;
use crate::block_end::BlockEnd;
use crate::buffer::Buffer;
use crate::endian::Endian;
use crate::incoming::Incoming;
use crate::progress::Progress;
use crate::refusal::Refusal;
use crate::rule::Rule;
use crate::start::{START_SIZE, Start, read_start};
use lists::{List, OutOfMemory};
use std::alloc::Global;
use std::marker::Model;
use xio::Source;

/// The blocks of a capture, read from a source one after the other.
#[derive(Drop)]
pub struct Blocks {
    alloc: Global,
    limit: u64,
    is_live: bool,
    progress: Progress,
    buffer: Buffer,
}

impl Model for Blocks {
    ghost Value = { Reader };

    ghost view = { λ blocks. record {
      limit = blocks.limit;
      is_live = blocks.is_live;
      progress = blocks.progress;
    } };

    ghost invariant = { λ blocks. blocks.progress.place ≤ blocks.limit };
}

/// Whether the input ended behind a block, by the bytes that came of the next one.
#[tactic(auto, unfolding(crate::specs::Reading::has_ended))]
fn has_ended(place: u64, head: &[u8]) -> bool
    ensures { result ≡ has_ended place head.now }
{
    place > 0 && head.is_empty()
}

/// How the next block begins, by its first bytes.
fn next_start(limit: u64, progress: &Progress, head: &[u8]) -> Result<Start, BlockEnd>
    requires { progress.now.place ≤ limit }
    ensures start { Starts limit progress.now head.now result }
    ensures within { IfOk result (λ start. progress.now.place + start.size ≤ limit) }
    ensures some { IfOk result (λ start. 12 ≤ start.size) }
    ensures even { IfOk result (λ start. start.size % 4 ≡ 0) }
{
    let offset = progress.place;
    match read_start(offset, progress.endian, head) {
        Err(rule) => Err(BlockEnd::BadCapture { offset, rule }),
        Ok(start) if u64::from(start.size) > limit - offset => Err(BlockEnd::TooLarge { limit }),
        Ok(start) => Ok(start),
    }
}

/// Takes the block that begins so, of which these bytes came.
#[tactic(auto, unfolding(crate::specs::Reading::block_step))]
fn finish_block(
    alloc: Global,
    progress: &mut Progress,
    start: Start,
    block: &[u8],
) -> Result<Advance, Refusal>
    requires within { progress.old.place + start.size < 2 ^ 64 }
    requires size { length block.now ≤ start.size }
    requires some { 12 ≤ start.size }
    requires even { start.size % 4 ≡ 0 }
    ensures sized { IfOk result HasFrameSize }
    ensures step { Finishes (block_step progress.old start.endian start.size block.now) progress.old.place progress.new result }
    ensures whole { OnOk result (length block.now ≡ start.size) }
    ensures place { OnOk result (progress.new.place ≡ progress.old.place + start.size) }
    ensures within { progress.new.place ≤ progress.old.place + start.size }
{
    if block.len() < start.size as usize {
        return Err(Refusal::Broken(Rule::CutBlock));
    }
    progress.place += u64::from(start.size);
    progress.endian = start.endian;
    match take_block(alloc, start.endian, &mut progress.interfaces, block) {
        Ok(None) => Ok(Advance::Skipped),
        Ok(Some(packet)) => Ok(Advance::Packet(packet)),
        Err(refusal) => Err(refusal),
    }
}

/// Takes the next block of a source. No byte of it is asked for before the blocks in front of it are known to be good.
fn next_block<S: Source>(
    alloc: Global,
    limit: u64,
    progress: &mut Progress,
    buffer: &mut Buffer,
    source: &mut S,
) -> Result<Advance, BlockEnd>
    requires { progress.old.place ≤ limit }
    ensures step { IsTrue S.tells → Steps (step limit progress.old (S.rest source.old)) progress.new result }
    ensures taken { IsTrue S.tells → OnOk result (TakesUpTo progress.old.place progress.new.place (S.rest source.old) (S.rest source.new)) }
    ensures end { IsTrue S.tells → result ≡ Ok Advance.End → S.rest source.new ≡ [] }
    ensures fault { IsTrue S.tells → result ≡ Err ReadFault → StopsInBlock progress.old (step limit progress.old (S.rest source.old)) (S.rest source.old) (S.rest source.new) }
    ensures further { IfOk result (λ advance. IsFurther progress.old progress.new advance) }
    ensures sized { IfOk result HasFrameSize }
    ensures within { progress.new.place ≤ limit }
    ensures limit_named { NamesLimit limit result }
    ensures cause { HasBlockCause (S.faults source.old) (S.faults source.new) result }
    ensures same_setting { S.setting source.new ≡ S.setting source.old }
{
    buffer.clear();
    buffer.fill(source, START_SIZE)?;
    if has_ended(progress.place, buffer.as_slice()) {
        return Ok(Advance::End);
    }
    let start = next_start(limit, progress, buffer.as_slice())?;
    buffer.fill(source, start.size as usize)?;
    let offset = progress.place;
    match finish_block(alloc, progress, start, buffer.as_slice()) {
        Ok(advance) => Ok(advance),
        Err(Refusal::Broken(rule)) => Err(BlockEnd::BadCapture { offset, rule }),
        Err(Refusal::OutOfMemory) => Err(BlockEnd::OutOfMemory),
    }
}

/// Takes blocks of a source up to a packet.
fn next_packet<S: Source>(
    alloc: Global,
    limit: u64,
    progress: &mut Progress,
    buffer: &mut Buffer,
    source: &mut S,
) -> Result<Option<Incoming>, BlockEnd>
    requires { progress.old.place ≤ limit }
    ensures packet { IsTrue S.tells → Reads (reading limit progress.old (S.rest source.old)) (reading limit progress.new (S.rest source.new)) progress.new.place result }
    ensures taken { IsTrue S.tells → OnOk result (TakesUpTo progress.old.place progress.new.place (S.rest source.old) (S.rest source.new)) }
    ensures end { IsTrue S.tells → result ≡ Ok None → S.rest source.new ≡ [] }
    ensures fault { IsTrue S.tells → result ≡ Err ReadFault → StopsBefore (reading limit progress.old (S.rest source.old)).packets progress.old (S.rest source.old) (S.rest source.new) }
    ensures further { IfOk result (λ packet. OnSome packet (progress.old.place < progress.new.place)) }
    ensures sized { IfOk result (λ packet. IfSome packet (λ packet. IsFrameSize (length packet.frame))) }
    ensures within { progress.new.place ≤ limit }
    ensures limit_named { NamesLimit limit result }
    ensures cause { HasBlockCause (S.faults source.old) (S.faults source.new) result }
    ensures same_setting { S.setting source.new ≡ S.setting source.old }
{
    loop {
        match next_block(alloc, limit, progress, buffer, source) {
            Ok(Advance::Skipped) => {}
            Ok(Advance::End) => return Ok(None),
            Ok(Advance::Packet(packet)) => return Ok(Some(packet)),
            Err(end) => return Err(end),
        }
    }
}

impl Blocks {
    /// Reads a capture of at most `limit` bytes from its first byte on.
    pub fn new(alloc: Global, limit: u64) -> Result<Self, OutOfMemory>
        ensures { IfOk result (λ blocks. blocks ≡ record { limit = limit; is_live = true; progress = at_start }) }
    {
        Ok(Blocks {
            alloc,
            limit,
            is_live: true,
            progress: Progress {
                place: 0,
                endian: Endian::Little,
                interfaces: List::new(alloc),
            },
            buffer: Buffer::new(alloc)?,
        })
    }

    /// Whether `next` may be asked: no answer of it was an error.
    pub fn is_live(&self) -> bool
        ensures { result ≡ self.now.is_live }
    {
        self.is_live
    }

    /// The next packet, or `None` where the input ends behind a block.
    pub fn next<S: Source>(&mut self, source: &mut S) -> Result<Option<Incoming>, BlockEnd>
        requires { IsTrue self.old.is_live }
        ensures packet { IsTrue S.tells → Reads (reading self.old.limit self.old.progress (S.rest source.old)) (reading self.old.limit self.new.progress (S.rest source.new)) self.new.progress.place result }
        ensures taken { IsTrue S.tells → OnOk result (TakesUpTo self.old.progress.place self.new.progress.place (S.rest source.old) (S.rest source.new)) }
        ensures end { IsTrue S.tells → result ≡ Ok None → S.rest source.new ≡ [] }
        ensures fault { IsTrue S.tells → result ≡ Err ReadFault → StopsBefore (reading self.old.limit self.old.progress (S.rest source.old)).packets self.old.progress (S.rest source.old) (S.rest source.new) }
        ensures further { IfOk result (λ packet. OnSome packet (self.old.progress.place < self.new.progress.place)) }
        ensures sized { IfOk result (λ packet. IfSome packet (λ packet. IsFrameSize (length packet.frame))) }
        ensures within { OnOk result (self.new.progress.place ≤ self.new.limit) }
        ensures live { self.new.is_live ≡ is_ok result }
        ensures same_limit { self.new.limit ≡ self.old.limit }
        ensures limit_named { NamesLimit self.old.limit result }
        ensures cause { HasBlockCause (S.faults source.old) (S.faults source.new) result }
        ensures same_setting { S.setting source.new ≡ S.setting source.old }
    {
        self.is_live = false;
        match next_packet(
            self.alloc,
            self.limit,
            &mut self.progress,
            &mut self.buffer,
            source,
        ) {
            Ok(packet) => {
                self.is_live = true;
                Ok(packet)
            }
            Err(end) => Err(end),
        }
    }
}
