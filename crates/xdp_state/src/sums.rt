ghost use Rattle.std.specs.Prelude.{◌≡◌, ◌<◌, List, [], ◌++◌, length, map, replicate, slice_get, Some, vec_len, IfOk, OnOk};
ghost use Rattle.xdp_state.specs.Sums.{Counted, Past, counted, sums_of, no_past, past_with, joined, packets_of, tally_of};
ghost use Rattle.xdp_state.specs.declared.carried.Carried.{Carried};

use crate::carried::{Carried, CarriedList};
use crate::tally::Tally;
use std::alloc::Global;
use std::marker::Model;
use xio::OutOfMemory;

/// The sums over the packets of the phases that have ended: by processor, and over all of them, with the last phase apart,
/// since a table in its text shows those before it.
#[derive(Debug, Drop)]
pub struct Sums {
    by_processor: Vec<Tally>,
    before: Tally,
    latest: Tally,
}

impl Model for Sums {
    ghost use Rattle.xdp_state.specs.RunSums.{RunSums};
    ghost use Rattle.xdp_state.specs.SumsView.{view_of};

    ghost Value = { RunSums };

    ghost view = { view_of };
}

impl Sums {
    /// No packets, of so many processors.
    pub fn new(alloc: Global, processors: u32) -> Result<Self, OutOfMemory>
        ensures { IfOk result (λ sums. sums ≡ sums_of (no_past processors) []) }
    {
        Ok(Sums {
            by_processor: no_tallies(alloc, processors)?,
            before: Tally::new(alloc),
            latest: Tally::new(alloc),
        })
    }

    /// How many processors there are.
    pub fn processors(&self) -> usize
        ensures { result ≡ length self.now.by_processor }
    {
        self.by_processor.len()
    }

    /// The sums of one processor.
    pub fn of(&self, processor: usize) -> &Tally
        requires { processor < length self.now.by_processor }
        ensures { slice_get self.now.by_processor processor ≡ Some result.now }
    {
        &self.by_processor[processor]
    }

    /// The sums of all processors over the phases before the one that was added last.
    pub fn before(&self) -> &Tally
        ensures { result.now ≡ self.now.before }
    {
        &self.before
    }

    /// Adds what the processors carried in a phase, in the time of its packets and of those of the phase before; there is a
    /// list for each processor. Where memory is wanting a part may have been added.
    pub fn add(&mut self, alloc: Global, carried: &[CarriedList]) -> Result<(), OutOfMemory>
        ensures sums { (past : Past) (last : List (List Carried)) → self.old ≡ sums_of past last
            → OnOk result (self.new ≡ sums_of (past_with past last) carried.now) }
        ensures processors { length self.new.by_processor ≡ length self.old.by_processor }
    {
        self.before.merge(&self.latest)?;
        self.latest = sum_of(alloc, carried)?;
        add_by_processor(&mut self.by_processor, carried)
    }
}

fn no_tallies(alloc: Global, processors: u32) -> Result<Vec<Tally>, OutOfMemory>
    ensures { IfOk result (λ tallies. tallies.items ≡ map tally_of (replicate processors [])) }
{
    let mut tallies = Vec::new(alloc);
    for _ in 0..processors {
        tallies.push(Tally::new(alloc))?;
    }
    Ok(tallies)
}

/// Adds each processor's packets to its own sums.
fn add_by_processor(tallies: &mut Vec<Tally>, carried: &[CarriedList]) -> Result<(), OutOfMemory>
    ensures sums { (before : List (List Counted)) → tallies.old.items ≡ map tally_of before
        → OnOk result (tallies.new.items ≡ map tally_of (joined before carried.now)) }
    ensures processors { vec_len tallies.new ≡ vec_len tallies.old }
{
    for (processor, packets) in carried.iter().enumerate() {
        if processor < tallies.len() {
            add_packets(&mut tallies[processor], packets.as_slice())?;
        }
    }
    Ok(())
}

/// The sums over the packets of all processors.
fn sum_of(alloc: Global, carried: &[CarriedList]) -> Result<Tally, OutOfMemory>
    ensures { IfOk result (λ tally. tally ≡ tally_of (packets_of carried.now)) }
{
    let mut tally = Tally::new(alloc);
    for packets in carried {
        add_packets(&mut tally, packets.as_slice())?;
    }
    Ok(tally)
}

fn add_packets(tally: &mut Tally, packets: &[Carried]) -> Result<(), OutOfMemory>
    ensures { (before : List Counted) → tally.old ≡ tally_of before
        → OnOk result (tally.new ≡ tally_of (before ++ map counted packets.now)) }
{
    for packet in packets {
        let way = &packet.traversal;
        tally.add(way.visits.as_slice(), way.verdict, u64::from(packet.handed))?;
    }
    Ok(())
}
