ghost use Rattle.std.specs.Prelude.{◌≡◌, true, IfOk, OnOk, OnErr};
ghost use Rattle.xdp_state.specs.Work.{needs_of};

use lists::OutOfMemory;
use std::alloc::Global;
use std::marker::Model;
use xdp_state::{CountList, HandIn, HandInList};

/// A processor in the phase under way: the packets that it was handed, and the counts of those that it carried.
#[derive(Debug, Drop)]
pub struct Lane {
    hand_ins: HandInList,
    counts: CountList,
}

impl Model for Lane {
    ghost use Rattle.interleave_core.specs.LaneView.{traffic_of, IsCounted};
    ghost use Rattle.interleave_core.specs.Traffic.{Traffic};

    ghost Value = { Traffic };

    ghost view = { traffic_of };

    ghost invariant = { IsCounted };
}

impl Lane {
    ghost use Rattle.interleave_core.specs.Traffic.{idle, waits, with_count, with_packet};

    /// Nothing yet.
    pub fn new(alloc: Global) -> Self
        ensures { result ≡ idle }
    {
        Lane {
            hand_ins: HandInList::new(alloc),
            counts: CountList::new(alloc),
        }
    }

    /// Whether a packet waits in the queue.
    pub fn waits(&self) -> bool
        ensures { result ≡ waits self.now }
    {
        self.counts.len() < self.hand_ins.len()
    }

    /// Puts a packet at the end of the queue.
    pub fn hand_in(&mut self, hand_in: HandIn) -> Result<(), OutOfMemory>
        ensures ok { OnOk result (self.new ≡ with_packet hand_in self.old) }
        ensures err { OnErr result (self.new ≡ self.old) }
    {
        self.hand_ins.push(hand_in)
    }

    /// Takes the first packet from the queue, which is carried with this count.
    pub fn carry(&mut self, count: u32) -> Result<(), OutOfMemory>
        requires { waits self.old ≡ true }
        ensures ok { OnOk result (self.new ≡ with_count count self.old) }
        ensures err { OnErr result (self.new ≡ self.old) }
    {
        self.counts.push(count)
    }

    /// The needs of all packets that were handed in.
    pub fn needs(&self, alloc: Global) -> Result<CountList, OutOfMemory>
        ensures { IfOk result (λ needs. needs ≡ needs_of self.now.handed) }
    {
        copy_needs(alloc, self.hand_ins.as_slice())
    }

    /// A copy of the counts.
    pub fn counts(&self, alloc: Global) -> Result<CountList, OutOfMemory>
        ensures { IfOk result (λ counts. counts ≡ self.now.counts) }
    {
        copy_counts(alloc, self.counts.as_slice())
    }
}

fn copy_needs(alloc: Global, hand_ins: &[HandIn]) -> Result<CountList, OutOfMemory>
    ensures { IfOk result (λ needs. needs ≡ needs_of hand_ins.now) }
{
    let mut needs = CountList::new(alloc);
    for hand_in in hand_ins {
        needs.push(hand_in.need)?;
    }
    Ok(needs)
}

fn copy_counts(alloc: Global, counts: &[u32]) -> Result<CountList, OutOfMemory>
    ensures { IfOk result (λ copy. copy ≡ counts.now) }
{
    let mut copy = CountList::new(alloc);
    for count in counts {
        copy.push(*count)?;
    }
    Ok(copy)
}
