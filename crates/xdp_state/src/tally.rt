ghost use Rattle.std.specs.Prelude.{◌≡◌, ℕ, ◌+◌, ◌<◌, ◌==◌, List, [], ◌∷◌, ◌++◌, slice_index, length, if◌then◌else◌, OnOk, OnErr};
ghost use Rattle.xdp_state.specs.Capped.{capped};

use crate::hits::HitList;
use crate::traversal::Visit;
use std::alloc::Global;
use xio::{Action, OutOfMemory};

/// Hits by row number, and packets by verdict with their bytes as they were handed in, by the action's number. A sum
/// stops at 2^64 - 1.
#[derive(Debug, Drop)]
pub struct Tally {
    pub hits: HitList,
    pub packets: [u64; 5],
    pub bytes: [u64; 5],
}

impl Tally {
    ghost use Rattle.xdp_state.specs.Hits.{hits_in};
    ghost use Rattle.xdp_state.specs.Sums.{Counted, tally_of, rules_of, named, times};

    /// No packets.
    pub fn new(alloc: Global) -> Self
        ensures { result ≡ tally_of [] }
    {
        Tally {
            hits: HitList::new(alloc),
            packets: [0; 5],
            bytes: [0; 5],
        }
    }

    /// One more packet, of these visits, this verdict and this length.
    pub fn add(&mut self, visits: &[Visit], verdict: Action, handed: u64) -> Result<(), OutOfMemory>
        ensures ok { OnOk result ((carried : List Counted) → self.old ≡ tally_of carried → self.new
            ≡ tally_of (carried ++ record { verdict = verdict; handed = handed; rules = rules_of visits.now } ∷ [])) }
        ensures err { OnErr result (self.new ≡ self.old) }
    {
        self.hits.add(visits)?;
        raise(&mut self.packets, verdict.number(), 1);
        raise(&mut self.bytes, verdict.number(), handed);
        Ok(())
    }

    /// The packets of both.
    pub fn merge(&mut self, other: &Tally) -> Result<(), OutOfMemory>
        ensures ok { OnOk result ((mine theirs : List Counted) → self.old ≡ tally_of mine → other.now ≡ tally_of theirs
            → self.new ≡ tally_of (mine ++ theirs)) }
        ensures err { OnErr result (self.new ≡ self.old) }
    {
        self.hits.merge(&other.hits)?;
        raise_all(&mut self.packets, &other.packets);
        raise_all(&mut self.bytes, &other.bytes);
        Ok(())
    }

    /// How often the row of this number was named, 0 where no row of hits has it.
    pub fn hits_of(&self, rule: u32) -> u64
        ensures row { result ≡ hits_in self.now.hits rule }
        ensures hits { (carried : List Counted) → self.now ≡ tally_of carried → result ≡ capped (times (named carried) rule) }
    {
        self.hits.hits_of(rule)
    }
}

/// Adds to one sum.
fn raise(sums: &mut [u64; 5], place: u8, by: u64)
    requires { place < 5 }
    ensures five { length sums.new ≡ 5 }
    ensures each { (i : ℕ) → i < 5 → slice_index sums.new i
        ≡ (if i == place then capped (slice_index sums.old i + by) else slice_index sums.old i) }
{
    let place = place as usize;
    sums[place] = sums[place].saturating_add(by);
}

/// Adds to each sum.
fn raise_all(sums: &mut [u64; 5], by: &[u64; 5])
    ensures five { length sums.new ≡ 5 }
    ensures each { (i : ℕ) → i < 5 → slice_index sums.new i ≡ capped (slice_index sums.old i + slice_index by.now i) }
{
    for place in 0..5 {
        sums[place] = sums[place].saturating_add(by[place]);
    }
}
