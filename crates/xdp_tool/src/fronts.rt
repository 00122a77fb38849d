ghost use Rattle.std.specs.Prelude.{◌≡◌, true, [], slice_index, slice_index_or, IfOk, OnOk};
ghost use Rattle.xdp_state.specs.Legal.{last_of, lasts_of};
ghost use Rattle.xdp_state.specs.Work.{all_needs, needs_of};
ghost use Rattle.xdp_tool.specs.Replay.{are_whole, front_if, fronts_from, is_legal, legal_front};

use std::alloc::Global;
use xdp_state::{CountList, HandIn, HandInList, NeedsList};
use xio::OutOfMemory;

/// The counts of a phase as far as they are legal.
#[derive(Debug, Drop)]
pub struct Fronts {
    /// by processor
    pub counts: NeedsList,
    /// whether each packet has one
    pub whole: bool,
}

/// The counts of the packets up to the first, by processor and place, that has no legal one, behind these last counts and with so
/// many publications by the phase's end.
pub fn fronts_of(
    alloc: Global,
    lasts: &[u32],
    published: u32,
    hand_ins: &[HandInList],
    counts: &[CountList],
) -> Result<Fronts, OutOfMemory>
    ensures counts { IfOk result (λ fronts. fronts.counts ≡ fronts_from true lasts.now published (all_needs hand_ins.now) counts.now) }
    ensures whole { IfOk result (λ fronts. fronts.whole ≡ are_whole (all_needs hand_ins.now) fronts.counts) }
{
    let mut fronts = Fronts {
        counts: NeedsList::new(alloc),
        whole: true,
    };
    for place in 0..hand_ins.len() {
        let packets = hand_ins[place].as_slice();
        let front = front_if(
            alloc,
            fronts.whole,
            last_at(lasts, place),
            published,
            packets,
            counts_at(counts, place),
        )?;
        fronts.whole = fronts.whole && front.len() as usize == packets.len();
        fronts.counts.push(front)?;
    }
    Ok(fronts)
}

/// The last count of a processor, or 0.
fn last_at(lasts: &[u32], place: usize) -> u32
    ensures { result ≡ slice_index lasts.now place }
{
    lasts.get(place).copied().unwrap_or(0)
}

/// The counts of a processor, or none.
fn counts_at(counts: &[CountList], place: usize) -> &[u32]
    ensures { result.now ≡ slice_index_or counts.now place [] }
{
    match counts.get(place) {
        Some(counts) => counts.as_slice(),
        None => &[],
    }
}

/// The counts of one processor up to the first that isn't legal, or none.
fn front_if(
    alloc: Global,
    wanted: bool,
    before: u32,
    published: u32,
    hand_ins: &[HandIn],
    counts: &[u32],
) -> Result<CountList, OutOfMemory>
    ensures { IfOk result (λ front. front ≡ front_if wanted before published (needs_of hand_ins.now) counts.now) }
{
    if wanted {
        front_of(alloc, before, published, hand_ins, counts)
    } else {
        Ok(CountList::new(alloc))
    }
}

/// The counts up to the first that isn't legal.
fn front_of(
    alloc: Global,
    before: u32,
    published: u32,
    hand_ins: &[HandIn],
    counts: &[u32],
) -> Result<CountList, OutOfMemory>
    ensures { IfOk result (λ front. front ≡ legal_front before published (needs_of hand_ins.now) counts.now) }
{
    let mut front = CountList::new(alloc);
    let mut last = before;
    let mut place = 0;
    while place < hand_ins.len()
        && place < counts.len()
        && is_legal(last, hand_ins[place].need, published, counts[place])
    {
        last = counts[place];
        front.push(last)?;
        place += 1;
    }
    Ok(front)
}

fn is_legal(last: u32, need: u32, published: u32, count: u32) -> bool
    ensures { result ≡ is_legal last need published count }
{
    last <= count && need <= count && count <= published
}

/// Puts the last counts of one phase more in the place of those before.
pub fn pass_lasts(lasts: &mut CountList, counts: &NeedsList) -> Result<(), OutOfMemory>
    ensures { OnOk result (lasts.new ≡ lasts_of lasts.old counts.now) }
{
    for place in 0..counts.len() {
        let counts = counts.at(place);
        if place < lasts.len() {
            lasts.set(place, last_of(*lasts.at(place), counts));
        } else {
            lasts.push(last_of(0, counts))?;
        }
    }
    Ok(())
}

/// The last of a processor's counts, or the one before them.
#[tactic(auto, using(crate::proofs::LegalFronts::ends))]
fn last_of(before: u32, counts: &CountList) -> u32
    ensures { result ≡ last_of before counts.now }
{
    let many = counts.len();
    if many == 0 {
        return before;
    }
    *counts.at(many - 1)
}
