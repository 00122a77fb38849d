//! Where the counts of a phase come from: they are as at hand-in, or those of a trace that is replayed.

ghost use Rattle.std.specs.Prelude.{◌≡◌, ◌&&◌, ◌^◌, ◌<◌, ℕ, List, length, map, Err, IfOk, IfSome};
ghost use Rattle.xdp_state.specs.Library.{IsSound};
ghost use Rattle.xdp_state.specs.Standing.{Standing};
ghost use Rattle.xdp_state.specs.Work.{all_needs};
ghost use Rattle.xdp_state.specs.declared.packet.HandIn.{HandIn};
ghost use Rattle.xdp_tool.specs.Carrying.{Carries, StandsAt};
ghost use Rattle.xdp_tool.specs.Plan.{Phase, closed};
ghost use Rattle.xdp_tool.specs.Ran.{AllWithin, AreLegalOf};
ghost use Rattle.xdp_tool.specs.Replay.{may_end};
ghost use Rattle.xdp_tool.specs.Replaying.{DiffersAt, GoesOn, HasLasts, Passes, Stops};
ghost use Rattle.xdp_tool.specs.Walked.{Begun, IsAt};
ghost use Rattle.xdp_tool.specs.declared.counts.CarryEnd.TheVariants as end_is;

use crate::carrier::Carrier;
use crate::fronts::{fronts_of, pass_lasts};
use crate::replay::Replay;
use crate::walk::Walk;
use lists::List;
use std::alloc::Global;
use xdp_state::{CarriedList, CountList, HandIn, HandInList, NeedsList};
use xio::OutOfMemory;

/// Why a phase isn't carried.
#[derive(Clone, Copy, Debug, PartialEq, Eq)]
pub enum CarryEnd {
    /// The line of the replayed trace, from 1, that is the first that no run of the script writes.
    Differs { line: u32 },
    OutOfMemory,
}

impl From<OutOfMemory> for CarryEnd {
    ghost from_gives = { λ _ e. e ≡ end_is.OutOfMemory };

    fn from(_: OutOfMemory) -> Self {
        CarryEnd::OutOfMemory
    }
}

/// The end of a phase: the phase's number from 0, the line of the barrier that ends it, or none at the script's end, and how many
/// publications were made until then.
#[derive(Clone, Copy, Debug, PartialEq, Eq)]
pub struct PhaseEnd {
    pub number: u32,
    pub barrier: Option<u32>,
    pub published: u32,
}

/// What was carried of a phase, by processor, and with which counts.
#[derive(Debug, Drop)]
pub struct CarriedPhase {
    pub counts: NeedsList,
    pub carried: List<CarriedList>,
}

/// Carries the packets of the phase.
pub fn carry(
    alloc: Global,
    carrier: &mut Carrier,
    walk: &Walk<'_>,
    replay: &mut Option<Replay<'_>>,
    end: PhaseEnd,
) -> Result<CarriedPhase, CarryEnd>
    requires sound { IsSound walk.now.script.now.library }
    requires numbered { IfSome replay.old (λ replay. length replay.trace.now.text < 2 ^ 31) }
    ensures carries { (begun : Begun) (standings : List Standing) (phase : Phase) → IsAt walk.now begun phase
        → StandsAt carrier.old begun.published standings → length standings ≡ length phase.work.hand_ins
        → end.published ≡ length phase.work.published
        → IfOk result (λ done. Carries walk.now.script.now.library carrier.new done.carried phase.work.published standings phase.work.hand_ins done.counts) }
    ensures many { IfOk result (λ done. length done.counts ≡ length walk.now.hand_ins.items) }
    ensures legal { (begun : Begun) (phase : Phase) (lasts : List ℕ) → IsAt walk.now begun phase
        → end.published ≡ length phase.work.published → AllWithin (length begun.published) lasts → HasLasts replay.old lasts
        → IfOk result (λ done. AreLegalOf lasts phase done.counts) }
    ensures replays { (begun : Begun) (standings : List Standing) (phase : Phase) → IsAt walk.now begun phase
        → StandsAt carrier.old begun.published standings → length standings ≡ length phase.work.hand_ins
        → end.published ≡ length phase.work.published
        → IfOk result (λ done. GoesOn walk.now.script.now.library replay.old replay.new end.number standings (closed end.barrier phase) done.counts) }
    ensures differs { (begun : Begun) (standings : List Standing) (phase : Phase) (line : ℕ) → IsAt walk.now begun phase
        → StandsAt carrier.old begun.published standings → length standings ≡ length phase.work.hand_ins
        → end.published ≡ length phase.work.published → result ≡ Err (CarryEnd.Differs line)
        → DiffersAt walk.now.script.now.library replay.old end.number standings (closed end.barrier phase) line }
{
    match replay {
        Some(replay) => carry_traced(alloc, carrier, walk, replay, end),
        None => Ok(carry_at_hand_in(alloc, carrier, walk)?),
    }
}

/// Carries each packet with as many publications as there were at its hand-in.
fn carry_at_hand_in(
    alloc: Global,
    carrier: &mut Carrier,
    walk: &Walk<'_>,
) -> Result<CarriedPhase, OutOfMemory>
    requires { IsSound walk.now.script.now.library }
    ensures counts { IfOk result (λ done. done.counts ≡ all_needs walk.now.hand_ins.items) }
    ensures carries { (begun : Begun) (standings : List Standing) (phase : Phase) → IsAt walk.now begun phase
        → StandsAt carrier.old begun.published standings → length standings ≡ length phase.work.hand_ins
        → IfOk result (λ done. Carries walk.now.script.now.library carrier.new done.carried phase.work.published standings phase.work.hand_ins done.counts) }
{
    let hand_ins = walk.hand_ins.as_slice();
    let counts = needs_of(alloc, hand_ins)?;
    let library = &walk.script.library;
    let carried = carrier.carry(alloc, library, walk.changes.as_slice(), hand_ins, &counts)?;
    Ok(CarriedPhase { counts, carried })
}

/// Carries each packet with the count that the trace has for it, where all are legal and the trace is that of what was carried.
fn carry_traced(
    alloc: Global,
    carrier: &mut Carrier,
    walk: &Walk<'_>,
    replay: &mut Replay<'_>,
    end: PhaseEnd,
) -> Result<CarriedPhase, CarryEnd>
    requires sound { IsSound walk.now.script.now.library }
    requires numbered { length replay.old.trace.now.text < 2 ^ 31 }
    ensures carries { (begun : Begun) (standings : List Standing) (phase : Phase) → IsAt walk.now begun phase
        → StandsAt carrier.old begun.published standings → length standings ≡ length phase.work.hand_ins
        → end.published ≡ length phase.work.published
        → IfOk result (λ done. Carries walk.now.script.now.library carrier.new done.carried phase.work.published standings phase.work.hand_ins done.counts) }
    ensures many { IfOk result (λ done. length done.counts ≡ length walk.now.hand_ins.items) }
    ensures legal { (begun : Begun) (phase : Phase) (lasts : List ℕ) → IsAt walk.now begun phase
        → end.published ≡ length phase.work.published → AllWithin (length begun.published) lasts → replay.old.lasts ≡ lasts
        → IfOk result (λ done. AreLegalOf lasts phase done.counts) }
    ensures replays { (begun : Begun) (standings : List Standing) (phase : Phase) → IsAt walk.now begun phase
        → StandsAt carrier.old begun.published standings → length standings ≡ length phase.work.hand_ins
        → end.published ≡ length phase.work.published
        → IfOk result (λ done. Passes walk.now.script.now.library replay.old replay.new end.number standings (closed end.barrier phase) done.counts) }
    ensures differs { (begun : Begun) (standings : List Standing) (phase : Phase) (line : ℕ) → IsAt walk.now begun phase
        → StandsAt carrier.old begun.published standings → length standings ≡ length phase.work.hand_ins
        → end.published ≡ length phase.work.published → result ≡ Err (CarryEnd.Differs line)
        → Stops walk.now.script.now.library replay.old end.number standings (closed end.barrier phase) line }
{
    let hand_ins = walk.hand_ins.as_slice();
    let fronts = replay.fronts(alloc, end.number, end.published, hand_ins)?;
    let library = &walk.script.library;
    let carried = carrier.carry(
        alloc,
        library,
        walk.changes.as_slice(),
        hand_ins,
        &fronts.counts,
    )?;
    let same = replay.passes_phase(alloc, end.number, fronts.whole, end.barrier, &carried)?;
    if !is_covered(fronts.whole, same, end.barrier, replay.rest) {
        return Err(CarryEnd::Differs {
            line: replay.line(),
        });
    }
    pass_lasts(&mut replay.lasts, &fronts.counts)?;
    Ok(CarriedPhase {
        counts: fronts.counts,
        carried,
    })
}

/// Whether a phase is covered: each packet has a legal count, the trace has the phase's lines, and nothing stands behind the last
/// one where the script has ended.
fn is_covered(whole: bool, same: bool, barrier: Option<u32>, rest: &[u8]) -> bool
    ensures { result ≡ (whole && same && may_end barrier rest.now) }
{
    whole && same && (barrier.is_some() || rest.is_empty())
}

/// The needs of the packets, by processor.
fn needs_of(alloc: Global, hand_ins: &[HandInList]) -> Result<NeedsList, OutOfMemory>
    ensures { IfOk result (λ needs. needs ≡ all_needs hand_ins.now) }
{
    let mut needs = NeedsList::new(alloc);
    for packets in hand_ins {
        needs.push(needs_in(alloc, packets.as_slice())?)?;
    }
    Ok(needs)
}

fn needs_in(alloc: Global, hand_ins: &[HandIn]) -> Result<CountList, OutOfMemory>
    ensures { IfOk result (λ needs. needs ≡ map (λ (h : HandIn). h.need) hand_ins.now) }
{
    let mut needs = CountList::new(alloc);
    for hand_in in hand_ins {
        needs.push(hand_in.need)?;
    }
    Ok(needs)
}
