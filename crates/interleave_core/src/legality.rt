ghost use Rattle.std.specs.Prelude.{◌≡◌, ℕ, ◌^◌, ◌<◌, ◌≤◌, ◌↔◌, [], length, take, slice_index, slice_index_or, Some, None, unwrap_or, option_and_then, IsOk, if◌then◌else◌};
ghost use Rattle.std.specs.Result.{result_err};
ghost use Rattle.interleave_core.specs.Legality.{breaks, first_illegal, illegal_from, illegal_in, illegal_on, illegal_packet, lacking_from, lacking_in, lacking_packet};
ghost use Rattle.interleave_core.specs.Reached.{IsPlan, IsReached};
ghost use Rattle.interleave_core.specs.Sound.{AreLegalFor, last_counts};
ghost use Rattle.xdp_state.specs.Legal.{last_of};

use crate::illegal::{Illegal, LegalRule};
use xdp_state::{Choices, CountList, NeedsList, Plan, PlanPhase};

/// Whether the choices are legal for the plan, or else the first packet whose count isn't. It takes the time of the packets,
/// and of the phases times their processors.
pub fn is_legal(plan: &Plan, choices: &Choices) -> Result<(), Illegal>
    ensures first { result_err result ≡ first_illegal plan.now choices.now }
    ensures legal { IsOk result ↔ AreLegalFor plan.now choices.now }
    ensures reached { (processors : ℕ) → IsPlan processors plan.now → (IsOk result ↔ IsReached processors plan.now choices.now) }
{
    match first_illegal(plan, choices) {
        Some(illegal) => Err(illegal),
        None => Ok(()),
    }
}

/// The first place that one of the two lacks, or else the first packet that breaks a rule.
fn first_illegal(plan: &Plan, choices: &Choices) -> Option<Illegal>
    ensures { result ≡ first_illegal plan.now choices.now }
{
    if let Some(illegal) = lacking(plan, choices) {
        return Some(illegal);
    }
    first_broken(plan, choices)
}

/// The first place that the plan or the choices lack.
fn lacking(plan: &Plan, choices: &Choices) -> Option<Illegal>
    ensures { result ≡ lacking_from 0 plan.now choices.now }
{
    let phases = plan.len().min(choices.len());
    for phase in 0..phases {
        let asked = plan.at(phase);
        let counts = choices.at(phase);
        if let Some(illegal) = lacking_in(phase, &asked.needs, counts) {
            return Some(illegal);
        }
    }
    lacking_at(phases, 0, plan.len() == choices.len())
}

fn lacking_in(phase: u32, needs: &NeedsList, counts: &NeedsList) -> Option<Illegal>
    ensures { result ≡ lacking_in phase 0 needs.now counts.now }
{
    let processors = needs.len().min(counts.len());
    for processor in 0..processors {
        let asked = needs.at(processor);
        let counted = counts.at(processor);
        if let Some(illegal) = lacking_packet(phase, processor, asked, counted) {
            return Some(illegal);
        }
    }
    lacking_at(phase, processors, needs.len() == counts.len())
}

/// None where the phase or the processor isn't lacking.
fn lacking_at(phase: u32, processor: u32, is_there: bool) -> Option<Illegal>
    ensures { result ≡ (if is_there then None else breaks LegalRule.Shape phase processor 0) }
{
    if is_there {
        return None;
    }
    Some(Illegal {
        phase,
        processor,
        packet: 0,
        rule: LegalRule::Shape,
    })
}

fn lacking_packet(
    phase: u32,
    processor: u32,
    needs: &CountList,
    counts: &CountList,
) -> Option<Illegal>
    ensures { result ≡ lacking_packet phase processor needs.now counts.now }
{
    if needs.len() == counts.len() {
        return None;
    }
    Some(Illegal {
        phase,
        processor,
        packet: needs.len().min(counts.len()),
        rule: LegalRule::Shape,
    })
}

/// The first packet that breaks a rule on its count, among those that both have.
fn first_broken(plan: &Plan, choices: &Choices) -> Option<Illegal>
    ensures { result ≡ illegal_from 0 [] plan.now choices.now }
{
    for phase in 0..plan.len().min(choices.len()) {
        let asked = plan.at(phase);
        let counts = choices.at(phase);
        if let Some(illegal) = broken_in(phase, choices, asked, counts) {
            return Some(illegal);
        }
    }
    None
}

/// The same in one phase.
fn broken_in(
    phase: u32,
    choices: &Choices,
    asked: &PlanPhase,
    counts: &NeedsList,
) -> Option<Illegal>
    requires { phase ≤ length choices.now }
    ensures { result ≡ illegal_in phase 0 (last_counts (take phase choices.now)) asked.now.published asked.now.needs counts.now }
{
    let needs = &asked.needs;
    for processor in 0..needs.len().min(counts.len()) {
        let asked_on = needs.at(processor);
        let counted = counts.at(processor);
        if let Some(illegal) = broken_on(
            phase,
            processor,
            choices,
            asked.published,
            asked_on,
            counted,
        ) {
            return Some(illegal);
        }
    }
    None
}

/// The same on one processor. Where it has packets, the phases before are looked through until one has some too, so that
/// each phase is looked at once.
fn broken_on(
    phase: u32,
    processor: u32,
    choices: &Choices,
    published: u32,
    needs: &CountList,
    counts: &CountList,
) -> Option<Illegal>
    requires { phase ≤ length choices.now }
    ensures { result ≡ illegal_on phase processor 0
        (slice_index (last_counts (take phase choices.now)) processor) published needs.now counts.now }
{
    if counts.len() == 0 {
        return None;
    }
    let last = last_before(choices, phase, processor);
    broken_after(
        phase,
        processor,
        last,
        published,
        needs.as_slice(),
        counts.as_slice(),
    )
}

/// The last count of the processor in the phases before this one.
fn last_before(choices: &Choices, phase: u32, processor: u32) -> u32
    requires { phase ≤ length choices.now }
    ensures { result ≡ slice_index (last_counts (take phase choices.now)) processor }
{
    let mut earlier = phase;
    while earlier > 0 {
        earlier -= 1;
        if let Some(last) = last_in(choices.at(earlier), processor) {
            return last;
        }
    }
    0
}

/// The last count of the processor in one phase.
fn last_in(counts: &NeedsList, processor: u32) -> Option<u32>
    ensures { (last : ℕ) → unwrap_or result last ≡ last_of last (slice_index_or counts.now processor []) }
{
    if processor >= counts.len() {
        return None;
    }
    counts.at(processor).as_slice().last().copied()
}

/// The first packet of a processor that breaks a rule, after the last count before.
fn broken_after(
    phase: u32,
    processor: u32,
    before: u32,
    published: u32,
    needs: &[u32],
    counts: &[u32],
) -> Option<Illegal>
    requires { length counts.now < 2 ^ 32 }
    ensures { result ≡ illegal_on phase processor 0 before published needs.now counts.now }
{
    let mut last = before;
    for place in 0..needs.len().min(counts.len()) {
        let (need, count) = (needs[place], counts[place]);
        if let Some(rule) = broken_rule(last, published, need, count) {
            return Some(Illegal {
                phase,
                processor,
                packet: place as u32,
                rule,
            });
        }
        last = count;
    }
    None
}

/// The rule that a count breaks.
fn broken_rule(last: u32, published: u32, need: u32, count: u32) -> Option<LegalRule>
    ensures { (phase processor packet : ℕ) → option_and_then (λ rule. breaks rule phase processor packet) result
        ≡ illegal_packet phase processor packet last published need count }
{
    if count < last {
        Some(LegalRule::Fell)
    } else if count < need {
        Some(LegalRule::BelowNeed)
    } else if count > published {
        Some(LegalRule::AbovePhase)
    } else {
        None
    }
}
