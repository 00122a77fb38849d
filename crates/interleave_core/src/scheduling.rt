ghost use Rattle.std.specs.Prelude.{◌≡◌, ℕ, ◌^◌, ◌<◌, ◌++◌, ◌∷◌, None, Some, length, drop, replicate, vec_len, IfOk, OnOk};
ghost use Rattle.interleave_core.specs.Legality.{first_illegal};
ghost use Rattle.interleave_core.specs.Reached.{IsPlan, StepsGive};
ghost use Rattle.interleave_core.specs.Schedule.{all_due, all_left, due, due_steps, phase_steps, plan_steps, rows};
ghost use Rattle.interleave_core.specs.declared.illegal.Illegal.{Illegal};
ghost use Rattle.interleave_core.specs.declared.scheduling.ScheduleEnd.TheVariants.{OutOfMemory as NoMemory};
ghost use Rattle.interleave_core.specs.declared.step.Step.TheVariants as step;

use crate::illegal::Illegal;
use crate::legality::is_legal;
use crate::step::{Step, StepList};
use lists::OutOfMemory;
use std::alloc::Global;
use xdp_state::{Choices, NeedsList, Plan, PlanPhase};

/// Why there is no schedule.
#[derive(Clone, Copy, Debug, PartialEq, Eq)]
pub enum ScheduleEnd {
    Illegal(Illegal),
    OutOfMemory,
}

impl From<OutOfMemory> for ScheduleEnd {
    ghost from_gives = { λ _ end. end ≡ NoMemory };

    fn from(_: OutOfMemory) -> Self {
        ScheduleEnd::OutOfMemory
    }
}

/// Steps that give these choices, if they are legal for the plan: each packet is handed in as early as its need allows, and
/// carried as early as its count allows. The time is that of `is_legal`, of the packets, and of the publications times the
/// processors.
pub fn schedule(alloc: Global, plan: &Plan, choices: &Choices) -> Result<StepList, ScheduleEnd>
    ensures steps { (processors : ℕ) → IsPlan processors plan.now
        → IfOk result (λ steps. StepsGive processors steps plan.now choices.now) }
    ensures legal { OnOk result (first_illegal plan.now choices.now ≡ None) }
    ensures illegal { (illegal : Illegal) → first_illegal plan.now choices.now ≡ Some illegal → result ≡ Err (ScheduleEnd.Illegal illegal) }
    ensures only { (illegal : Illegal) → result ≡ Err (ScheduleEnd.Illegal illegal) → first_illegal plan.now choices.now ≡ Some illegal }
{
    if let Err(illegal) = is_legal(plan, choices) {
        return Err(ScheduleEnd::Illegal(illegal));
    }
    let steps = steps_of(alloc, plan, choices)?;
    Ok(steps)
}

fn steps_of(alloc: Global, plan: &Plan, choices: &Choices) -> Result<StepList, OutOfMemory>
    requires { length plan.now ≡ length choices.now }
    ensures { IfOk result (λ steps. steps ≡ plan_steps 0 plan.now choices.now) }
{
    let mut steps = StepList::new(alloc);
    let mut published = 0;
    for phase in 0..plan.len() {
        let asked = plan.at(phase);
        let counts = choices.at(phase);
        add_phase(alloc, &mut steps, published, asked, counts)?;
        published = asked.published;
    }
    Ok(steps)
}

/// Adds the steps of a phase that begins with so many publications.
fn add_phase(
    alloc: Global,
    steps: &mut StepList,
    first: u32,
    asked: &PlanPhase,
    counts: &NeedsList,
) -> Result<(), OutOfMemory>
    ensures { OnOk result (steps.new ≡ steps.old ++ phase_steps first asked.now counts.now) }
{
    let mut needs = slices_of(alloc, &asked.needs)?;
    let mut counts = slices_of(alloc, counts)?;
    add_due(steps, first, &mut needs, &mut counts)?;
    for published in first..asked.published {
        add_next(steps, published + 1, &mut needs, &mut counts)?;
    }
    steps.push(Step::Barrier)
}

/// Adds a publication, and what is due with it.
fn add_next(
    steps: &mut StepList,
    published: u32,
    needs: &mut Vec<&[u32]>,
    counts: &mut Vec<&[u32]>,
) -> Result<(), OutOfMemory>
    requires needs { vec_len needs.old < 2 ^ 32 }
    requires counts { vec_len counts.old < 2 ^ 32 }
    ensures steps { OnOk result (steps.new ≡ steps.old ++ step.Publish ∷ all_due published (rows needs.old.items) (rows counts.old.items)) }
    ensures needs { OnOk result (rows needs.new.items ≡ all_left published (rows needs.old.items)) }
    ensures counts { OnOk result (rows counts.new.items ≡ all_left published (rows counts.old.items)) }
    ensures same_needs { vec_len needs.new ≡ vec_len needs.old }
    ensures same_counts { vec_len counts.new ≡ vec_len counts.old }
{
    steps.push(Step::Publish)?;
    add_due(steps, published, needs, counts)
}

/// Adds what is due with so many publications: packets are handed in, then carried.
fn add_due(
    steps: &mut StepList,
    published: u32,
    needs: &mut Vec<&[u32]>,
    counts: &mut Vec<&[u32]>,
) -> Result<(), OutOfMemory>
    requires needs { vec_len needs.old < 2 ^ 32 }
    requires counts { vec_len counts.old < 2 ^ 32 }
    ensures steps { OnOk result (steps.new ≡ steps.old ++ all_due published (rows needs.old.items) (rows counts.old.items)) }
    ensures needs { OnOk result (rows needs.new.items ≡ all_left published (rows needs.old.items)) }
    ensures counts { OnOk result (rows counts.new.items ≡ all_left published (rows counts.old.items)) }
    ensures same_needs { vec_len needs.new ≡ vec_len needs.old }
    ensures same_counts { vec_len counts.new ≡ vec_len counts.old }
{
    hand_in_due(steps, published, needs)?;
    carry_due(steps, published, counts)
}

/// The lists of a table, lent.
fn slices_of<'a>(alloc: Global, table: &'a NeedsList) -> Result<Vec<&'a [u32]>, OutOfMemory>
    ensures slices { IfOk result (λ slices. rows slices.items ≡ table.now) }
    ensures few { IfOk result (λ slices. vec_len slices < 2 ^ 32) }
{
    let mut slices = Vec::new(alloc);
    for place in 0..table.len() {
        slices.push(table.at(place).as_slice())?;
    }
    Ok(slices)
}

/// Hands in the packets whose need was published by now; what is left are those whose need wasn't.
fn hand_in_due(
    steps: &mut StepList,
    published: u32,
    left: &mut Vec<&[u32]>,
) -> Result<(), OutOfMemory>
    requires { vec_len left.old < 2 ^ 32 }
    ensures steps { OnOk result (steps.new ≡ steps.old
        ++ due_steps (λ processor. step.HandIn processor) published 0 (rows left.old.items)) }
    ensures left { OnOk result (rows left.new.items ≡ all_left published (rows left.old.items)) }
    ensures processors { vec_len left.new ≡ vec_len left.old }
{
    for place in 0..left.len() {
        let processor = place as u32;
        let rest = push_due(steps, Step::HandIn { processor }, published, left[place])?;
        left[place] = rest;
    }
    Ok(())
}

/// Carries the packets whose count was published by now; what is left are those whose count wasn't.
fn carry_due(
    steps: &mut StepList,
    published: u32,
    left: &mut Vec<&[u32]>,
) -> Result<(), OutOfMemory>
    requires { vec_len left.old < 2 ^ 32 }
    ensures steps { OnOk result (steps.new ≡ steps.old
        ++ due_steps (λ processor. step.Carry processor) published 0 (rows left.old.items)) }
    ensures left { OnOk result (rows left.new.items ≡ all_left published (rows left.old.items)) }
    ensures processors { vec_len left.new ≡ vec_len left.old }
{
    for place in 0..left.len() {
        let processor = place as u32;
        let rest = push_due(steps, Step::Carry { processor }, published, left[place])?;
        left[place] = rest;
    }
    Ok(())
}

/// Adds a step for each number up to the first that is above `published`, and answers the numbers from there on.
fn push_due<'a>(
    steps: &mut StepList,
    step: Step,
    published: u32,
    numbers: &'a [u32],
) -> Result<&'a [u32], OutOfMemory>
    ensures steps { OnOk result (steps.new ≡ steps.old ++ replicate (due published numbers.now) step) }
    ensures left { IfOk result (λ left. left.now ≡ drop (due published numbers.now) numbers.now) }
{
    for (place, number) in numbers.iter().enumerate() {
        if *number > published {
            return Ok(&numbers[place..]);
        }
        steps.push(step)?;
    }
    Ok(&[])
}
