ghost use Rattle.std.specs.Prelude.{◌≡◌, ◌+◌, ◌<◌, ◌^◌, All, List, [], ◌++◌, length, map, take, vec_len, IfOk, OnOk};
ghost use Rattle.xdp_state.specs.Book.{AllTaken, after};
ghost use Rattle.xdp_state.specs.Library.{IsSound};
ghost use Rattle.xdp_state.specs.Standing.{Standing};
ghost use Rattle.xdp_state.specs.declared.change.Change.{Change};
ghost use Rattle.xdp_tool.specs.Carrying.{AllUpTo, AreDue, AreIdle, AreStanding, Carries, IsUpTo, StandsAt};
ghost use Rattle.xdp_tool.specs.Traversed.{standings_of};
ghost use Rattle.xdp_tool.specs.QueueView.{queue_of};

use crate::processor::Processor;
use crate::queue::Queue;
use lists::List;
use std::alloc::Global;
use xdp_state::{CarriedList, Change, HandIn, HandInList, Library, NeedsList, State};
use xio::OutOfMemory;

/// Carries the packets of one phase after another, on one thread, with counts that it is given: a state goes once over the
/// publications of the phase, and takes the packets whose count it has.
#[derive(Debug, Drop)]
pub struct Carrier {
    pub state: State,
    pub processors: Vec<Processor>,
}

impl Carrier {
    /// Before the first phase, with a processor for each queue.
    pub fn new(alloc: Global, queues: &[Queue<'_>]) -> Result<Self, OutOfMemory>
        requires queues { length queues.now < 2 ^ 32 }
        requires interfaces { All (λ queue. queue.interface < 8) queues.now }
        ensures { IfOk result (λ carrier. StandsAt carrier [] (standings_of (map queue_of queues.now))) }
    {
        Ok(Carrier {
            state: State::new(alloc)?,
            processors: processors_of(alloc, queues)?,
        })
    }

    /// Carries the packets of a phase, by processor, with these counts.
    pub fn carry(
        &mut self,
        alloc: Global,
        library: &Library,
        changes: &[Change],
        hand_ins: &[HandInList],
        counts: &NeedsList,
    ) -> Result<List<CarriedList>, OutOfMemory>
        requires { IsSound library.now }
        ensures { (before : List Change) (standings : List Standing) → StandsAt self.old before standings
            → AllTaken (before ++ changes.now) → AreDue (length before) (length (before ++ changes.now)) standings hand_ins.now counts.now
            → IfOk result (λ carried. Carries library.now self.new carried (before ++ changes.now) standings hand_ins.now counts.now) }
    {
        carry_due(
            alloc,
            &self.state,
            library,
            &mut self.processors,
            hand_ins,
            counts,
        )?;
        for change in changes {
            self.state.absorb(change);
            carry_due(
                alloc,
                &self.state,
                library,
                &mut self.processors,
                hand_ins,
                counts,
            )?;
        }
        finish_all(alloc, &mut self.processors)
    }
}

/// A processor for each queue.
fn processors_of(alloc: Global, queues: &[Queue<'_>]) -> Result<Vec<Processor>, OutOfMemory>
    requires queues { length queues.now < 2 ^ 32 }
    requires interfaces { All (λ queue. queue.interface < 8) queues.now }
    ensures { IfOk result (λ processors. AreIdle processors.items (standings_of (map queue_of queues.now))) }
{
    let mut processors = Vec::new(alloc);
    for (number, queue) in queues.iter().enumerate() {
        processors.push(Processor::new(alloc, number as u32, queue)?)?;
    }
    Ok(processors)
}

/// Carries the next packets of each processor whose count is the state's.
fn carry_due(
    alloc: Global,
    state: &State,
    library: &Library,
    processors: &mut Vec<Processor>,
    hand_ins: &[HandInList],
    counts: &NeedsList,
) -> Result<(), OutOfMemory>
    requires { IsSound library.now }
    ensures { (published : List Change) (standings : List Standing) → state.now ≡ after (take state.now.count published)
        → AllUpTo library.now 0 published state.now.count standings hand_ins.now counts.now processors.old.items
        → OnOk result (AllUpTo library.now 0 published (state.now.count + 1) standings hand_ins.now counts.now processors.new.items) }
{
    for place in 0..processors.len() {
        carry_due_at(alloc, state, library, processors, place, hand_ins, counts)?;
    }
    Ok(())
}

/// The same of the processor at this place.
fn carry_due_at(
    alloc: Global,
    state: &State,
    library: &Library,
    processors: &mut Vec<Processor>,
    place: usize,
    hand_ins: &[HandInList],
    counts: &NeedsList,
) -> Result<(), OutOfMemory>
    requires place { place < vec_len processors.old }
    requires sound { IsSound library.now }
    ensures due { (published : List Change) (standings : List Standing) → state.now ≡ after (take state.now.count published)
        → AllUpTo library.now place published state.now.count standings hand_ins.now counts.now processors.old.items
        → OnOk result (AllUpTo library.now (place + 1) published state.now.count standings hand_ins.now counts.now processors.new.items) }
    ensures processors { vec_len processors.new ≡ vec_len processors.old }
{
    let counts = counts.as_slice();
    if place >= hand_ins.len() || place >= counts.len() {
        return Ok(());
    }
    let (hand_ins, counts) = (hand_ins[place].as_slice(), counts[place].as_slice());
    carry_due_on(
        alloc,
        state,
        library,
        &mut processors[place],
        hand_ins,
        counts,
    )
}

/// Carries the processor's next packets whose count is the state's.
fn carry_due_on(
    alloc: Global,
    state: &State,
    library: &Library,
    processor: &mut Processor,
    hand_ins: &[HandIn],
    counts: &[u32],
) -> Result<(), OutOfMemory>
    requires { IsSound library.now }
    ensures { (published : List Change) (standing : Standing) → state.now ≡ after (take state.now.count published)
        → IsUpTo library.now published standing hand_ins.now counts.now state.now.count processor.old
        → OnOk result (IsUpTo library.now published standing hand_ins.now counts.now (state.now.count + 1) processor.new) }
{
    let mut place = processor.carried.len() as usize;
    while place < hand_ins.len() && place < counts.len() && counts[place] == state.count() {
        processor.carry(alloc, state, library, &hand_ins[place].packet)?;
        place += 1;
    }
    Ok(())
}

/// Ends the phase on each processor, and answers what each carried.
fn finish_all(
    alloc: Global,
    processors: &mut Vec<Processor>,
) -> Result<List<CarriedList>, OutOfMemory>
    ensures carried { IfOk result (λ carried. carried ≡ map (λ p. p.carried) processors.old.items) }
    ensures idle { (standings : List Standing) → AreStanding processors.old.items standings
        → OnOk result (AreIdle processors.new.items standings) }
{
    let mut carried = List::new(alloc);
    for place in 0..processors.len() {
        carried.push(processors[place].finish(alloc))?;
    }
    Ok(carried)
}
