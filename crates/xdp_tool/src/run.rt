ghost use Rattle.std.specs.Prelude.{◌≡◌, ◌^◌, ◌<◌, ◌≤◌, ◌++◌, ◌∷◌, ℕ, List, [], length, drop, Err, IfOk, IfSome, OnOk, OnErr, IsSome};
ghost use Rattle.xdp_state.specs.Library.{IsSound};
ghost use Rattle.xdp_state.specs.Standing.{Standing};
ghost use Rattle.xdp_state.specs.Sums.{Past, no_past};
ghost use Rattle.xdp_tool.specs.Traversed.{standings_of};
ghost use Rattle.xdp_tool.specs.Plan.{Phase, closed, next_of, opened};
ghost use Rattle.xdp_tool.specs.Queues.{queues_of};
ghost use Rattle.xdp_tool.specs.Runnable.{IsRunnable};
ghost use Rattle.xdp_tool.specs.Walked.{Begun, begun_after, no_begun};

use crate::carrier::Carrier;
use crate::closed::Closed;
use crate::counts::{CarriedPhase, CarryEnd, PhaseEnd, carry};
use crate::performance::Performance;
use crate::queue::queues_of;
use crate::replay::Replay;
use crate::shown::Shown;
use crate::turn::Turn;
use crate::walk::Walk;
use std::alloc::Global;
use xdp_state::{Choices, State, Sums};
use xio::{OutOfMemory, PrintBuffer};

/// A run of a script: its walk with the state after all publications, the carrier, the trace that it replays, what the texts show
/// as the last phase left it, and the buffer through which they are written.
#[derive(Debug, Drop)]
pub struct Run<'a> {
    pub walk: Walk<'a>,
    pub state: State,
    pub carrier: Carrier,
    pub replay: Option<Replay<'a>>,
    pub shown: Shown<'a>,
    pub buffer: PrintBuffer,
}

impl<'a> Run<'a> {
    ghost use Rattle.xdp_tool.specs.Closing.{IsClosed, Shows};
    ghost use Rattle.xdp_tool.specs.Ran.{AllWithin, AreLegalOf, Ends, HasRoom, IsUnderWay, Stands, carried_by, last_counts, standings_by};
    ghost use Rattle.xdp_tool.specs.Replaying.{DiffersAt, GoesOn, HasLasts, StartsReplay};

    /// Before the first line.
    pub fn new(alloc: Global, performed: &'a Performance) -> Result<Self, OutOfMemory>
        requires { length performed.now.script.library.interfaces ≤ 8 }
        ensures start { IfOk result (λ run. Stands run no_begun (no_past (length (queues_of performed.now.script.library.interfaces)))
            (standings_of (queues_of performed.now.script.library.interfaces)) (opened (length (queues_of performed.now.script.library.interfaces)) [] 0)) }
        ensures same { IfOk result (λ run. run.walk.script.now ≡ performed.now.script) }
        ensures room { IfOk result (λ run. HasRoom run) }
        ensures next { IfOk result (λ run. run.walk.next ≡ 0) }
        ensures replay { IfOk result (λ run. StartsReplay run.replay performed.now.trace) }
    {
        let script = &performed.script;
        let queues = queues_of(alloc, &script.library.interfaces)?;
        let replay = match &performed.trace {
            Some(trace) => Some(Replay::new(alloc, trace)),
            None => None,
        };
        Ok(Run {
            walk: Walk::new(alloc, script, queues.len() as usize)?,
            state: State::new(alloc)?,
            carrier: Carrier::new(alloc, queues.as_slice())?,
            replay,
            shown: Shown {
                library: &script.library,
                book: State::new(alloc)?,
                sums: Sums::new(alloc, queues.len())?,
                queues,
            },
            buffer: PrintBuffer::new(alloc)?,
        })
    }

    /// Walks to the end of the phase, and publishes what is accepted. Answers the line of the barrier that ends it.
    pub fn walk_phase(&mut self, alloc: Global) -> Result<Option<u32>, OutOfMemory>
        requires script { IsRunnable self.old.walk.script.now }
        requires room { HasRoom self.old }
        ensures ends { (begun : Begun) (past : Past) (standings : List Standing) (phase : Phase)
            → Stands self.old begun past standings phase → IfOk result (λ barrier. Ends self.new begun past standings barrier phase
            (drop self.old.walk.next self.old.walk.script.now.lines)) }
        ensures moves { IfOk result (λ barrier. IsSome barrier → self.old.walk.next < self.new.walk.next) }
        ensures has_room { OnOk result (HasRoom self.new) }
        ensures same { self.new.walk.script.now ≡ self.old.walk.script.now }
        ensures same_replay { self.new.replay ≡ self.old.replay }
    {
        'turns: loop {
            match self.walk.next(alloc, &self.state)? {
                Turn::Publish(change) => self.state.absorb(&change),
                Turn::HandIn { .. } => {}
                Turn::Again => {}
                Turn::End { barrier } => return Ok(barrier),
            }
        }
    }

    /// Ends the phase, at the barrier of this line or at the script's end, and opens the next one. Its packets are carried with the
    /// counts of the replayed trace, which has to be that of the phase, or each with as many publications as there were at its
    /// hand-in; these counts are the next choices. No memory is wanted any more for the phase's texts; the rules that are shown are
    /// still those at its beginning.
    pub fn close(
        &mut self,
        alloc: Global,
        barrier: Option<u32>,
        choices: &mut Choices,
    ) -> Result<Closed, CarryEnd>
        requires sound { IsSound self.old.walk.script.now.library }
        requires numbered { IfSome self.old.replay (λ replay. length replay.trace.now.text < 2 ^ 31) }
        ensures closes { (begun : Begun) (past : Past) (standings : List Standing) (phase : Phase)
            → Stands self.old begun past standings phase → IfOk result (λ done. IsClosed done begun.published (closed barrier phase)
            (carried_by self.old.walk.script.now.library standings phase (last_counts choices.new))) }
        ensures shows { (begun : Begun) (past : Past) (standings : List Standing) (phase : Phase)
            → Stands self.old begun past standings phase
            → OnOk result (Shows self.new.shown begun.published past (carried_by self.old.walk.script.now.library standings phase (last_counts choices.new))) }
        ensures walks { (begun : Begun) (past : Past) (standings : List Standing) (phase : Phase)
            → Stands self.old begun past standings phase → OnOk result (IsUnderWay self.new (begun_after begun phase)
            (standings_by self.old.walk.script.now.library standings phase (last_counts choices.new)) (next_of self.old.walk.script.now.library phase)) }
        ensures chosen { OnOk result (choices.new ≡ choices.old ++ last_counts choices.new ∷ []) }
        ensures not_chosen { OnErr result (choices.new ≡ choices.old) }
        ensures legal { (begun : Begun) (past : Past) (standings : List Standing) (phase : Phase) (lasts : List ℕ)
            → Stands self.old begun past standings phase → AllWithin (length begun.published) lasts → HasLasts self.old.replay lasts
            → OnOk result (AreLegalOf lasts phase (last_counts choices.new)) }
        ensures replays { (begun : Begun) (past : Past) (standings : List Standing) (phase : Phase)
            → Stands self.old begun past standings phase → OnOk result (GoesOn self.old.walk.script.now.library self.old.replay self.new.replay (length choices.old)
            standings (closed barrier phase) (last_counts choices.new)) }
        ensures differs { (begun : Begun) (past : Past) (standings : List Standing) (phase : Phase) (line : ℕ)
            → Stands self.old begun past standings phase → result ≡ Err (CarryEnd.Differs line)
            → DiffersAt self.old.walk.script.now.library self.old.replay (length choices.old) standings (closed barrier phase) line }
        ensures numbered { IfOk result (λ done. (done.number ≡ length choices.old) × (done.barrier ≡ barrier)) }
        ensures same_refused { self.new.walk.refused ≡ self.old.walk.refused }
        ensures same_next { self.new.walk.next ≡ self.old.walk.next }
        ensures same_packets { self.new.walk.packets ≡ self.old.walk.packets }
        ensures same_state { self.new.state ≡ self.old.state }
        ensures same { self.new.walk.script.now ≡ self.old.walk.script.now }
    {
        let number = choices.len();
        let end = PhaseEnd {
            number,
            barrier,
            published: self.state.count(),
        };
        let done = match carry(alloc, &mut self.carrier, &self.walk, &mut self.replay, end) {
            Ok(done) => done,
            Err(stop) => return Err(stop),
        };
        let CarriedPhase { counts, carried } = done;
        self.shown.sums.add(alloc, carried.as_slice())?;
        let (items, changes) = self.walk.open_next(alloc)?;
        choices.push(counts)?;
        Ok(Closed {
            number,
            barrier,
            items,
            changes,
            carried,
        })
    }
}
