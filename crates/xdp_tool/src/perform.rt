ghost use Rattle.std.specs.Prelude.{◌≡◌, ◌⊎◌, ◌^◌, ◌<◌, ◌≤◌, ◌++◌, ℕ, List, [], length, take, if◌then◌else◌, IsTrue, OnOk, IfOk, IfSome, Err};
ghost use Rattle.xio.specs.Causes.{HasCause, Rose};
ghost use Rattle.xio.specs.Prefixes.{AppendsPrefix};
ghost use Rattle.xdp_state.specs.Legal.{AreLegal};
ghost use Rattle.xdp_state.specs.Library.{IsSound};
ghost use Rattle.xdp_state.specs.Standing.{Standing};
ghost use Rattle.xdp_state.specs.Sums.{Past, past_with};
ghost use Rattle.xdp_state.specs.Work.{plan_of};
ghost use Rattle.xdp_tool.specs.Order.{AppendsWhole};
ghost use Rattle.xdp_tool.specs.PhaseEnd.{EndsText, EndsChoices, OnChosen, PutsText, StopsText};
ghost use Rattle.xdp_tool.specs.Plan.{Phase, closed, has_refusal, next_of, plan, works_of};
ghost use Rattle.xdp_tool.specs.Ran.{AllWithin, AreLegalOf, IsStanding, Stands, carried_by, last_counts, standings_by};
ghost use Rattle.xdp_tool.specs.Replaying.{DiffersAt, GoesOn, HasLasts, IsReplayedTo};
ghost use Rattle.xdp_tool.specs.Runnable.{IsPerformable};
ghost use Rattle.xdp_tool.specs.Sinks.{FillsSink, IsOrdered, IsSettled, IsUnbegun, KeepsSink, Performs, Rises};
ghost use Rattle.xdp_tool.specs.Texts.{phase_text};
ghost use Rattle.script_text.specs.Trace.{first_line};
ghost use Rattle.xdp_tool.specs.Trace.{traced_text};
ghost use Rattle.xdp_tool.specs.Traversed.{out_for, trace_for, traces_for};
ghost use Rattle.xdp_tool.specs.Walked.{Begun, begun_after};

use crate::counts::CarryEnd;
use crate::performance::Performance;
use crate::run::Run;
use crate::write::write_phase;
use std::alloc::Global;
use xdp_state::Choices;
use xio::{Failed, Sink, write_all};

/// Why a script didn't run to its end.
#[derive(Clone, Copy, Debug, PartialEq, Eq)]
pub enum Stop {
    Fault,
    OutOfMemory,
    /// This line of the replayed trace, from 1, is the first that no run of the script writes.
    Differs { line: u32 },
}

/// Runs a script, and answers whether a command was refused. The choices get each phase that ended, whose text is then
/// written to out, and its trace where one is wanted. Out is flushed however the run ends, and the trace after it where the
/// script ran to its end or the replayed trace differs.
pub fn perform<O: Sink, T: Sink>(
    alloc: Global,
    performed: &Performance,
    traced: bool,
    out: &mut O,
    trace: &mut T,
    choices: &mut Choices,
) -> Result<bool, Stop>
    requires none { choices.old ≡ [] }
    requires performable { IsPerformable performed.now }
    ensures performed { Performs performed.now choices.new result }
    ensures out { IsTrue O.tells → FillsSink O.held O.flushed out.old out.new
        (out_for performed.now.script.library (plan performed.now.script) choices.new) result }
    ensures settled { IsTrue O.tells → IsSettled O.held O.flushed O.faults out.old out.new }
    ensures trace { IsTrue T.tells → FillsSink T.held T.flushed trace.old trace.new
        (trace_for traced performed.now.script.library (plan performed.now.script) choices.new) result }
    ensures begun { IsTrue T.tells → AppendsWhole (T.held trace.old) (T.held trace.new) (if traced then first_line else [])
        ⊎ IsUnbegun O.tells (O.held out.old) (O.held out.new) choices.new }
    ensures ordered { IsTrue O.tells → IsTrue T.tells → IsOrdered traced performed.now.script.library (plan performed.now.script) choices.new
        (O.held out.old) (O.held out.new) (λ text. AppendsPrefix (T.held trace.old) (T.held trace.new) text) }
    ensures fault { result ≡ Err Stop.Fault → Rises O.faults out.old out.new ⊎ Rises T.faults trace.old trace.new }
    ensures same_out { KeepsSink O.faults O.setting out.old out.new }
    ensures same_trace { T.setting trace.new ≡ T.setting trace.old }
{
    let worked = work_traced(alloc, performed, traced, out, trace, choices);
    let settled = settle(out);
    match worked {
        Ok(refused) => match settled {
            Ok(()) => match settle(trace) {
                Ok(()) => Ok(refused),
                Err(_) => Err(Stop::Fault),
            },
            Err(_) => Err(Stop::Fault),
        },
        Err(Stop::Differs { line }) => {
            let _ = settle(trace);
            Err(Stop::Differs { line })
        }
        Err(Stop::Fault) => Err(Stop::Fault),
        Err(Stop::OutOfMemory) => Err(Stop::OutOfMemory),
    }
}

/// As `perform`, without the flushes.
fn work_traced<O: Sink, T: Sink>(
    alloc: Global,
    performed: &Performance,
    traced: bool,
    out: &mut O,
    trace: &mut T,
    choices: &mut Choices,
) -> Result<bool, Stop>
    requires none { choices.old ≡ [] }
    requires performable { IsPerformable performed.now }
    ensures performed { Performs performed.now choices.new result }
    ensures out { IsTrue O.tells → StopsText result (O.held out.old) (O.held out.new)
        (out_for performed.now.script.library (plan performed.now.script) choices.new) }
    ensures trace { IsTrue T.tells → StopsText result (T.held trace.old) (T.held trace.new)
        (trace_for traced performed.now.script.library (plan performed.now.script) choices.new) }
    ensures begun { IsTrue T.tells → AppendsWhole (T.held trace.old) (T.held trace.new) (if traced then first_line else [])
        ⊎ IsUnbegun O.tells (O.held out.old) (O.held out.new) choices.new }
    ensures ordered { IsTrue O.tells → IsTrue T.tells → IsOrdered traced performed.now.script.library (plan performed.now.script) choices.new
        (O.held out.old) (O.held out.new) (λ text. AppendsPrefix (T.held trace.old) (T.held trace.new) text) }
    ensures fault { result ≡ Err Stop.Fault → Rises O.faults out.old out.new ⊎ Rises T.faults trace.old trace.new }
    ensures same_out { KeepsSink O.faults O.setting out.old out.new }
    ensures same_trace { KeepsSink T.faults T.setting trace.old trace.new }
{
    match start_trace(traced, trace) {
        Ok(()) => work(alloc, performed, traced, out, trace, choices),
        Err(_) => Err(Stop::Fault),
    }
}

/// Writes the trace's first line, where a trace is wanted.
fn start_trace<T: Sink>(traced: bool, trace: &mut T) -> Result<(), Failed>
    ensures text { IsTrue T.tells → PutsText result (T.held trace.old) (T.held trace.new) (if traced then first_line else []) }
    ensures cause { HasCause (T.faults trace.old) (T.faults trace.new) result }
    ensures same_setting { T.setting trace.new ≡ T.setting trace.old }
{
    if traced {
        put(trace, b"xdptrace 1\n")
    } else {
        Ok(())
    }
}

/// Works the lines in turn, and answers whether a command was refused.
fn work<O: Sink, T: Sink>(
    alloc: Global,
    performed: &Performance,
    traced: bool,
    out: &mut O,
    trace: &mut T,
    choices: &mut Choices,
) -> Result<bool, Stop>
    requires none { choices.old ≡ [] }
    requires performable { IsPerformable performed.now }
    ensures legal { AreLegal (plan_of (works_of (plan performed.now.script))) choices.new }
    ensures covered { OnOk result (length choices.new ≡ length (plan performed.now.script)) }
    ensures refused { IfOk result (λ refused. refused ≡ has_refusal (plan performed.now.script)) }
    ensures replayed { IsReplayedTo result performed.now.script.library performed.now.trace
        (plan performed.now.script) choices.new }
    ensures out { IsTrue O.tells → StopsText result (O.held out.old) (O.held out.new)
        (out_for performed.now.script.library (plan performed.now.script) choices.new) }
    ensures trace { IsTrue T.tells → StopsText result (T.held trace.old) (T.held trace.new)
        (traces_for traced performed.now.script.library (plan performed.now.script) choices.new) }
    ensures ordered { IsTrue O.tells → IsTrue T.tells → (ended : ℕ)
        × AppendsWhole (O.held out.old) (O.held out.new)
        (out_for performed.now.script.library (plan performed.now.script) (take ended choices.new))
        × AppendsPrefix (T.held trace.old) (T.held trace.new)
        (traces_for traced performed.now.script.library (plan performed.now.script) (take ended choices.new)) }
    ensures fault { result ≡ Err Stop.Fault
        → Rose (O.faults out.old) (O.faults out.new) ⊎ Rose (T.faults trace.old) (T.faults trace.new) }
    ensures out_later { O.faults out.old ≤ O.faults out.new }
    ensures trace_later { T.faults trace.old ≤ T.faults trace.new }
    ensures same_out { O.setting out.new ≡ O.setting out.old }
    ensures same_trace { T.setting trace.new ≡ T.setting trace.old }
{
    let mut run = match Run::new(alloc, performed) {
        Ok(run) => run,
        Err(_) => return Err(Stop::OutOfMemory),
    };
    'phases: loop {
        let barrier = match run.walk_phase(alloc) {
            Ok(barrier) => barrier,
            Err(_) => return Err(Stop::OutOfMemory),
        };
        match end_phase(alloc, &mut run, barrier, traced, out, trace, choices) {
            Ok(()) => {}
            Err(stop) => return Err(stop),
        }
        if barrier.is_none() {
            return Ok(run.walk.refused);
        }
    }
}

/// Ends the phase: its counts become choices, and its texts are written.
fn end_phase<O: Sink, T: Sink>(
    alloc: Global,
    run: &mut Run<'_>,
    barrier: Option<u32>,
    traced: bool,
    out: &mut O,
    trace: &mut T,
    choices: &mut Choices,
) -> Result<(), Stop>
    requires standing { IsStanding run.old }
    requires interfaces { length run.old.walk.script.now.library.interfaces ≤ 8 }
    requires sound { IsSound run.old.walk.script.now.library }
    requires numbered { IfSome run.old.replay (λ replay. length replay.trace.now.text < 2 ^ 31) }
    ensures stands { (begun : Begun) (past : Past) (standings : List Standing) (phase : Phase)
        → Stands run.old begun past standings phase → OnOk result (Stands run.new (begun_after begun phase)
        (past_with past (carried_by run.old.walk.script.now.library standings phase (last_counts choices.new)))
        (standings_by run.old.walk.script.now.library standings phase (last_counts choices.new)) (next_of run.old.walk.script.now.library phase)) }
    ensures choices { EndsChoices result choices.old choices.new (last_counts choices.new) }
    ensures legal { (begun : Begun) (past : Past) (standings : List Standing) (phase : Phase) (lasts : List ℕ)
        → Stands run.old begun past standings phase → AllWithin (length begun.published) lasts → HasLasts run.old.replay lasts
        → OnChosen result (AreLegalOf lasts phase (last_counts choices.new)) }
    ensures replays { (begun : Begun) (past : Past) (standings : List Standing) (phase : Phase)
        → Stands run.old begun past standings phase → OnChosen result (GoesOn run.old.walk.script.now.library run.old.replay run.new.replay (length choices.old)
        standings (closed barrier phase) (last_counts choices.new)) }
    ensures differs { (begun : Begun) (past : Past) (standings : List Standing) (phase : Phase) (line : ℕ)
        → Stands run.old begun past standings phase → result ≡ Err (Stop.Differs line)
        → DiffersAt run.old.walk.script.now.library run.old.replay (length choices.old) standings (closed barrier phase) line }
    ensures out { IsTrue O.tells → (begun : Begun) (past : Past) (standings : List Standing) (phase : Phase)
        → Stands run.old begun past standings phase → EndsText result (O.held out.old) (O.held out.new)
        (phase_text run.old.walk.script.now.library (closed barrier phase) past
        (past_with past (carried_by run.old.walk.script.now.library standings phase (last_counts choices.new)))) }
    ensures trace { IsTrue T.tells → (begun : Begun) (past : Past) (standings : List Standing) (phase : Phase)
        → Stands run.old begun past standings phase → EndsText result (T.held trace.old) (T.held trace.new)
        (traced_text traced (length choices.old) barrier (carried_by run.old.walk.script.now.library standings phase (last_counts choices.new))) }
    ensures ordered { IsTrue O.tells → IsTrue T.tells → (begun : Begun) (past : Past) (standings : List Standing) (phase : Phase)
        → Stands run.old begun past standings phase → (O.held out.new ≡ O.held out.old
        ++ phase_text run.old.walk.script.now.library (closed barrier phase) past
        (past_with past (carried_by run.old.walk.script.now.library standings phase (last_counts choices.new))))
        ⊎ (T.held trace.new ≡ T.held trace.old) }
    ensures same_refused { run.new.walk.refused ≡ run.old.walk.refused }
    ensures same_next { run.new.walk.next ≡ run.old.walk.next }
    ensures same_packets { run.new.walk.packets ≡ run.old.walk.packets }
    ensures same_state { run.new.state ≡ run.old.state }
    ensures same { run.new.walk.script.now ≡ run.old.walk.script.now }
    ensures fault { result ≡ Err Stop.Fault
        → Rose (O.faults out.old) (O.faults out.new) ⊎ Rose (T.faults trace.old) (T.faults trace.new) }
    ensures out_later { O.faults out.old ≤ O.faults out.new }
    ensures trace_later { T.faults trace.old ≤ T.faults trace.new }
    ensures same_out { O.setting out.new ≡ O.setting out.old }
    ensures same_trace { T.setting trace.new ≡ T.setting trace.old }
{
    let closed = match run.close(alloc, barrier, choices) {
        Ok(closed) => closed,
        Err(CarryEnd::OutOfMemory) => return Err(Stop::OutOfMemory),
        Err(CarryEnd::Differs { line }) => return Err(Stop::Differs { line }),
    };
    match write_phase(&mut run.shown, &mut run.buffer, &closed, traced, out, trace) {
        Ok(()) => Ok(()),
        Err(_) => Err(Stop::Fault),
    }
}

/// Writes a text.
fn put<S: Sink>(sink: &mut S, text: &[u8]) -> Result<(), Failed>
    ensures text { IsTrue S.tells → PutsText result (S.held sink.old) (S.held sink.new) text.now }
    ensures cause { HasCause (S.faults sink.old) (S.faults sink.new) result }
    ensures same_setting { S.setting sink.new ≡ S.setting sink.old }
{
    match write_all(sink, text) {
        Ok(()) => Ok(()),
        Err(_) => Err(Failed),
    }
}

/// Flushes what was written.
fn settle<S: Sink>(sink: &mut S) -> Result<(), Failed>
    ensures same { IsTrue S.tells → S.held sink.new ≡ S.held sink.old }
    ensures flushed { IsTrue S.tells → OnOk result (S.flushed sink.new ≡ length (S.held sink.new)) }
    ensures settled { IsTrue S.tells → IsSettled S.held S.flushed S.faults sink.old sink.new }
    ensures cause { HasCause (S.faults sink.old) (S.faults sink.new) result }
    ensures same_setting { S.setting sink.new ≡ S.setting sink.old }
{
    sink.flush()
}
