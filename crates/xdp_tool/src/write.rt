ghost use Rattle.std.specs.Prelude.{◌≡◌, ◌⊎◌, ◌≤◌, ◌++◌, List, [], length, if◌then◌else◌, IsTrue, OnOk, OnErr};
ghost use Rattle.xdp_state.specs.Book.{after};
ghost use Rattle.xdp_state.specs.Sums.{Past, past_with};
ghost use Rattle.xdp_state.specs.declared.carried.Carried.{Carried};
ghost use Rattle.xdp_state.specs.declared.change.Change.{Change};
ghost use Rattle.xdp_tool.specs.Closing.{IsClosed, IsReady, Shows};
ghost use Rattle.xdp_tool.specs.PhaseEnd.{PutsText};
ghost use Rattle.xdp_tool.specs.Plan.{Phase};
ghost use Rattle.xdp_tool.specs.Texts.{phase_text};
ghost use Rattle.xdp_tool.specs.Trace.{phase_trace, traced_text};
ghost use Rattle.xio.specs.Causes.{HasCause, Rose};

use crate::closed::Closed;
use crate::shown::Shown;
use crate::texts::phase_print;
use crate::trace_texts::phase_trace_print;
use xio::{Failed, PrintBuffer, Sink, SinkPrinter, pass_on};

/// Writes the texts of a phase through the buffer, each whole before the next one begins: to out, and then to the trace, where
/// one is wanted.
pub fn write_phase<O: Sink, T: Sink>(
    shown: &mut Shown<'_>,
    buffer: &mut PrintBuffer,
    closed: &Closed,
    traced: bool,
    out: &mut O,
    trace: &mut T,
) -> Result<(), Failed>
    requires waiting { buffer.old ≡ [] }
    requires ready { IsReady shown.old closed.now }
    requires interfaces { length shown.old.library.now.interfaces ≤ 8 }
    ensures out { IsTrue O.tells → (begun : List Change) (phase : Phase) (past : Past) (carried : List (List Carried))
        → Shows shown.old begun past carried → IsClosed closed.now begun phase carried
        → PutsText result (O.held out.old) (O.held out.new) (phase_text shown.old.library.now phase past (past_with past carried)) }
    ensures trace { IsTrue T.tells → PutsText result (T.held trace.old) (T.held trace.new)
        (traced_text traced closed.now.number closed.now.barrier closed.now.carried) }
    ensures ordered { IsTrue O.tells → IsTrue T.tells → (begun : List Change) (phase : Phase) (past : Past) (carried : List (List Carried))
        → Shows shown.old begun past carried → IsClosed closed.now begun phase carried
        → (O.held out.new ≡ O.held out.old ++ phase_text shown.old.library.now phase past (past_with past carried))
        ⊎ (T.held trace.new ≡ T.held trace.old) }
    ensures fault { OnErr result (Rose (O.faults out.old) (O.faults out.new) ⊎ Rose (T.faults trace.old) (T.faults trace.new)) }
    ensures out_later { O.faults out.old ≤ O.faults out.new }
    ensures trace_later { T.faults trace.old ≤ T.faults trace.new }
    ensures same_out { O.setting out.new ≡ O.setting out.old }
    ensures same_trace { T.setting trace.new ≡ T.setting trace.old }
    ensures waiting { OnOk result (buffer.new ≡ []) }
    ensures book { (begun : List Change) (phase : Phase) (past : Past) (carried : List (List Carried))
        → Shows shown.old begun past carried → IsClosed closed.now begun phase carried
        → OnOk result (shown.new.book ≡ after phase.work.published) }
    ensures same { shown.new ≡ record shown.old { book = shown.new.book } }
{
    write_out(out, buffer, shown, closed)?;
    write_trace(trace, buffer, traced, closed)
}

/// Writes what is printed of a phase.
fn write_out<O: Sink>(
    out: &mut O,
    buffer: &mut PrintBuffer,
    shown: &mut Shown<'_>,
    closed: &Closed,
) -> Result<(), Failed>
    requires waiting { buffer.old ≡ [] }
    requires ready { IsReady shown.old closed.now }
    requires interfaces { length shown.old.library.now.interfaces ≤ 8 }
    ensures text { IsTrue O.tells → (begun : List Change) (phase : Phase) (past : Past) (carried : List (List Carried))
        → Shows shown.old begun past carried → IsClosed closed.now begun phase carried
        → PutsText result (O.held out.old) (O.held out.new) (phase_text shown.old.library.now phase past (past_with past carried)) }
    ensures cause { HasCause (O.faults out.old) (O.faults out.new) result }
    ensures same_setting { O.setting out.new ≡ O.setting out.old }
    ensures waiting { OnOk result (buffer.new ≡ []) }
    ensures book { (begun : List Change) (phase : Phase) (past : Past) (carried : List (List Carried))
        → Shows shown.old begun past carried → IsClosed closed.now begun phase carried
        → OnOk result (shown.new.book ≡ after phase.work.published) }
    ensures same { shown.new ≡ record shown.old { book = shown.new.book } }
{
    let mut printer = SinkPrinter { sink: out, buffer };
    let printed = phase_print(&mut printer, shown, closed);
    let SinkPrinter { sink, buffer } = printer;
    match printed {
        Ok(()) => pass_on(sink, buffer),
        Err(failed) => Err(failed),
    }
}

/// Writes the trace of a phase, where one is wanted.
fn write_trace<T: Sink>(
    trace: &mut T,
    buffer: &mut PrintBuffer,
    traced: bool,
    closed: &Closed,
) -> Result<(), Failed>
    requires waiting { buffer.old ≡ [] }
    ensures text { IsTrue T.tells → PutsText result (T.held trace.old) (T.held trace.new)
        (traced_text traced closed.now.number closed.now.barrier closed.now.carried) }
    ensures cause { HasCause (T.faults trace.old) (T.faults trace.new) result }
    ensures same_setting { T.setting trace.new ≡ T.setting trace.old }
    ensures waiting { OnOk result (buffer.new ≡ []) }
{
    if !traced {
        return Ok(());
    }
    let mut printer = SinkPrinter {
        sink: trace,
        buffer,
    };
    let printed = phase_trace_print(&mut printer, closed);
    let SinkPrinter { sink, buffer } = printer;
    match printed {
        Ok(()) => pass_on(sink, buffer),
        Err(failed) => Err(failed),
    }
}
