ghost use Rattle.std.specs.Prelude.{◌≡◌, ◌≢◌, ◌^◌, ◌<◌, ◌≤◌, false, [], ◌∷◌, length, Ok, Err, Result, IfOk, IfErr, OnOk, IsTrue};
ghost use Rattle.command_line.specs.Names.{names_of};
ghost use Rattle.xdp_tool.specs.Ending.{status_of};
ghost use Rattle.xdp_tool.specs.Headline.{all_read, is_end};
ghost use Rattle.xdp_tool.specs.Named.{Gives};
ghost use Rattle.xdp_tool.specs.Outcome.{IsPerformance, reading_of, trace_at};
ghost use Rattle.xdp_tool.specs.Runnable.{IsPerformable};
ghost use Rattle.xdp_tool.specs.Sinks.{Rises};
ghost use Rattle.xdp_tool.specs.Touched.{Reads};

use crate::ending::{Ending, LimitName};
use crate::prepare::prepare;
use crate::prepared::Prepared;
use crate::replay::Trace;
use command_line::FileNames;
use script_text::{TraceEnd, read_trace};
use std::alloc::Global;
use xio::{Bytes, Files, ReadEnd, read_file};

/// The most bytes of a trace that is replayed.
const TRACE_BYTES: u64 = 201_326_592;

/// What is performed: a script with its objects, and the trace that is replayed with it, where one is.
#[derive(Debug, Drop)]
pub struct Performance {
    pub script: Prepared,
    pub trace: Option<Trace>,
}

/// What the named files hold: the script with its objects, and then the trace.
pub fn read_performance<F: Files>(
    alloc: Global,
    files: &mut F,
    named: FileNames<'_>,
) -> Result<Performance, Ending>
    ensures loaded { IsTrue F.tells → IfOk result (λ performed. IsPerformance (F.told files.old).content
        (reading_of (F.told files.old).content (names_of named.entry)) (Ok performed)) }
    ensures only { IsTrue F.tells → (performed : Result Performance Ending) → IsPerformance (F.told files.old).content
        (reading_of (F.told files.old).content (names_of named.entry)) performed → Gives result performed }
    ensures performable { IfOk result IsPerformable }
    ensures failed { IfErr result (λ ending. is_end (status_of ending) ≡ false) }
    ensures fault { result ≡ Err Ending.Fault → Rises F.read_faults files.old files.new }
    ensures same_read_faults { OnOk result (F.read_faults files.new ≡ F.read_faults files.old) }
    ensures same_write_faults { F.write_faults files.new ≡ F.write_faults files.old }
    ensures reads { IsTrue F.tells → Reads (F.told files.old) (F.told files.new)
        (all_read (F.told files.old).content (names_of named.entry)) result }
    ensures same_handles { F.handles files.new ≡ F.handles files.old }
{
    let script = match prepare(alloc, files, named.script, named.trace) {
        Ok(script) => script,
        Err(ending) => return Err(ending),
    };
    let Some(replay) = named.replay else {
        return Ok(Performance {
            script,
            trace: None,
        });
    };
    match trace_from(alloc, files, replay) {
        Ok(trace) => Ok(Performance {
            script,
            trace: Some(trace),
        }),
        Err(ending) => Err(ending),
    }
}

/// The trace in the named file.
fn trace_from<F: Files>(alloc: Global, files: &mut F, name: &str) -> Result<Trace, Ending>
    ensures trace { IsTrue F.tells → Gives result (trace_at ((F.told files.old).content name.now)) }
    ensures numbered { IfOk result (λ trace. length trace.text < 2 ^ 31) }
    ensures failed { IfErr result (λ ending. is_end (status_of ending) ≡ false) }
    ensures fault { result ≡ Err Ending.Fault → Rises F.read_faults files.old files.new }
    ensures same_read_faults { OnOk result (F.read_faults files.new ≡ F.read_faults files.old) }
    ensures same_write_faults { F.write_faults files.new ≡ F.write_faults files.old }
    ensures reads { IsTrue F.tells → Reads (F.told files.old) (F.told files.new) (name.now ∷ []) result }
    ensures same_handles { F.handles files.new ≡ F.handles files.old }
{
    let mut text = Bytes::new(alloc);
    match read_file(files, name, TRACE_BYTES, &mut text) {
        Ok(()) => trace_in(alloc, text),
        Err(ReadEnd::ReadFault) => Err(Ending::Fault),
        Err(ReadEnd::TooLarge { .. }) => Err(Ending::Limit(LimitName::Trace)),
        Err(ReadEnd::OutOfMemory) => Err(Ending::OutOfMemory),
    }
}

/// The trace of this text.
fn trace_in(alloc: Global, text: Bytes) -> Result<Trace, Ending>
    requires { length text ≤ 201326592 }
    ensures trace { Gives result (trace_at text) }
    ensures text { IfOk result (λ trace. trace.text ≡ text) }
    ensures failed { IfErr result (λ ending. is_end (status_of ending) ≡ false) }
    ensures no_fault { result ≢ Err Ending.Fault }
{
    match read_trace(alloc, text.as_slice()) {
        Ok(choices) => Ok(Trace { text, choices }),
        Err(TraceEnd::BadTrace { line }) => Err(Ending::TraceDiffers { line }),
        Err(TraceEnd::OutOfMemory) => Err(Ending::OutOfMemory),
    }
}
