ghost use Rattle.std.specs.Prelude.{◌≡◌, ◌⊎◌, true, [], IsTrue, Err, Some};
ghost use Rattle.xdp_tool.specs.Plan.{plan};
ghost use Rattle.xdp_tool.specs.Runnable.{IsPerformable};
ghost use Rattle.xdp_tool.specs.Sinks.{FillsFile, FillsSink, HasBegun, IsOrdered, IsSettled, IsTracedUpTo, IsUnbegun, KeepsSink, Performs, Rises};
ghost use Rattle.xdp_tool.specs.Touched.{Makes};
ghost use Rattle.xdp_tool.specs.Traversed.{out_for, trace_for};

use crate::early::flush_early;
use crate::perform::{Stop, perform};
use crate::performance::Performance;
use std::alloc::Global;
use xdp_state::Choices;
use xio::{FileFault, FileSink, Files, Sink};

/// As `perform`, with the trace in the named file, which is made. Where it can't be made nothing is printed.
pub fn perform_into<F: Files, O: Sink>(
    alloc: Global,
    performed: &Performance,
    files: &mut F,
    name: &str,
    out: &mut O,
    choices: &mut Choices,
) -> Result<bool, Stop>
    requires none { choices.old ≡ [] }
    requires performable { IsPerformable performed.now }
    ensures performed { Performs performed.now choices.new result }
    ensures out { IsTrue O.tells → FillsSink O.held O.flushed out.old out.new
        (out_for performed.now.script.library (plan performed.now.script) choices.new) result }
    ensures settled { IsTrue O.tells → IsSettled O.held O.flushed O.faults out.old out.new }
    ensures trace { IsTrue F.tells → FillsFile (F.told files.old) (F.told files.new)
        (trace_for true performed.now.script.library (plan performed.now.script) choices.new) result name.now }
    ensures begun { IsTrue F.tells → HasBegun (F.told files.old) (F.told files.new) name.now
        ⊎ IsUnbegun O.tells (O.held out.old) (O.held out.new) choices.new }
    ensures ordered { IsTrue F.tells → IsTrue O.tells → IsOrdered true performed.now.script.library (plan performed.now.script) choices.new
        (O.held out.old) (O.held out.new) (λ text. IsTracedUpTo (F.told files.old) (F.told files.new) text name.now) }
    ensures makes { IsTrue F.tells → Makes (F.told files.old) (F.told files.new) (Some name.now) }
    ensures same_handles { F.handles files.new ≡ F.handles files.old }
    ensures fault { result ≡ Err Stop.Fault → Rises O.faults out.old out.new ⊎ Rises F.write_faults files.old files.new }
    ensures same_read_faults { F.read_faults files.new ≡ F.read_faults files.old }
    ensures same_out { KeepsSink O.faults O.setting out.old out.new }
{
    let file = match files.make_file(name) {
        Ok(file) => file,
        Err(FileFault::Failed) => {
            flush_early(out);
            return Err(Stop::Fault);
        }
        Err(FileFault::OutOfMemory) => {
            flush_early(out);
            return Err(Stop::OutOfMemory);
        }
    };
    let mut trace = FileSink { files, file };
    let result = perform(alloc, performed, true, out, &mut trace, choices);
    let FileSink { files, file } = trace;
    files.close(file);
    result
}
