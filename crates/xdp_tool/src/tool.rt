ghost use Rattle.std.specs.Prelude.{◌≡◌, ◌≢◌, ◌⊎◌, ◌++◌, true, false, [], length, IsTrue, IfErr, IfSome, is_err, Ok, Err, Result};
ghost use Rattle.xio.specs.Prefixes.{AppendsPrefix, AppendsUnless};
ghost use Rattle.xdp_tool.specs.Ending.{line_of, status_of};
ghost use Rattle.xdp_tool.specs.Headline.{is_status, is_decided, is_end, is_whole, HoldsTrace, IsDecided, IsExplained, IsPreparedBy, OnReplayed, out_of, trace_of, said, names_by, reading_by, replay_by, replay_words, asked_names, trace_name, made_name};
ghost use Rattle.xdp_tool.specs.Named.{name_of};
ghost use Rattle.xdp_tool.specs.Outcome.{Cut, Whole, ending_after, library_of, phases_of};
ghost use Rattle.xdp_tool.specs.Plan.{plan};
ghost use Rattle.xdp_tool.specs.Run.{ending_of};
ghost use Rattle.xdp_tool.specs.Runnable.{IsPerformable};
ghost use Rattle.xdp_tool.specs.Sinks.{FillsFile, FillsSink, HasBegun, IsOrdered, IsSettled, IsTraced, IsTracedUpTo, IsUnbegun, KeepsSink, LeavesOut, LeavesTrace, Performs, Rises};
ghost use Rattle.xdp_tool.specs.TraceOf.{IsNoTrace, IsTraceOf};
ghost use Rattle.xdp_tool.specs.Touched.{IsReadWhole, IsUnmade, Makes, Touches};
ghost use Rattle.xdp_tool.specs.Traversed.{out_for, trace_for};

use crate::early::flush_early;
use crate::ended::Ended;
use crate::ending::Ending;
use crate::perform::{Stop, perform};
use crate::performance::{Performance, read_performance};
use crate::tell::tell;
use crate::traced::perform_into;
use crate::words::names_in;
use command_line::wants_replay;
use std::alloc::Global;
use xdp_state::Choices;
use xio::{Files, Sink, SteadySink};

/// Runs the script that the words name, prints to out what comes of it, writes the trace where one is wanted, and says on
/// err why it ended early. With words that ask for a replay it answers what `replay_tool` answers.
pub fn run_tool<F: Files, O: Sink, E: Sink>(
    alloc: Global,
    words: &[String],
    files: &mut F,
    out: &mut O,
    err: &mut E,
) -> Ended
    // Want of memory is free; any other status but that of a fault is a function of words and files.
    ensures known { is_status result.status ≡ true }
    ensures no_line { is_decided result.status ≡ false → result.line ≡ 0 }
    ensures decided { IsTrue F.tells → is_decided result.status ≡ true → (script : Result Performance Ending)
        → IsPreparedBy (names_by words.now) (F.told files.old) script → IsDecided script result.status result.line }
    // A fault comes only where the files or out failed in this call, and before the first line only where a read did.
    ensures fault { result.status ≡ 3 → Rises F.read_faults files.old files.new
        ⊎ Rises F.write_faults files.old files.new ⊎ Rises O.faults out.old out.new }
    ensures early_fault { IsTrue F.tells → is_err (reading_by (names_by words.now) (F.told files.old)) ≡ true → result.status ≡ 3
        → Rises F.read_faults files.old files.new }
    // The choices are legal, and out and the trace are the fronts of their texts for them, each phase first in out.
    ensures explained { IsTrue F.tells → (script : Result Performance Ending) → IsPreparedBy (names_by words.now) (F.told files.old) script
        → (cut : Cut) × IsExplained script result.status result.choices cut
        × (IsTrue O.tells → AppendsPrefix (O.held out.old) (O.held out.new) (out_of script cut result.choices))
        × IfSome (trace_name (names_by words.now))
        (IsTracedUpTo (F.told files.old) (F.told files.new) (trace_of script cut result.choices)) }
    ensures ordered { IsTrue F.tells → IsTrue O.tells → (script : Result Performance Ending)
        → IsPreparedBy (names_by words.now) (F.told files.old) script → IsOrdered true (library_of script) (phases_of script Whole) result.choices (O.held out.old) (O.held out.new)
        (λ text. IfSome (trace_name (names_by words.now)) (IsTracedUpTo (F.told files.old) (F.told files.new) text)) }
    // Out and the trace are whole where the script ran to its end, and flushed, and whole where a trace differs; out is always flushed.
    ensures whole { IsTrue F.tells → IsTrue O.tells → is_whole result.status ≡ true → (script : Result Performance Ending)
        → IsPreparedBy (names_by words.now) (F.told files.old) script
        → O.held out.new ≡ O.held out.old ++ out_of script Whole result.choices }
    ensures limit { IsTrue F.tells → IsTrue O.tells → result.status ≡ 5 → (script : Result Performance Ending)
        → IsPreparedBy (names_by words.now) (F.told files.old) script
        → AppendsUnless (Rises F.write_faults files.old files.new ⊎ Rises O.faults out.old out.new) (O.held out.old)
        (O.held out.new) (out_of script Whole result.choices) }
    ensures flushed { IsTrue O.tells → is_end result.status ≡ true → O.flushed out.new ≡ length (O.held out.new) }
    ensures settled { IsTrue O.tells → IsSettled O.held O.flushed O.faults out.old out.new }
    ensures traced { IsTrue F.tells → is_end result.status ≡ true → (script : Result Performance Ending)
        → IsPreparedBy (names_by words.now) (F.told files.old) script → IfSome (trace_name (names_by words.now))
        (IsTraced (F.told files.new) (trace_of script Whole result.choices)) }
    ensures trace_whole { IsTrue F.tells → is_whole result.status ≡ true → (script : Result Performance Ending)
        → IsPreparedBy (names_by words.now) (F.told files.old) script → HoldsTrace (names_by words.now) script (F.told files.new) result.choices }
    // A replay runs to the script's end exactly where the file is the trace of a run of the script, and then with its counts.
    ensures replayed { IsTrue F.tells → is_end result.status ≡ true
        → OnReplayed (names_by words.now) (F.told files.old) (λ script text. IsTraceOf script result.choices text) }
    ensures differs { IsTrue F.tells → result.status ≡ 6 → OnReplayed (names_by words.now) (F.told files.old) IsNoTrace }
    // Nothing is made or printed before the script, its objects and the replayed trace were read to their ends, which then give what
    // is run; nor is anything printed before the trace has its first line.
    ensures read_first { IsTrue F.tells → (IsReadWhole F.told F.read_faults files.old files.new
        (asked_names (names_by words.now) (F.told files.old).content)
        × (script : Performance) × IsPreparedBy (names_by words.now) (F.told files.old) (Ok script))
        ⊎ (IsUnbegun O.tells (O.held out.old) (O.held out.new) result.choices × IsUnmade (F.told files.old) (F.told files.new)) }
    ensures begun { IsTrue F.tells → IfSome (trace_name (names_by words.now)) (λ name. HasBegun (F.told files.old)
        (F.told files.new) name ⊎ IsUnbegun O.tells (O.held out.old) (O.held out.new) result.choices) }
    // Only the files of the script, of its objects and of the replayed trace are asked for, the trace's file is made once and no other
    // one changed, and none stays open.
    ensures touched { IsTrue F.tells → Touches (F.told files.old) (F.told files.new)
        (asked_names (names_by words.now) (F.told files.old).content)
        (made_name (names_by words.now) (reading_by (names_by words.now) (F.told files.old))) }
    ensures same_handles { F.handles files.new ≡ F.handles files.old }
    // Err has its text whole, or its front where err failed. What out and err are stays.
    ensures err_told { IsTrue E.tells → (is_decided result.status ≡ true → IsTrue F.tells)
        → (script : Result Performance Ending) → IsPreparedBy (names_by words.now) (F.told files.old) script
        → AppendsUnless (Rises E.faults err.old err.new) (E.held err.old) (E.held err.new) (said script result.status) }
    ensures same_out { O.setting out.new ≡ O.setting out.old }
    ensures same_err { E.setting err.new ≡ E.setting err.old }
{
    let mut choices = Choices::new(alloc);
    let ending = run(alloc, words, files, out, &mut choices);
    ended_so(tell(alloc, err, ending), choices)
}

/// As `run_tool`, of words that ask for a replay: each packet is carried with the count that the trace has for it. Other words
/// aren't taken.
pub fn replay_tool<F: Files, O: Sink, E: Sink>(
    alloc: Global,
    words: &[String],
    files: &mut F,
    out: &mut O,
    err: &mut E,
) -> Ended
    // Want of memory is free; any other status but that of a fault is a function of words and files.
    ensures known { is_status result.status ≡ true }
    ensures no_line { is_decided result.status ≡ false → result.line ≡ 0 }
    ensures decided { IsTrue F.tells → is_decided result.status ≡ true → (script : Result Performance Ending)
        → IsPreparedBy (replay_by words.now) (F.told files.old) script → IsDecided script result.status result.line }
    // A fault comes only where the files or out failed in this call, and before the first line only where a read did.
    ensures fault { result.status ≡ 3 → Rises F.read_faults files.old files.new
        ⊎ Rises F.write_faults files.old files.new ⊎ Rises O.faults out.old out.new }
    ensures early_fault { IsTrue F.tells → is_err (reading_by (replay_by words.now) (F.told files.old)) ≡ true → result.status ≡ 3
        → Rises F.read_faults files.old files.new }
    // The choices are legal, and out and the trace are the fronts of their texts for them, each phase first in out.
    ensures explained { IsTrue F.tells → (script : Result Performance Ending) → IsPreparedBy (replay_by words.now) (F.told files.old) script
        → (cut : Cut) × IsExplained script result.status result.choices cut
        × (IsTrue O.tells → AppendsPrefix (O.held out.old) (O.held out.new) (out_of script cut result.choices))
        × IfSome (trace_name (replay_by words.now))
        (IsTracedUpTo (F.told files.old) (F.told files.new) (trace_of script cut result.choices)) }
    ensures ordered { IsTrue F.tells → IsTrue O.tells → (script : Result Performance Ending)
        → IsPreparedBy (replay_by words.now) (F.told files.old) script → IsOrdered true (library_of script) (phases_of script Whole) result.choices (O.held out.old) (O.held out.new)
        (λ text. IfSome (trace_name (replay_by words.now)) (IsTracedUpTo (F.told files.old) (F.told files.new) text)) }
    // Out and the trace are whole where the script ran to its end, and flushed, and whole where a trace differs; out is always flushed.
    ensures whole { IsTrue F.tells → IsTrue O.tells → is_whole result.status ≡ true → (script : Result Performance Ending)
        → IsPreparedBy (replay_by words.now) (F.told files.old) script
        → O.held out.new ≡ O.held out.old ++ out_of script Whole result.choices }
    ensures limit { IsTrue F.tells → IsTrue O.tells → result.status ≡ 5 → (script : Result Performance Ending)
        → IsPreparedBy (replay_by words.now) (F.told files.old) script
        → AppendsUnless (Rises F.write_faults files.old files.new ⊎ Rises O.faults out.old out.new) (O.held out.old)
        (O.held out.new) (out_of script Whole result.choices) }
    ensures flushed { IsTrue O.tells → is_end result.status ≡ true → O.flushed out.new ≡ length (O.held out.new) }
    ensures settled { IsTrue O.tells → IsSettled O.held O.flushed O.faults out.old out.new }
    ensures traced { IsTrue F.tells → is_end result.status ≡ true → (script : Result Performance Ending)
        → IsPreparedBy (replay_by words.now) (F.told files.old) script → IfSome (trace_name (replay_by words.now))
        (IsTraced (F.told files.new) (trace_of script Whole result.choices)) }
    ensures trace_whole { IsTrue F.tells → is_whole result.status ≡ true → (script : Result Performance Ending)
        → IsPreparedBy (replay_by words.now) (F.told files.old) script → HoldsTrace (replay_by words.now) script (F.told files.new) result.choices }
    // A replay runs to the script's end exactly where the file is the trace of a run of the script, and then with its counts.
    ensures replayed { IsTrue F.tells → is_end result.status ≡ true
        → OnReplayed (replay_by words.now) (F.told files.old) (λ script text. IsTraceOf script result.choices text) }
    ensures differs { IsTrue F.tells → result.status ≡ 6 → OnReplayed (replay_by words.now) (F.told files.old) IsNoTrace }
    // Nothing is made or printed before the script, its objects and the replayed trace were read to their ends, which then give what
    // is run; nor is anything printed before the trace has its first line.
    ensures read_first { IsTrue F.tells → (IsReadWhole F.told F.read_faults files.old files.new
        (asked_names (replay_by words.now) (F.told files.old).content)
        × (script : Performance) × IsPreparedBy (replay_by words.now) (F.told files.old) (Ok script))
        ⊎ (IsUnbegun O.tells (O.held out.old) (O.held out.new) result.choices × IsUnmade (F.told files.old) (F.told files.new)) }
    ensures begun { IsTrue F.tells → IfSome (trace_name (replay_by words.now)) (λ name. HasBegun (F.told files.old)
        (F.told files.new) name ⊎ IsUnbegun O.tells (O.held out.old) (O.held out.new) result.choices) }
    // Only the files of the script, of its objects and of the replayed trace are asked for, the trace's file is made once and no other
    // one changed, and none stays open.
    ensures touched { IsTrue F.tells → Touches (F.told files.old) (F.told files.new)
        (asked_names (replay_by words.now) (F.told files.old).content)
        (made_name (replay_by words.now) (reading_by (replay_by words.now) (F.told files.old))) }
    ensures same_handles { F.handles files.new ≡ F.handles files.old }
    // Err has its text whole, or its front where err failed. What out and err are stays.
    ensures err_told { IsTrue E.tells → (is_decided result.status ≡ true → IsTrue F.tells)
        → (script : Result Performance Ending) → IsPreparedBy (replay_by words.now) (F.told files.old) script
        → AppendsUnless (Rises E.faults err.old err.new) (E.held err.old) (E.held err.new) (said script result.status) }
    ensures same_out { O.setting out.new ≡ O.setting out.old }
    ensures same_err { E.setting err.new ≡ E.setting err.old }
{
    run_tool(alloc, replay_words(words), files, out, err)
}

/// The words where they ask for a replay, and otherwise none, which aren't taken.
fn replay_words(words: &[String]) -> &[String]
    ensures { result.now ≡ replay_words words.now }
{
    if wants_replay(words) { words } else { &[] }
}

/// A run that ended so, with these choices.
fn ended_so(ending: Ending, choices: Choices) -> Ended
    ensures status { result.status ≡ status_of ending }
    ensures line { result.line ≡ line_of ending }
    ensures choices { result.choices ≡ choices }
{
    Ended {
        status: ending.status(),
        line: ending.line(),
        choices,
    }
}

/// Runs the script that the words name, and answers how the run ends.
fn run<F: Files, O: Sink>(
    alloc: Global,
    words: &[String],
    files: &mut F,
    out: &mut O,
    choices: &mut Choices,
) -> Ending
    requires none { choices.old ≡ [] }
    ensures decided { IsTrue F.tells → is_decided (status_of result) ≡ true → (script : Result Performance Ending)
        → IsPreparedBy (names_by words.now) (F.told files.old) script → result ≡ ending_after script }
    ensures fault { result ≡ Ending.Fault → Rises F.read_faults files.old files.new
        ⊎ Rises F.write_faults files.old files.new ⊎ Rises O.faults out.old out.new }
    ensures early_fault { IsTrue F.tells → is_err (reading_by (names_by words.now) (F.told files.old)) ≡ true → result ≡ Ending.Fault
        → Rises F.read_faults files.old files.new }
    ensures explained { IsTrue F.tells → (script : Result Performance Ending) → IsPreparedBy (names_by words.now) (F.told files.old) script
        → IsExplained script (status_of result) choices.new Whole }
    ensures out { IsTrue F.tells → IsTrue O.tells → (script : Result Performance Ending)
        → IsPreparedBy (names_by words.now) (F.told files.old) script → LeavesOut O.held out.old out.new
        (out_of script Whole choices.new) (status_of result) }
    ensures flushed { IsTrue O.tells → is_end (status_of result) ≡ true → O.flushed out.new ≡ length (O.held out.new) }
    ensures settled { IsTrue O.tells → IsSettled O.held O.flushed O.faults out.old out.new }
    ensures trace { IsTrue F.tells → (script : Result Performance Ending) → IsPreparedBy (names_by words.now) (F.told files.old) script
        → IfSome (trace_name (names_by words.now)) (LeavesTrace (F.told files.old)
        (F.told files.new) (trace_of script Whole choices.new) (status_of result)) }
    ensures trace_whole { IsTrue F.tells → is_whole (status_of result) ≡ true → (script : Result Performance Ending)
        → IsPreparedBy (names_by words.now) (F.told files.old) script → HoldsTrace (names_by words.now) script (F.told files.new) choices.new }
    ensures ordered { IsTrue F.tells → IsTrue O.tells → (script : Result Performance Ending)
        → IsPreparedBy (names_by words.now) (F.told files.old) script → IsOrdered true (library_of script) (phases_of script Whole) choices.new (O.held out.old) (O.held out.new)
        (λ text. IfSome (trace_name (names_by words.now)) (IsTracedUpTo (F.told files.old) (F.told files.new) text)) }
    ensures read_first { IsTrue F.tells → (IsReadWhole F.told F.read_faults files.old files.new
        (asked_names (names_by words.now) (F.told files.old).content)
        × (script : Performance) × IsPreparedBy (names_by words.now) (F.told files.old) (Ok script))
        ⊎ (IsUnbegun O.tells (O.held out.old) (O.held out.new) choices.new × IsUnmade (F.told files.old) (F.told files.new)) }
    ensures begun { IsTrue F.tells → IfSome (trace_name (names_by words.now)) (λ name. HasBegun (F.told files.old)
        (F.told files.new) name ⊎ IsUnbegun O.tells (O.held out.old) (O.held out.new) choices.new) }
    ensures touched { IsTrue F.tells → Touches (F.told files.old) (F.told files.new)
        (asked_names (names_by words.now) (F.told files.old).content)
        (made_name (names_by words.now) (reading_by (names_by words.now) (F.told files.old))) }
    ensures same_handles { F.handles files.new ≡ F.handles files.old }
    ensures same_out { KeepsSink O.faults O.setting out.old out.new }
{
    let named = match names_in(alloc, words) {
        Ok(named) => named,
        Err(ending) => {
            flush_early(out);
            return ending;
        }
    };
    let performed = match read_performance(alloc, files, named) {
        Ok(performed) => performed,
        Err(ending) => {
            flush_early(out);
            return ending;
        }
    };
    ending_of(work(alloc, &performed, named.trace, files, out, choices))
}

/// Performs a script, with its trace in the named file where there is a name.
fn work<F: Files, O: Sink>(
    alloc: Global,
    performed: &Performance,
    trace: Option<&str>,
    files: &mut F,
    out: &mut O,
    choices: &mut Choices,
) -> Result<bool, Stop>
    requires none { choices.old ≡ [] }
    requires performable { IsPerformable performed.now }
    ensures performed { Performs performed.now choices.new result }
    ensures out { IsTrue O.tells → FillsSink O.held O.flushed out.old out.new
        (out_for performed.now.script.library (plan performed.now.script) choices.new) result }
    ensures settled { IsTrue O.tells → IsSettled O.held O.flushed O.faults out.old out.new }
    ensures trace { IsTrue F.tells → IfSome (name_of trace.entry) (FillsFile (F.told files.old) (F.told files.new)
        (trace_for true performed.now.script.library (plan performed.now.script) choices.new) result) }
    ensures begun { IsTrue F.tells → IfSome (name_of trace.entry) (λ name. HasBegun (F.told files.old) (F.told files.new) name
        ⊎ IsUnbegun O.tells (O.held out.old) (O.held out.new) choices.new) }
    ensures ordered { IsTrue F.tells → IsTrue O.tells → IsOrdered true performed.now.script.library (plan performed.now.script) choices.new
        (O.held out.old) (O.held out.new)
        (λ text. IfSome (name_of trace.entry) (IsTracedUpTo (F.told files.old) (F.told files.new) text)) }
    ensures makes { IsTrue F.tells → Makes (F.told files.old) (F.told files.new) (name_of trace.entry) }
    ensures same_handles { F.handles files.new ≡ F.handles files.old }
    ensures fault { result ≡ Err Stop.Fault → Rises O.faults out.old out.new ⊎ Rises F.write_faults files.old files.new }
    ensures same_read_faults { F.read_faults files.new ≡ F.read_faults files.old }
    ensures same_out { KeepsSink O.faults O.setting out.old out.new }
{
    match trace {
        Some(name) => perform_into(alloc, performed, files, name, out, choices),
        None => perform(alloc, performed, false, out, &mut SteadySink, choices),
    }
}

/// How a run ends that performed its script so.
fn ending_of(performed: Result<bool, Stop>) -> Ending
    ensures { result ≡ ending_of performed }
{
    match performed {
        Ok(refused) => Ending::Done { refused },
        Err(Stop::Fault) => Ending::Fault,
        Err(Stop::OutOfMemory) => Ending::OutOfMemory,
        Err(Stop::Differs { line }) => Ending::TraceDiffers { line },
    }
}
