ghost use Rattle.std.specs.Prelude.{◌≡◌, IsTrue};
ghost use Rattle.xdp_tool.specs.Sinks.{IsSettled, KeepsSink};

use xio::Sink;

/// Flushes out where a run ends before its first line. How it ends stays the same where the flush fails.
pub fn flush_early<O: Sink>(out: &mut O)
    ensures same_held { IsTrue O.tells → O.held out.new ≡ O.held out.old }
    ensures settled { IsTrue O.tells → IsSettled O.held O.flushed O.faults out.old out.new }
    ensures same_out { KeepsSink O.faults O.setting out.old out.new }
{
    let _ = out.flush();
}
