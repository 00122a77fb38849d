ghost use Rattle.std.specs.Prelude.{◌≡◌, true, [], IsTrue};
ghost use Rattle.xio.specs.Lent.{if_told};
ghost use Rattle.xio.specs.Printing.{PrintSetting, Prints, behind};

use crate::failed::Failed;
use crate::print_buffer::PrintBuffer;
use crate::printer::Printer;
use crate::sink::Sink;
use crate::writing::write_all;

/// A sink behind a buffer, in which printed text waits until no more fits.
pub struct SinkPrinter<'a, K: Sink> {
    pub sink: &'a mut K,
    pub buffer: &'a mut PrintBuffer,
}

impl<'a, K: Sink> Printer for SinkPrinter<'a, K> {
    type End = Failed;

    ghost tells = { K.tells };

    ghost counts = { true };

    ghost Setting = { PrintSetting K.Setting };

    ghost state = { λ printer. behind (K.held printer.sink.now) printer.buffer.now (K.faults printer.sink.now) (record {
      sink = printer.sink.ghost_name;
      buffer = printer.buffer.ghost_name;
      flushed = if_told K.tells (K.flushed printer.sink.now);
      setting = K.setting printer.sink.now;
    }) };

    fn print(&mut self, piece: &[u8]) -> Result<(), Failed> {
        write_behind(self.sink, self.buffer, piece)
    }
}

/// Lets the piece wait where it fits, or writes the text that waits and then the piece, which may wait after that.
fn write_behind<K: Sink>(sink: &mut K, buffer: &mut PrintBuffer, piece: &[u8]) -> Result<(), Failed>
    ensures prints { Prints K.tells true
        (behind (K.held sink.old) buffer.old (K.faults sink.old) (K.setting sink.old))
        (behind (K.held sink.new) buffer.new (K.faults sink.new) (K.setting sink.new)) piece.now result }
    ensures same_flushed { IsTrue K.tells → K.flushed sink.new ≡ K.flushed sink.old }
{
    if buffer.put(piece) {
        return Ok(());
    }
    pass_on(sink, buffer)?;
    if buffer.put(piece) {
        return Ok(());
    }
    match write_all(sink, piece) {
        Ok(()) => Ok(()),
        Err(_) => Err(Failed),
    }
}

/// Writes the text that waits. After it none waits; what a fault kept from the sink is lost.
pub fn pass_on<K: Sink>(sink: &mut K, buffer: &mut PrintBuffer) -> Result<(), Failed>
    ensures prints { Prints K.tells true
        (behind (K.held sink.old) buffer.old (K.faults sink.old) (K.setting sink.old))
        (behind (K.held sink.new) buffer.new (K.faults sink.new) (K.setting sink.new)) [] result }
    ensures empty { buffer.new ≡ [] }
    ensures same_flushed { IsTrue K.tells → K.flushed sink.new ≡ K.flushed sink.old }
{
    let written = write_all(sink, buffer.as_slice());
    buffer.clear();
    match written {
        Ok(()) => Ok(()),
        Err(_) => Err(Failed),
    }
}
