ghost use Rattle.std.specs.Prelude.{◌≡◌, ◌⊎◌, IsTrue};
ghost use Rattle.xio.specs.Causes.{Rose};
ghost use Rattle.xio.specs.Prefixes.{AppendsUnless};
ghost use Rattle.xdp_tool.specs.Ending.{err_text};

use crate::ending::Ending;
use std::alloc::Global;
use xio::{Sink, write_all};

/// Says on err how the run ends, and answers that ending, or that memory was wanting for what there was to say.
/// A failing err changes nothing but what it holds.
pub fn tell<E: Sink>(alloc: Global, err: &mut E, ending: Ending) -> Ending
    ensures same { (result ≡ ending) ⊎ (result ≡ Ending.OutOfMemory) }
    ensures said { IsTrue E.tells
        → AppendsUnless (Rose (E.faults err.old) (E.faults err.new)) (E.held err.old) (E.held err.new) (err_text result) }
    ensures same_setting { E.setting err.new ≡ E.setting err.old }
{
    match ending.text(alloc) {
        Ok(text) => {
            say(err, text.as_slice());
            ending
        }
        Err(_) => {
            say(err, b"xdptool: out of memory\n");
            Ending::OutOfMemory
        }
    }
}

/// Writes a text, or its front where the sink fails.
fn say<E: Sink>(err: &mut E, text: &[u8])
    ensures said { IsTrue E.tells
        → AppendsUnless (Rose (E.faults err.old) (E.faults err.new)) (E.held err.old) (E.held err.new) text.now }
    ensures same_setting { E.setting err.new ≡ E.setting err.old }
{
    let _ = write_all(err, text);
}
