ghost use Rattle.std.specs.Prelude.{◌≡◌, ◌<◌, length, IsTrue, IfErr};
ghost use Rattle.xio.specs.Causes.{HasCause};
ghost use Rattle.xio.specs.Streams.{WritesAll};

use crate::failed::Failed;
use crate::sink::Sink;
use crate::write_fault::WriteFault;

/// Writes all of the bytes, piece by piece.
pub fn write_all<K: Sink>(sink: &mut K, bytes: &[u8]) -> Result<(), WriteFault>
    ensures held { IsTrue K.tells → WritesAll (K.held sink.old) (K.held sink.new) result bytes.now }
    ensures within { IfErr result (λ fault. fault.written < length bytes.now) }
    ensures same_flushed { IsTrue K.tells → K.flushed sink.new ≡ K.flushed sink.old }
    ensures cause { HasCause (K.faults sink.old) (K.faults sink.new) result }
    ensures same_setting { K.setting sink.new ≡ K.setting sink.old }
{
    let mut written = 0;
    while written < bytes.len() {
        match sink.write(&bytes[written..]) {
            Ok(taken) => written += taken,
            Err(Failed) => {
                return Err(WriteFault {
                    written: written as u64,
                });
            }
        }
    }
    Ok(())
}
