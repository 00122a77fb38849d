ghost use Rattle.std.specs.Prelude.{◌≡◌, [], false, length, Ok};

use crate::failed::Failed;
use crate::sink::Sink;

/// A sink that takes each piece whole and keeps nothing of it. It never fails.
#[derive(Clone, Copy, Debug, PartialEq, Eq)]
pub struct SteadySink;

impl Sink for SteadySink {
    ghost tells = { false };

    ghost held = { λ _. [] };

    ghost flushed = { λ _. 0 };

    ghost faults = { λ _. 0 };

    ghost setting = { λ _. tt };

    fn write(&mut self, piece: &[u8]) -> Result<usize, Failed>
        ensures whole { result ≡ Ok (length piece.now) }
    {
        Ok(piece.len())
    }

    fn flush(&mut self) -> Result<(), Failed>
        ensures ok { result ≡ Ok tt }
    {
        Ok(())
    }
}
