//! Calls of the system that are made again where a signal interrupted them.

ghost use Rattle.std.specs.Prelude.{◌<◌, ◌≤◌, length, IfOk};

use crate::failed::Failed;
use std::io::{ErrorKind, Read, Write};

/// As `Read::read`.
pub fn read_again<R: Read>(reader: &mut R, buffer: &mut [u8]) -> Result<usize, Failed>
    ensures { IfOk result (λ n. n ≤ length buffer.new) }
{
    for _ in 0..u64::MAX {
        match reader.read(buffer) {
            Ok(taken) => return Ok(taken),
            Err(error) if error.kind() == ErrorKind::Interrupted => {}
            Err(_) => return Err(Failed),
        }
    }
    Err(Failed)
}

/// As `Write::write`; a write that takes nothing of a piece fails.
pub fn write_again<W: Write>(writer: &mut W, piece: &[u8]) -> Result<usize, Failed>
    ensures within { IfOk result (λ n. n ≤ length piece.now) }
    ensures some { IfOk result (λ n. 0 < length piece.now → 0 < n) }
{
    for _ in 0..u64::MAX {
        match writer.write(piece) {
            Ok(taken) if taken > 0 || piece.is_empty() => return Ok(taken),
            Err(error) if error.kind() == ErrorKind::Interrupted => {}
            _ => return Err(Failed),
        }
    }
    Err(Failed)
}

/// As `Write::flush`.
pub fn flush_again<W: Write>(writer: &mut W) -> Result<(), Failed> {
    for _ in 0..u64::MAX {
        match writer.flush() {
            Ok(()) => return Ok(()),
            Err(error) if error.kind() == ErrorKind::Interrupted => {}
            Err(_) => return Err(Failed),
        }
    }
    Err(Failed)
}
