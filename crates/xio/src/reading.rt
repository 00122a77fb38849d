ghost use Rattle.std.specs.Prelude.{◌≡◌, ◌+◌, IsTrue};
ghost use Rattle.xio.specs.Causes.{HasReadCause};
ghost use Rattle.xio.specs.Streams.{ReadsAll, Takes, NamesLimit, Grows};

use crate::read_end::ReadEnd;
use crate::source::Source;
use lists::Bytes;

const BUFFER_SIZE: usize = 4096;

/// Appends what the source still has, which is at most `limit` bytes.
/// A source that fails leaves in `into` what was read before. At most 4,096 bytes more than `limit` are taken.
pub fn read_all<S: Source>(source: &mut S, limit: u64, into: &mut Bytes) -> Result<(), ReadEnd>
    ensures bytes { IsTrue S.tells → ReadsAll limit (S.rest source.old) (S.rest source.new) into.old into.new result }
    ensures taken { IsTrue S.tells → Takes (limit + 4096) (S.rest source.old) (S.rest source.new) into.old into.new }
    ensures limit_named { NamesLimit limit result }
    ensures kept { Grows limit into.old into.new }
    ensures cause { HasReadCause (S.faults source.old) (S.faults source.new) result }
    ensures same_setting { S.setting source.new ≡ S.setting source.old }
{
    let mut buffer = [0; BUFFER_SIZE];
    let mut room = limit;
    loop {
        let taken = source.read(&mut buffer)?;
        if taken == 0 {
            return Ok(());
        }
        if taken as u64 > room {
            return Err(ReadEnd::TooLarge { limit });
        }
        into.append(&buffer[..taken])?;
        room -= taken as u64;
    }
}
