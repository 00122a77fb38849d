ghost use Rattle.std.specs.Prelude.{◌≡◌, IsTrue};
ghost use Rattle.xio.specs.Causes.{HasReadCause};
ghost use Rattle.xio.specs.ReadFile.{ReadsFile, AsksFile, UpToFault};
ghost use Rattle.xio.specs.Streams.{NamesLimit, Grows};

use crate::file_source::FileSource;
use crate::files::Files;
use crate::read_end::ReadEnd;
use crate::reading::read_all;
use lists::Bytes;

/// Opens the named file, appends its content, which is at most `limit` bytes, and closes it.
/// A fault in opening is a read fault.
#[tactic(auto, using(crate::proofs::OneFile::one_file))]
pub fn read_file<F: Files>(
    files: &mut F,
    name: &str,
    limit: u64,
    into: &mut Bytes,
) -> Result<(), ReadEnd>
    ensures bytes { IsTrue F.tells → ReadsFile limit ((F.told files.old).content name.now) into.old into.new result }
    ensures asked { IsTrue F.tells → AsksFile (F.handles files.old) (F.told files.old) (F.told files.new) name.now result }
    ensures up_to_fault { IsTrue F.tells → UpToFault (F.told files.old) (F.told files.new) name.now into.old into.new result }
    ensures limit_named { NamesLimit limit result }
    ensures kept { Grows limit into.old into.new }
    ensures cause { HasReadCause (F.read_faults files.old) (F.read_faults files.new) result }
    ensures same_write_faults { F.write_faults files.new ≡ F.write_faults files.old }
    ensures same_handles { F.handles files.new ≡ F.handles files.old }
{
    let file = files.open_file(name)?;
    let mut source = FileSource { files, file };
    let result = read_all(&mut source, limit, into);
    let FileSource { files, file } = source;
    files.close(file);
    result
}
