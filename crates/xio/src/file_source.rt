ghost use Rattle.std.specs.Prelude.{◌≡◌};
ghost use Rattle.xio.specs.Handles.{Opened};
ghost use Rattle.xio.specs.Lent.{SourceSetting, if_told};
ghost use Rattle.xio.specs.Told.{rest_of, taken_whole};

use crate::failed::Failed;
use crate::files::Files;
use crate::source::Source;

/// An opened file, lent as a source with the read faults of its object of files.
pub struct FileSource<'a, F: Files> {
    pub files: &'a mut F,
    pub file: u32,
    ghost is_opened: { F.handles files.now file ≡ Opened },
}

impl<'a, F: Files> Source for FileSource<'a, F> {
    ghost tells = { F.tells };

    ghost rest = { λ s. rest_of (F.told s.files.now) s.file };

    ghost faults = { λ s. F.read_faults s.files.now };

    ghost Setting = { SourceSetting };

    ghost setting = { λ s. record {
      files = s.files.ghost_name;
      file = s.file;
      handles = F.handles s.files.now;
      write_faults = F.write_faults s.files.now;
      told = if_told F.tells (taken_whole (F.told s.files.now) s.file);
    } };

    fn read(&mut self, buffer: &mut [u8]) -> Result<usize, Failed> {
        self.files.read(self.file, buffer)
    }
}
