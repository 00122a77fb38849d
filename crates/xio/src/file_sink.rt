ghost use Rattle.std.specs.Prelude.{◌≡◌};
ghost use Rattle.xio.specs.Handles.{Made};
ghost use Rattle.xio.specs.Lent.{SinkSetting, if_told};
ghost use Rattle.xio.specs.Told.{told_beside};

use crate::failed::Failed;
use crate::files::Files;
use crate::sink::Sink;

/// A made file, lent as a sink with the write faults of its object of files.
pub struct FileSink<'a, F: Files> {
    pub files: &'a mut F,
    pub file: u32,
    ghost is_made: { F.handles files.now file ≡ Made },
}

impl<'a, F: Files> Sink for FileSink<'a, F> {
    ghost tells = { F.tells };

    ghost held = { λ s. (F.told s.files.now).content ((F.told s.files.now).name_of s.file) };

    ghost flushed = { λ s. (F.told s.files.now).flushed ((F.told s.files.now).name_of s.file) };

    ghost faults = { λ s. F.write_faults s.files.now };

    ghost Setting = { SinkSetting };

    ghost setting = { λ s. record {
      files = s.files.ghost_name;
      file = s.file;
      handles = F.handles s.files.now;
      read_faults = F.read_faults s.files.now;
      told = if_told F.tells (told_beside (F.told s.files.now) s.file);
    } };

    fn write(&mut self, piece: &[u8]) -> Result<usize, Failed> {
        self.files.write(self.file, piece)
    }

    fn flush(&mut self) -> Result<(), Failed> {
        self.files.flush(self.file)
    }
}
