ghost use Rattle.std.specs.Prelude.{◌≡◌, ◌≢◌, true, false, Ok, IsOkUnless, IfOk, OnOk, OnErr, min, take, length};
ghost use Rattle.xio.specs.Handles.{Closed, Opened, Made, GivesHandle, set_at};
ghost use Rattle.xio.specs.Told.{set_named, told_none, rest_of, after_open, after_make, after_read};
ghost use Rattle.xio.specs.declared.files.FileFault.TheVariants as fault;

use crate::failed::Failed;
use crate::files::{FileFault, Files};
use crate::memory::copies::copy_of;
use crate::memory::numbers::Numbers;
use crate::memory::pieces::{fill, rest_from};
use crate::memory::shelf::Shelf;
use crate::memory::stored_file::StoredFile;
use lists::OutOfMemory;
use std::alloc::Global;

/// Files in memory that never fail. A name that isn't there is an empty file; a made file is empty, takes each written
/// piece whole and keeps nothing of it. So as `Files` they tell nothing, and code that is generic in `Files` learns from
/// them only that no call failed: what a read gives is in the clauses of their own calls.
#[derive(Debug, Drop)]
pub struct SteadyFiles {
    alloc: Global,
    shelf: Shelf,
    numbers: Numbers,
}

impl SteadyFiles {
    ghost use Rattle.xio.specs.SteadyFiles.{kept_by, handles_of, has_file};

    /// No files. No memory is taken.
    pub fn new(alloc: Global) -> Self
        ensures kept { kept_by result ≡ told_none }
        ensures no_files { (name : _) → has_file result name ≡ false }
        ensures no_numbers { handles_of result ≡ (λ _. Closed) }
    {
        SteadyFiles {
            alloc,
            shelf: Shelf::new(alloc),
            numbers: Numbers::new(alloc),
        }
    }

    pub fn add(&mut self, name: &str, bytes: &[u8]) -> Result<(), OutOfMemory>
        requires { has_file self.old name.now ≡ false }
        ensures ok { OnOk result (kept_by self.new ≡ record (kept_by self.old) {
          content = set_named (kept_by self.old).content name.now bytes.now;
          flushed = set_named (kept_by self.old).flushed name.now 0;
        }) }
        ensures there { OnOk result (has_file self.new ≡ set_named (has_file self.old) name.now true) }
        ensures err { OnErr result (kept_by self.new ≡ kept_by self.old) }
        ensures err_files { OnErr result (has_file self.new ≡ has_file self.old) }
        ensures same_handles { handles_of self.new ≡ handles_of self.old }
    {
        let file = StoredFile::holding(self.alloc, name, bytes, None)?;
        self.shelf.reserve()?;
        self.shelf.place(file);
        Ok(())
    }
}

impl Files for SteadyFiles {
    ghost use Rattle.xio.specs.SteadyFiles.{kept_by, handles_of, has_file};

    ghost tells = { false };

    ghost told = { λ _. told_none };

    ghost handles = { handles_of };

    ghost read_faults = { λ _. 0 };

    ghost write_faults = { λ _. 0 };

    fn open_file(&mut self, name: &str) -> Result<u32, FileFault>
        ensures handle { GivesHandle Opened (handles_of self.old) (handles_of self.new) result }
        ensures opened { kept_by self.new ≡ after_open (kept_by self.old) name.now result }
        ensures same_files { has_file self.new ≡ has_file self.old }
        ensures memory_alone { IsOkUnless result fault.OutOfMemory }
    {
        let asked = copy_of(self.alloc, name.as_bytes())?;
        let own_name = copy_of(self.alloc, name.as_bytes())?;
        self.numbers.reserve()?;
        Ok(self.numbers.open(own_name, asked))
    }

    fn make_file(&mut self, name: &str) -> Result<u32, FileFault>
        ensures handle { GivesHandle Made (handles_of self.old) (handles_of self.new) result }
        ensures made { kept_by self.new ≡ after_make (kept_by self.old) name.now result }
        ensures there { OnOk result (has_file self.new ≡ set_named (has_file self.old) name.now true) }
        ensures err_files { OnErr result (has_file self.new ≡ has_file self.old) }
        ensures memory_alone { IsOkUnless result fault.OutOfMemory }
    {
        let file = StoredFile::empty(self.alloc, name, 0)?;
        let asked = copy_of(self.alloc, name.as_bytes())?;
        let own_name = copy_of(self.alloc, name.as_bytes())?;
        self.numbers.reserve()?;
        self.shelf.reserve()?;
        self.shelf.place(file);
        Ok(self.numbers.make(own_name, asked))
    }

    fn read(&mut self, file: u32, buffer: &mut [u8]) -> Result<usize, Failed>
        requires { handles_of self.old file ≡ Opened }
        ensures count { result ≡ Ok (min (length buffer.old) (length (rest_of (kept_by self.old) file))) }
        ensures bytes { IfOk result (λ n. take n buffer.new ≡ take n (rest_of (kept_by self.old) file)) }
        ensures taken { kept_by self.new ≡ after_read (kept_by self.old) file result }
        ensures same_files { has_file self.new ≡ has_file self.old }
        ensures same_handles { handles_of self.new ≡ handles_of self.old }
    {
        let content = self.shelf.content(self.numbers.name(file)).unwrap_or(&[]);
        let count = fill(buffer, rest_from(content, self.numbers.place(file)));
        self.numbers.advance(file, count);
        Ok(count)
    }

    fn write(&mut self, file: u32, piece: &[u8]) -> Result<usize, Failed>
        requires { handles_of self.old file ≡ Made }
        ensures whole { result ≡ Ok (length piece.now) }
        ensures same { self.new ≡ self.old }
    {
        Ok(piece.len())
    }

    fn flush(&mut self, file: u32) -> Result<(), Failed>
        requires { handles_of self.old file ≡ Made }
        ensures ok { result ≡ Ok tt }
        ensures same { self.new ≡ self.old }
    {
        Ok(())
    }

    fn close(&mut self, file: u32)
        requires { handles_of self.old file ≢ Closed }
        ensures handle { handles_of self.new ≡ set_at (handles_of self.old) file Closed }
        ensures same_kept { kept_by self.new ≡ kept_by self.old }
        ensures same_files { has_file self.new ≡ has_file self.old }
    {
        self.numbers.close(file);
    }
}
