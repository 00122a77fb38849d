ghost use Rattle.std.specs.Prelude.{◌≡◌, ◌+◌, ◌^◌, ◌<◌, ◌≤◌, [], ◌++◌, length, drop, position, vec_len, vec_capacity, is_some, is_err, IfOk, IfSome, OnOk};
ghost use Rattle.std.specs.Bool.{OnTrue, OnFalse};
ghost use Rattle.xio.specs.Pieces.{IsFrontOf, is_bad};
ghost use Rattle.xio.specs.Shelf.{has_name, setup_of, setups_of, content_of, flushed_of, takes};
ghost use Rattle.xio.specs.Told.{set_named};

use crate::failed::Failed;
use crate::memory::pieces::piece_at;
use crate::memory::stored_file::StoredFile;
use lists::OutOfMemory;
use std::alloc::Global;

/// The files of a form in memory, by name.
#[derive(Debug, Drop)]
pub struct Shelf {
    files: Vec<StoredFile>,
}

#[tactic(auto, using(crate::proofs::ShelfLemmas::shelf_rules))]
impl Shelf {
    pub fn new(alloc: Global) -> Self
        ensures { result.files.items ≡ [] }
    {
        Shelf {
            files: Vec::new(alloc),
        }
    }

    /// Takes the room for one more file.
    pub fn reserve(&mut self) -> Result<(), OutOfMemory>
        ensures same_files { self.new.files.items ≡ self.old.files.items }
        ensures room { OnOk result (vec_len self.new.files < vec_capacity self.new.files) }
    {
        self.files.reserve(1)?;
        Ok(())
    }

    /// Puts a file in the place of the one with its name, or of none.
    pub fn place(&mut self, file: StoredFile)
        requires room { vec_len self.old.files < vec_capacity self.old.files }
        ensures content { content_of self.new.files.items ≡ set_named (content_of self.old.files.items) file.name file.room.bytes }
        ensures flushed { flushed_of self.new.files.items ≡ set_named (flushed_of self.old.files.items) file.name file.flushed }
        ensures setups { setups_of self.new.files.items ≡ set_named (setups_of self.old.files.items) file.name (setup_of file) }
    {
        match self.index_of(file.name.as_slice()) {
            Some(index) => self.files[index] = file,
            None => self.files.push_reserved(file),
        }
    }

    pub fn content(&self, name: &[u8]) -> Option<&[u8]>
        ensures there { is_some result ≡ (setups_of self.now.files.items name.now).there }
        ensures bytes { IfSome result (λ bytes. bytes.now ≡ content_of self.now.files.items name.now) }
    {
        let index = self.index_of(name)?;
        Some(self.files[index].room.bytes())
    }

    /// What a read of the named file at this place can take.
    pub fn piece(&self, name: &[u8], place: u64) -> Result<&[u8], Failed>
        ensures fails { is_err result ≡ is_bad (setups_of self.now.files.items name.now).bad_place place }
        ensures front { IfOk result (λ piece. IsFrontOf piece.now (drop place (content_of self.now.files.items name.now))) }
        ensures stops { IfOk result (λ piece. IfSome (setups_of self.now.files.items name.now).bad_place (λ bad. place ≤ bad → place + length piece.now ≤ bad)) }
        ensures within { IfOk result (λ piece. place + length piece.now < 2 ^ 64) }
    {
        let Some(index) = self.index_of(name) else {
            return Ok(&[]);
        };
        let file = &self.files[index];
        piece_at(file.room.bytes(), place, file.bad_place)
    }

    /// Puts a piece behind the named file's bytes and says that it fitted.
    pub fn write(&mut self, name: &[u8], piece: &[u8]) -> bool
        ensures takes { result ≡ takes (setups_of self.old.files.items name.now) (content_of self.old.files.items name.now) piece.now }
        ensures content { OnTrue result (content_of self.new.files.items ≡ set_named (content_of self.old.files.items) name.now (content_of self.old.files.items name.now ++ piece.now)) }
        ensures flushed { OnTrue result (flushed_of self.new.files.items ≡ flushed_of self.old.files.items) }
        ensures same_setups { setups_of self.new.files.items ≡ setups_of self.old.files.items }
        ensures unchanged { OnFalse result (self.new.files.items ≡ self.old.files.items) }
    {
        let Some(index) = self.index_of(name) else {
            return false;
        };
        let file = &mut self.files[index];
        file.room.put(piece)
    }

    /// All bytes of the named file are flushed.
    pub fn flush(&mut self, name: &[u8])
        ensures content { content_of self.new.files.items ≡ content_of self.old.files.items }
        ensures flushed { flushed_of self.new.files.items ≡ set_named (flushed_of self.old.files.items) name.now (length (content_of self.old.files.items name.now)) }
        ensures same_setups { setups_of self.new.files.items ≡ setups_of self.old.files.items }
    {
        if let Some(index) = self.index_of(name) {
            let file = &mut self.files[index];
            file.flushed = file.room.bytes().len();
        }
    }

    fn index_of(&self, name: &[u8]) -> Option<usize>
        ensures { result ≡ position (has_name name.now) self.now.files.items }
    {
        self.files
            .iter()
            .position(|file| name == file.name.as_slice())
    }
}
