ghost use Rattle.std.specs.Prelude.{◌≡◌, ◌<◌, ◌^◌, [], false, vec_len, vec_capacity, OnOk};
ghost use Rattle.xio.specs.Handles.{Closed, set_at};
ghost use Rattle.xio.specs.Slot.{handle_in, slot_handle};
ghost use Rattle.xio.specs.Told.{told_none};

use crate::failed::Failed;
use crate::files::{FileFault, Files};
use crate::real::again::{flush_again, read_again, write_again};
use crate::real::identity::Identity;
use crate::real::slot::Slot;
use lists::OutOfMemory;
use std::alloc::Global;
use std::fs::{File, OpenFile, OpenOptions};
use std::io;
use std::rt::Files as System;

/// The files of the system. A call that a signal interrupts is made again. A file that was opened, by whatever name, is not
/// made: `make_file` leaves it as it is and fails.
#[derive(Drop)]
pub struct RealFiles<R: System + Drop> {
    system: R,
    slots: Vec<Slot<R::File>>,
    /// The files that were opened.
    opened: Vec<Identity>,
    read_faults: u64,
    write_faults: u64,
}

impl<R: System + Drop> RealFiles<R> {
    pub fn new(alloc: Global, system: R) -> Self
        ensures no_numbers { ⟦<RealFiles<R> as Files>⟧.handles result ≡ (λ _. Closed) }
        ensures no_read_faults { ⟦<RealFiles<R> as Files>⟧.read_faults result ≡ 0 }
        ensures no_write_faults { ⟦<RealFiles<R> as Files>⟧.write_faults result ≡ 0 }
    {
        RealFiles {
            system,
            slots: Vec::new(alloc),
            opened: Vec::new(alloc),
            read_faults: 0,
            write_faults: 0,
        }
    }
}

impl<R: System + Drop> Files for RealFiles<R> {
    ghost tells = { false };

    ghost told = { λ _. told_none };

    ghost handles = { λ files. slot_handle files.slots.items };

    ghost read_faults = { λ files. files.read_faults };

    ghost write_faults = { λ files. files.write_faults };

    fn open_file(&mut self, name: &str) -> Result<u32, FileFault> {
        reserve(&mut self.slots)?;
        reserve_one(&mut self.opened)?;
        let Ok((file, identity)) = open(&self.system, name) else {
            self.read_faults = self.read_faults.saturating_add(1);
            return Err(FileFault::Failed);
        };
        self.opened.push_reserved(identity);
        Ok(give(&mut self.slots, Slot::Opened(file)))
    }

    fn make_file(&mut self, name: &str) -> Result<u32, FileFault> {
        reserve(&mut self.slots)?;
        let Ok(file) = make(&self.system, name, self.opened.as_slice()) else {
            self.write_faults = self.write_faults.saturating_add(1);
            return Err(FileFault::Failed);
        };
        Ok(give(&mut self.slots, Slot::Made(file)))
    }

    fn read(&mut self, file: u32, buffer: &mut [u8]) -> Result<usize, Failed> {
        let Slot::Opened(opened) = &mut self.slots[file as usize] else {
            unreachable!()
        };
        let result = read_again(opened, buffer);
        if result.is_err() {
            self.read_faults = self.read_faults.saturating_add(1);
        }
        result
    }

    fn write(&mut self, file: u32, piece: &[u8]) -> Result<usize, Failed> {
        let Slot::Made(made) = &mut self.slots[file as usize] else {
            unreachable!()
        };
        let result = write_again(made, piece);
        if result.is_err() {
            self.write_faults = self.write_faults.saturating_add(1);
        }
        result
    }

    fn flush(&mut self, file: u32) -> Result<(), Failed> {
        let Slot::Made(made) = &mut self.slots[file as usize] else {
            unreachable!()
        };
        let result = flush_again(made);
        if result.is_err() {
            self.write_faults = self.write_faults.saturating_add(1);
        }
        result
    }

    fn close(&mut self, file: u32) {
        self.slots[file as usize] = Slot::Closed;
    }
}

/// Opens a file and says which it is.
fn open<R: System>(system: &R, name: &str) -> io::Result<(R::File, Identity)> {
    let file = File::open(system, name)?;
    let identity = Identity::of(&file.metadata()?);
    Ok((file, identity))
}

/// Makes a file that is none of these, or empties it. It is looked at before it is emptied.
fn make<R: System>(system: &R, name: &str, opened: &[Identity]) -> io::Result<R::File> {
    let file = OpenOptions::new()
        .write(true)
        .create(true)
        .open(system, name)?;
    let metadata = file.metadata()?;
    if opened.contains(&Identity::of(&metadata)) {
        return Err(io::ErrorKind::ResourceBusy.into());
    }
    if metadata.is_file() {
        file.set_len(0)?;
    }
    Ok(file)
}

/// Takes the room for one more item.
fn reserve_one<T>(items: &mut Vec<T>) -> Result<(), OutOfMemory>
    ensures same { items.new.items ≡ items.old.items }
    ensures room { OnOk result (vec_len items.new < vec_capacity items.new) }
{
    items.reserve(1)?;
    Ok(())
}

/// Takes the room for one more number.
fn reserve<F>(slots: &mut Vec<Slot<F>>) -> Result<(), OutOfMemory>
    ensures same { slots.new.items ≡ slots.old.items }
    ensures number { OnOk result (vec_len slots.new < 2 ^ 32) }
    ensures room { OnOk result (vec_len slots.new < vec_capacity slots.new) }
{
    if slots.len() > u32::MAX as usize {
        return Err(OutOfMemory);
    }
    reserve_one(slots)
}

/// Gives the next number.
fn give<F>(slots: &mut Vec<Slot<F>>, slot: Slot<F>) -> u32
    requires number { vec_len slots.old < 2 ^ 32 }
    requires room { vec_len slots.old < vec_capacity slots.old }
    ensures unused { slot_handle slots.old.items result ≡ Closed }
    ensures given { slot_handle slots.new.items ≡ set_at (slot_handle slots.old.items) result (handle_in slot) }
{
    let number = slots.len() as u32;
    slots.push_reserved(slot);
    number
}
