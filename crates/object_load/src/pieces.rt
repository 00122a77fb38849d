//! The pieces of a code, and the relocations for a section.

ghost use Rattle.std.specs.Prelude.{◌≡◌, ◌<◌, ◌^◌, ◌++◌, All, IfOk, IfSome, OnOk, length};
ghost use Rattle.elf_objects.specs.Object.{sections, symbols};
ghost use Rattle.object_load.specs.Linking as of_code;

use crate::copying::append;
use elf_objects::{Object, Reloc};
use lists::{List, OutOfMemory};
use std::alloc::Global;

/// A part of a program's code, and where it comes from.
#[derive(Clone, Copy, Debug)]
pub(crate) enum Piece {
    /// The program's function: so many bytes of its section from one on, at the front of the code.
    Own { first: u64, size: u64 },
    /// All of `.text`, of so many bytes, behind the function.
    Text { start: u64, size: u64 },
}

impl Piece {
    ghost use Rattle.object_load.specs.Linking.{place_in};

    /// Where the byte at an offset of the section stands in the code.
    #[tactic(auto, unfolding(crate::specs::Linking::place_in))]
    pub(crate) fn place_of(self, offset: u64) -> Option<u64>
        requires { of_code.bound_of self < 2 ^ 64 }
        ensures place { result ≡ place_in self offset }
        ensures small { IfSome result (λ place. place < of_code.bound_of self) }
    {
        match self {
            Piece::Own { first, size } if first <= offset && offset - first < size => {
                Some(offset - first)
            }
            Piece::Own { .. } => None,
            Piece::Text { start, size } => Some(start + offset.min(size)),
        }
    }
}

/// The most relocations for one section: as many as 16 MiB hold, if each is held once. More of them, which sections that overlap
/// can have, count as want of memory.
const MOST_RELOCS: usize = 1_048_576;

/// Puts the relocations that a section holds for another one behind others.
#[tactic(auto, unfolding(crate::specs::Linking::relocs_from))]
fn push_relocs(
    object: &Object<'_>,
    number: u32,
    target: u32,
    found: &mut List<Reloc>,
) -> Result<(), OutOfMemory>
    requires known { number < length (sections object.now) }
    requires symbols { All (λ reloc. reloc.symbol < length (symbols object.now)) found.old }
    ensures found { OnOk result (found.new ≡ found.old ++ of_code.relocs_from object.now target number) }
    ensures symbols { OnOk result (All (λ reloc. reloc.symbol < length (symbols object.now)) found.new) }
{
    if object.section(number).info != target {
        return Ok(());
    }
    let relocs = object.relocs(number);
    if found.len() as usize + relocs.len() > MOST_RELOCS {
        return Err(OutOfMemory);
    }
    append(found, relocs)
}

/// The relocations for a section, in the order of the sections that hold them.
#[tactic(auto, unfolding(crate::specs::Linking::relocs_for))]
pub(crate) fn relocs_for(
    alloc: Global,
    object: &Object<'_>,
    target: u32,
) -> Result<List<Reloc>, OutOfMemory>
    ensures relocs { IfOk result (λ found. found ≡ of_code.relocs_for object.now target) }
    ensures symbols { IfOk result (All (λ reloc. reloc.symbol < length (symbols object.now))) }
{
    let mut found = List::new(alloc);
    for number in 0..object.section_count() {
        push_relocs(object, number, target, &mut found)?;
    }
    Ok(found)
}
