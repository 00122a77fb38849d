//! Where in a file all relocations have symbols. Sections of relocations may overlap, so that one that looked at each of its
//! relocations would look at the same bytes as often as there are sections.

ghost use Rattle.std.specs.Prelude.{◌≡◌, ◌-◌, ◌+◌, ◌/◌, ◌%◌, ◌<◌, ◌≤◌, true, length};
ghost use Rattle.elf_objects.specs.RelocMarks.{AreClean, has_mark, mark_of, left_in_block};
ghost use Rattle.elf_objects.specs.Symbol.{symbol_count};

use crate::reloc::lacks_symbol;

/// How many bytes of the file a block has.
const BLOCK: u64 = 65_536;

/// A mark for each block of the first 16 MiB and each remainder by 16.
const MARKS: usize = 256 * 16;

/// Which mark is that of a place.
#[tactic(auto, unfolding(crate::specs::RelocMarks::mark_of))]
fn mark_of(place: u64) -> u64
    ensures { result ≡ mark_of place }
{
    place / BLOCK * 16 + place % 16
}

/// Whether no relocation in the block of a place, with the place's remainder, lacks its symbol. Behind the marks it isn't known.
#[tactic(auto, unfolding(crate::specs::RelocMarks::has_mark))]
pub(crate) fn is_clean(marks: &[bool], place: u64) -> bool
    ensures { result ≡ has_mark marks.now place }
{
    let mark = mark_of(place);
    mark < marks.len() as u64 && marks[mark as usize]
}

/// How many relocations, one after another from a place on, begin in its block.
#[tactic(auto, unfolding(crate::specs::RelocMarks::left_in_block))]
pub(crate) fn relocs_left(place: u64) -> u64
    ensures left { result ≡ left_in_block place }
    ensures some { 1 ≤ result }
    ensures few { result ≤ 4096 }
{
    (BLOCK - place % BLOCK + 15) / 16
}

/// The marks of a file with so many symbols.
pub(crate) fn clean_marks(file: &[u8], symbols: u64) -> [bool; MARKS]
    requires { symbols ≡ symbol_count file.now }
    ensures { AreClean file.now result }
{
    let mut marks = [true; MARKS];
    let places = (file.len() as u64).saturating_sub(15);
    for place in 0..places.min(256 * BLOCK) {
        if lacks_symbol(file, place, symbols) {
            marks[mark_of(place) as usize] = false;
        }
    }
    marks
}
