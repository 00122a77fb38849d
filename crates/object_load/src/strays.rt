//! Calls out of a function that no relocation leads somewhere.

ghost use Rattle.std.specs.Prelude.{◌≡◌, ◌<◌, ◌≤◌, ◌*◌, ℕ, List, length, slice_index_or, vec_len, false, IfOk};
ghost use Rattle.object_load.specs.Linking as of_code;

use crate::addresses::is_local_call;
use crate::pieces::Piece;
use bpf_insn::{Insn, InsnList};
use elf_objects::Reloc;
use lists::OutOfMemory;
use std::alloc::Global;

/// For each of so many slots, whether a relocation is in it.
pub(crate) fn fixed_slots(
    alloc: Global,
    piece: Piece,
    relocs: &[Reloc],
    own: u32,
) -> Result<Vec<bool>, OutOfMemory>
    requires { of_code.bound_of piece ≤ 8 * own }
    ensures len { IfOk result (λ marks. vec_len marks ≡ own) }
    ensures fixed { IfOk result (λ marks. (slot : ℕ) → slot < own
        → slice_index_or marks.items slot false ≡ of_code.is_fixed (of_code.fixes_in piece relocs.now) slot) }
{
    let mut marks = vec![in alloc; false; own as usize]?;
    for reloc in relocs {
        let Some(place) = piece.place_of(reloc.offset) else {
            continue;
        };
        marks[(place / 8) as usize] = true;
    }
    Ok(marks)
}

/// Whether an instruction calls a slot that is none of the first ones.
#[tactic(auto, unfolding(crate::specs::Linking::leaves))]
fn leaves(own: u32, slot: u32, insn: &Insn) -> bool
    ensures { result ≡ of_code.leaves own slot insn.now }
{
    let target = i64::from(slot) + i64::from(insn.imm) + 1;
    is_local_call(insn) && (target < 0 || target >= i64::from(own))
}

/// Whether a slot, in which a relocation is or isn't, calls out of the function of the first ones.
#[tactic(auto, unfolding(crate::specs::Linking::is_stray))]
fn is_stray(fixed: bool, insns: &InsnList, own: u32, slot: u32) -> bool
    ensures { result ≡ of_code.is_stray fixed insns.now own slot }
{
    !fixed && slot < insns.len() && leaves(own, slot, insns.at(slot))
}

/// The first call out of a function in whose slot no relocation is.
#[tactic(auto, unfolding(crate::specs::Linking::first_stray))]
pub(crate) fn first_stray(marks: &[bool], insns: &InsnList, own: u32) -> Option<u32>
    requires len { length marks.now ≡ own }
    ensures { (fixes : List of_code.Fix)
        → ((slot : ℕ) → slot < own → slice_index_or marks.now slot false ≡ of_code.is_fixed fixes slot)
        → result ≡ of_code.first_stray fixes insns.now own }
{
    for slot in 0..own {
        if is_stray(marks[slot as usize], insns, own, slot) {
            return Some(slot);
        }
    }
    None
}
