//! Relocations applied to a code.

ghost use Rattle.std.specs.Prelude.{◌≡◌, ◌<◌, ◌≤◌, ◌+◌, ◌*◌, ◌/◌, All, length};
ghost use Rattle.elf_objects.specs.Object.{symbols};
ghost use Rattle.map_store.specs.Initial.{AreMakeable};
ghost use Rattle.run_config.specs.Maps.{specs_of};
ghost use Rattle.object_load.specs.KnownMaps.{AreKnown};
ghost use Rattle.object_load.specs.Layout.{IsLayout};
ghost use Rattle.object_load.specs.Linking as of_code;

use crate::addresses::{immediate, is_wide_load};
use crate::known_maps::KnownMaps;
use crate::layout::Layout;
use crate::pieces::Piece;
use bpf_insn::{Insn, InsnList};
use elf_objects::{Object, Reloc};
use run_config::NamedMap;

/// Gives the instruction of a slot another immediate, if there is one.
#[tactic(auto, unfolding(crate::specs::Linking::with_imm))]
fn set_imm(insns: &mut InsnList, slot: u32, imm: i32)
    ensures { insns.new ≡ of_code.with_imm insns.old slot imm }
{
    if slot < insns.len() {
        let mut insn = *insns.at(slot);
        insn.imm = imm;
        insns.set(slot, insn);
    }
}

/// Gives an instruction another immediate; the second slot of a wide load then has 0.
#[tactic(auto, unfolding(crate::specs::Linking::changed))]
fn change(insns: &mut InsnList, slot: u32, insn: &Insn, imm: i32)
    requires { slot ≤ 65536 }
    ensures { insns.new ≡ of_code.changed insns.old slot insn.now imm }
{
    set_imm(insns, slot, imm);
    if is_wide_load(insn) {
        set_imm(insns, slot + 1, 0);
    }
}

/// Applies a relocation at a place of a code, or answers its slot.
#[tactic(auto, unfolding(crate::specs::Linking::fixed))]
fn fix(
    object: &Object<'_>,
    layout: &Layout,
    maps: &[NamedMap],
    own: u32,
    place: u64,
    reloc: &Reloc,
    known: &mut KnownMaps,
    insns: &mut InsnList,
) -> Result<(), u32>
    requires symbol { reloc.now.symbol < length (symbols object.now) }
    requires known { AreKnown object.now maps.now known.old }
    requires layout { IsLayout object.now layout.now }
    requires makeable { AreMakeable (specs_of maps.now) }
    requires few { length layout.now.constants ≤ length maps.now }
    requires own { own + layout.now.text_size / 8 ≤ 65536 }
    requires place { place ≤ 8 * 65536 }
    ensures fixed { of_code.outcome result insns.new
        ≡ of_code.fixed object.now maps.now own insns.old (of_code.fix_at reloc.now place) }
    ensures known { AreKnown object.now maps.now known.new }
{
    let slot = (place / 8) as u32;
    if place % 8 != 0 || slot >= insns.len() {
        return Err(slot);
    }
    let insn = *insns.at(slot);
    match immediate(object, layout, maps, own, slot, reloc, &insn, known) {
        Some(imm) => {
            change(insns, slot, &insn, imm);
            Ok(())
        }
        None => Err(slot),
    }
}

/// Applies relocations of a piece of a code in turn, up to the first that can't be applied.
pub(crate) fn fix_all(
    object: &Object<'_>,
    layout: &Layout,
    maps: &[NamedMap],
    own: u32,
    piece: Piece,
    relocs: &[Reloc],
    known: &mut KnownMaps,
    insns: &mut InsnList,
) -> Result<(), u32>
    requires known { AreKnown object.now maps.now known.old }
    requires symbols { All (λ reloc. reloc.symbol < length (symbols object.now)) relocs.now }
    requires layout { IsLayout object.now layout.now }
    requires makeable { AreMakeable (specs_of maps.now) }
    requires few { length layout.now.constants ≤ length maps.now }
    requires own { own + layout.now.text_size / 8 ≤ 65536 }
    requires small { of_code.bound_of piece ≤ 8 * 65536 + 1 }
    ensures fixed { of_code.outcome result insns.new
        ≡ of_code.fixed_all object.now maps.now own insns.old (of_code.fixes_in piece relocs.now) }
    ensures known { AreKnown object.now maps.now known.new }
{
    for reloc in relocs {
        let Some(place) = piece.place_of(reloc.offset) else {
            continue;
        };
        fix(object, layout, maps, own, place, reloc, known, insns)?;
    }
    Ok(())
}
