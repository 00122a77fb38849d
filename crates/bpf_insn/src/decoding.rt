ghost use Rattle.std.specs.Prelude.{◌≡◌, ◌≤◌, ◌<◌, ◌↔◌, ◌⊎◌, ◌++◌, ℕ, List, length, take, Result, Ok, Err, IsTrue, IfOk, IfSome, IfNone, OnOk, All};
ghost use Rattle.std.specs.List.{flat_map};
ghost use Rattle.bpf_insn.specs.declared.insn.Insn.{Insn};
ghost use Rattle.bpf_insn.specs.Form.{half_form, Fits, IsListed};
ghost use Rattle.bpf_insn.specs.Code.{IsPiece, insns_of, Decodes, IsDecoded, Gives, IsCode};
ghost use Rattle.bpf_insn.specs.Insn.{slot, slot_bytes, HasRegisters};

use crate::insn::{Insn, InsnList};
use crate::table::{HALF, form_at};
use byteorder::{ByteOrder, LittleEndian};
use lists::{List, OutOfMemory};
use std::alloc::Global;

/// Why bytes give no instructions.
#[derive(Clone, Copy, Debug, PartialEq, Eq, Drop)]
pub enum DecodeEnd {
    /// No row of the table takes the slots from this one on.
    BadInsn { index: u32 },
    OutOfMemory,
}

impl From<OutOfMemory> for DecodeEnd {
    ghost use Rattle.bpf_insn.specs.declared.decoding.DecodeEnd.TheVariants.{OutOfMemory};

    ghost from_gives = { λ _ e. e ≡ OutOfMemory };

    fn from(_: OutOfMemory) -> Self {
        DecodeEnd::OutOfMemory
    }
}

/// The opcode of a wide load, which has two slots (RFC 9669 §3.2).
const WIDE_LOAD: u8 = 0x18;

/// The instructions of the bytes, slot by slot.
pub fn decode(alloc: Global, bytes: &[u8]) -> Result<InsnList, DecodeEnd>
    ensures exact { IsDecoded bytes.now result }
    ensures only { (answer : Result (List Insn) ℕ) →
        Decodes bytes.now answer → Gives result answer }

    // What the instructions keep.
    ensures bytes { IfOk result (λ insns. flat_map slot_bytes insns ≡ bytes.now) }
    ensures code { IfOk result IsCode }
    ensures registers { IfOk result (All HasRegisters) }
{
    pieces(alloc, bytes)
}

fn pieces(alloc: Global, bytes: &[u8]) -> Result<InsnList, DecodeEnd>
    ensures { IsDecoded bytes.now result }
{
    let mut insns = List::new(alloc);
    let mut rest = bytes;
    while !rest.is_empty() {
        let Some(size) = piece_size(rest) else {
            return Err(DecodeEnd::BadInsn { index: insns.len() });
        };
        let (piece, after) = rest.split_at(size);
        push_piece(&mut insns, piece)?;
        rest = after;
    }
    Ok(insns)
}

/// Puts the instructions of a piece behind the others.
fn push_piece(insns: &mut InsnList, piece: &[u8]) -> Result<(), OutOfMemory>
    requires { (length piece.now ≡ 8) ⊎ (length piece.now ≡ 16) }
    ensures { OnOk result (insns.new ≡ insns.old ++ insns_of piece.now) }
{
    insns.push(slot_at(piece))?;
    if piece.len() > 8 {
        let mut half = slot_at(&piece[8..]);
        half.half = true;
        insns.push(half)?;
    }
    Ok(())
}

/// How many bytes the piece at the front has.
fn piece_size(bytes: &[u8]) -> Option<usize>
    ensures size { IfSome result (λ n. (n ≡ 8) ⊎ (n ≡ 16)) }
    ensures found { IfSome result (λ n. (n ≤ length bytes.now) × IsPiece (take n bytes.now)) }
    ensures none { IfNone result ((n : ℕ) → IsPiece (take n bytes.now) → ⊥) }
{
    if bytes.len() < 8 {
        return None;
    }
    let first = slot_at(bytes);
    if !is_listed(&first) {
        None
    } else if first.opcode != WIDE_LOAD {
        Some(8)
    } else if begins_with_half(&bytes[8..]) {
        Some(16)
    } else {
        None
    }
}

/// Whether some row of the table fits.
fn is_listed(insn: &Insn) -> bool
    requires target { insn.now.target < 16 }
    requires source { insn.now.source < 16 }
    ensures { IsTrue result ↔ IsListed insn.now }
{
    match form_at(insn.opcode) {
        Some(form) => form.fits(insn),
        None => false,
    }
}

/// Whether the second slot of a wide load comes first.
fn begins_with_half(bytes: &[u8]) -> bool
    ensures { IsTrue result ↔ ((8 ≤ length bytes.now) × Fits half_form (slot bytes.now)) }
{
    bytes.len() >= 8 && HALF.fits(&slot_at(bytes))
}

/// The slot at the front.
fn slot_at(bytes: &[u8]) -> Insn
    requires { 8 ≤ length bytes.now }
    ensures fields { result ≡ slot bytes.now }
    ensures target { result.target < 16 }
    ensures source { result.source < 16 }
{
    Insn {
        opcode: bytes[0],
        target: bytes[1] % 16,
        source: bytes[1] / 16,
        offset: LittleEndian::read_i16(&bytes[2..]),
        imm: LittleEndian::read_i32(&bytes[4..]),
        half: false,
    }
}
