ghost use Rattle.std.specs.Prelude.{◌≡◌, ◌⊎◌, ◌+◌, ◌%◌, ◌^◌, ◌==◌, pos, if◌then◌else◌, slice_index, slice_set, Some};
ghost use Rattle.std.specs.Int.{w32, w64, cast_unsigned};
ghost use Rattle.bpf_alu.specs.Order.{swap};
ghost use Rattle.bpf_insn.specs.Insn.{HasRegisters};
ghost use Rattle.bpf_insn.specs.Form.{Fits, form_of};
ghost use Rattle.bpf_insn.specs.Operation.{atomic_code};
ghost use Rattle.bpf_machine.specs.Arithmetic.{imm_of, operand_of, op_of, second_of, operated, holds};
ghost use Rattle.bpf_machine.specs.Access.{address_of};
ghost use Rattle.bpf_machine.specs.Instruction.{exchanged};

use crate::scratch::Registers;
use bpf_alu::{Op, Test, alu32, alu64, compare32, compare64, extend};
use bpf_insn::{Arithmetic, Atomic, Insn, Operand, Width};

/// The operation on 64 bits, or on the low halves.
#[inline]
pub(crate) fn operate(width: Width, op: Op, target: u64, source: u64) -> u64
    ensures { result ≡ operated width op target source }
{
    match width {
        Width::Bits32 => alu32(op, target, source),
        Width::Bits64 => alu64(op, target, source),
    }
}

/// Whether the test holds of 64 bits, or of the low halves.
#[inline]
pub(crate) fn test(width: Width, test: Test, left: u64, right: u64) -> bool
    ensures { result ≡ holds width test left right }
{
    match width {
        Width::Bits32 => compare32(test, left, right),
        Width::Bits64 => compare64(test, left, right),
    }
}

/// The second operand, an immediate with its sign extended.
#[inline]
pub(crate) fn operand_value(registers: &Registers, insn: &Insn, operand: Operand) -> u64
    requires { HasRegisters insn.now }
    ensures { result ≡ operand_of operand insn.now registers.now }
{
    match operand {
        Operand::Imm => i64::from(insn.imm).cast_unsigned(),
        Operand::Register => registers[insn.source as usize],
    }
}

/// A register plus an offset.
#[inline]
pub(crate) fn address(base: u64, offset: i16) -> u64
    ensures { result ≡ address_of base offset }
{
    base.wrapping_add(i64::from(offset).cast_unsigned())
}

/// The operation and its second operand: an offset makes a division signed, and says of how many bits a move extends the
/// sign (RFC 9669 §4.1).
#[inline]
fn operation_of(op: Arithmetic, offset: i16, second: u64) -> (Op, u64)
    requires { (op ≡ Arithmetic.Mov) → (offset ≡ pos 0) ⊎ ((offset ≡ pos 8) ⊎ ((offset ≡ pos 16) ⊎ (offset ≡ pos 32))) }
    ensures op { result.0 ≡ op_of op offset }
    ensures second { result.1 ≡ second_of op offset second }
{
    let signed = offset != 0;
    match op {
        Arithmetic::Add => (Op::Add, second),
        Arithmetic::Sub => (Op::Sub, second),
        Arithmetic::Mul => (Op::Mul, second),
        Arithmetic::Div if signed => (Op::Sdiv, second),
        Arithmetic::Div => (Op::Div, second),
        Arithmetic::Or => (Op::Or, second),
        Arithmetic::And => (Op::And, second),
        Arithmetic::Lsh => (Op::Lsh, second),
        Arithmetic::Rsh => (Op::Rsh, second),
        Arithmetic::Mod if signed => (Op::Smod, second),
        Arithmetic::Mod => (Op::Mod, second),
        Arithmetic::Xor => (Op::Xor, second),
        Arithmetic::Mov if signed => (Op::Mov, extend(second, u32::from(offset.cast_unsigned()))),
        Arithmetic::Mov => (Op::Mov, second),
        Arithmetic::Arsh => (Op::Arsh, second),
    }
}

/// Puts the result of an operation of two operands into the target.
#[inline]
pub(crate) fn operate_alu(
    registers: &mut Registers,
    insn: &Insn,
    width: Width,
    op: Arithmetic,
    operand: Operand,
)
    requires registers { HasRegisters insn.now }
    requires moved { (op ≡ Arithmetic.Mov) → (insn.now.offset ≡ pos 0) ⊎ ((insn.now.offset ≡ pos 8) ⊎ ((insn.now.offset ≡ pos 16) ⊎ (insn.now.offset ≡ pos 32))) }
    ensures { registers.new ≡ slice_set registers.old insn.now.target
        (operated width (op_of op insn.now.offset) (slice_index registers.old insn.now.target)
        (second_of op insn.now.offset (operand_of operand insn.now registers.old))) }
{
    let second = operand_value(registers, insn, operand);
    let (op, second) = operation_of(op, insn.offset, second);
    let target = insn.target as usize;
    registers[target] = operate(width, op, registers[target], second);
}

/// What an atomic operation leaves in memory, of what is there, the source and r0.
#[inline]
pub(crate) fn exchange(width: Width, op: Atomic, old: u64, source: u64, r0: u64) -> u64
    ensures { result ≡ exchanged width op old source r0 }
{
    match op {
        Atomic::Add | Atomic::FetchAdd => operate(width, Op::Add, old, source),
        Atomic::Or | Atomic::FetchOr => operate(width, Op::Or, old, source),
        Atomic::And | Atomic::FetchAnd => operate(width, Op::And, old, source),
        Atomic::Xor | Atomic::FetchXor => operate(width, Op::Xor, old, source),
        Atomic::Exchange => source,
        Atomic::CompareExchange => compare_exchange(width, old, source, r0),
    }
}

/// The source where r0, or its low half, is what is there, and otherwise what is there.
#[inline]
fn compare_exchange(width: Width, old: u64, source: u64, r0: u64) -> u64
    ensures { result ≡ exchanged width Atomic.CompareExchange old source r0 }
{
    let expected = match width {
        Width::Bits32 => r0 & 0xffff_ffff,
        Width::Bits64 => r0,
    };
    if old == expected { source } else { old }
}
