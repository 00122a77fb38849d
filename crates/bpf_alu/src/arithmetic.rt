ghost use Rattle.std.specs.Prelude.{◌≡◌, ◌%◌, ◌^◌, ◌<◌};
ghost use Rattle.bpf_alu.specs.Op.{alu};

use crate::half::low_half;

/// An arithmetic operation (RFC 9669, section 4.1).
/// `Sdiv` and `Smod` are signed and round toward zero, `Arsh` copies the sign, and `Neg` reads no source.
#[derive(Clone, Copy, PartialEq, Eq, Debug)]
pub enum Op {
    Add,
    Sub,
    Mul,
    Div,
    Sdiv,
    Or,
    And,
    Lsh,
    Rsh,
    Neg,
    Mod,
    Smod,
    Xor,
    Mov,
    Arsh,
}

/// The operation on a target and a source of `$bits` bits.
macro_rules! operate {
    ($op:ident, $target:ident, $source:ident, $bits:literal) => {
        match $op {
            Op::Add => $target.wrapping_add($source),
            Op::Sub => $target.wrapping_sub($source),
            Op::Mul => $target.wrapping_mul($source),
            Op::Div if $source == 0 => 0,
            Op::Div => $target / $source,
            Op::Sdiv if $source == 0 => 0,
            Op::Sdiv => $target.cast_signed().wrapping_div($source.cast_signed()).cast_unsigned(),
            Op::Or => $target | $source,
            Op::And => $target & $source,
            Op::Lsh => $target << ($source % $bits),
            Op::Rsh => $target >> ($source % $bits),
            Op::Neg => $target.wrapping_neg(),
            Op::Mod if $source == 0 => $target,
            Op::Mod => $target % $source,
            Op::Smod if $source == 0 => $target,
            Op::Smod => $target.cast_signed().wrapping_rem($source.cast_signed()).cast_unsigned(),
            Op::Xor => $target ^ $source,
            Op::Mov => $source,
            Op::Arsh => ($target.cast_signed() >> ($source % $bits)).cast_unsigned(),
        }
    };
}

/// The target after an operation on 64 bits; an immediate source is one that the caller has sign-extended.
#[inline]
#[tactic(auto, using(crate::proofs::Lemmas::operations), unfolding(crate::specs::Op::alu))]
pub fn alu64(op: Op, target: u64, source: u64) -> u64
    ensures { result ≡ alu 64 op target source }
{
    operate!(op, target, source, 64)
}

/// The target after an operation on the low halves of both registers: the result's upper half is zero.
#[inline]
pub fn alu32(op: Op, target: u64, source: u64) -> u64
    ensures value { result ≡ alu 32 op (target % 2 ^ 32) (source % 2 ^ 32) }
    ensures zero_extended { result < 2 ^ 32 }
{
    u64::from(operate32(op, low_half(target), low_half(source)))
}

#[inline]
#[tactic(auto, using(crate::proofs::Lemmas::operations), unfolding(crate::specs::Op::alu))]
fn operate32(op: Op, target: u32, source: u32) -> u32
    ensures { result ≡ alu 32 op target source }
{
    operate!(op, target, source, 32)
}
