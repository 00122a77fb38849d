ghost use Rattle.std.specs.Prelude.{◌≡◌, ◌%◌, ◌^◌};
ghost use Rattle.bpf_alu.specs.Test.{compare};

use crate::half::low_half;

/// What a conditional jump asks of two registers (RFC 9669, section 4.3).
/// `Set` asks for a bit that both have; `Sgt`, `Sge`, `Slt` and `Sle` are signed.
#[derive(Clone, Copy, PartialEq, Eq, Debug)]
pub enum Test {
    Eq,
    Gt,
    Ge,
    Set,
    Ne,
    Sgt,
    Sge,
    Lt,
    Le,
    Slt,
    Sle,
}

/// The test of two numbers of one width.
macro_rules! compare {
    ($test:ident, $left:ident, $right:ident) => {
        match $test {
            Test::Eq => $left == $right,
            Test::Gt => $left > $right,
            Test::Ge => $left >= $right,
            Test::Set => $left & $right != 0,
            Test::Ne => $left != $right,
            Test::Sgt => $left.cast_signed() > $right.cast_signed(),
            Test::Sge => $left.cast_signed() >= $right.cast_signed(),
            Test::Lt => $left < $right,
            Test::Le => $left <= $right,
            Test::Slt => $left.cast_signed() < $right.cast_signed(),
            Test::Sle => $left.cast_signed() <= $right.cast_signed(),
        }
    };
}

/// Whether the test holds of all 64 bits.
#[inline]
#[tactic(auto, using(crate::proofs::Lemmas::comparisons), unfolding(crate::specs::Test::compare))]
pub fn compare64(test: Test, left: u64, right: u64) -> bool
    ensures { result ≡ compare 64 test left right }
{
    compare!(test, left, right)
}

/// Whether the test holds of the low halves.
#[inline]
#[tactic(auto, using(crate::proofs::Lemmas::comparisons), unfolding(crate::specs::Test::compare))]
pub fn compare32(test: Test, left: u64, right: u64) -> bool
    ensures { result ≡ compare 32 test (left % 2 ^ 32) (right % 2 ^ 32) }
{
    let left = low_half(left);
    let right = low_half(right);
    compare!(test, left, right)
}
