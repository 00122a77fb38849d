ghost use Rattle.std.specs.Prelude.{◌≡◌, ◌*◌, ◌≤◌, ◌⊎◌};
ghost use Rattle.flat_memory.specs.Numbers.{size_of};
ghost use Rattle.bpf_machine.specs.Instruction.{full_size, atomic_size};

use bpf_insn::{Narrow, Size, Width};

/// How many bytes a size has.
#[inline]
pub(crate) fn bytes_of(size: Size) -> u64
    ensures bytes { result ≡ size_of size }
    ensures small { result ≤ 8 }
{
    match size {
        Size::Byte => 1,
        Size::Half => 2,
        Size::Word => 4,
        Size::Double => 8,
    }
}

/// The size of what is loaded with its sign.
#[inline]
pub(crate) fn size_of_narrow(size: Narrow) -> Size
    ensures { result ≡ full_size size }
{
    match size {
        Narrow::Byte => Size::Byte,
        Narrow::Half => Size::Half,
        Narrow::Word => Size::Word,
    }
}

/// The size of what an atomic operation changes.
#[inline]
pub(crate) fn size_of_width(width: Width) -> Size
    ensures { result ≡ atomic_size width }
{
    match width {
        Width::Bits32 => Size::Word,
        Width::Bits64 => Size::Double,
    }
}
