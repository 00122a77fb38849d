ghost use Rattle.std.specs.Prelude.{◌≡◌, ◌%◌, ◌^◌};

/// The low half of a register, which is what an instruction of 32 bits reads.
#[inline]
pub(crate) fn low_half(register: u64) -> u32
    ensures { result ≡ register % 2 ^ 32 }
{
    (register & 0xffff_ffff) as u32
}
