ghost use Rattle.std.specs.Prelude.{◌≡◌, ◌⊎◌};
ghost use Rattle.bpf_alu.specs.Numbers.{extend};

/// The low `bits` bits, sign-extended to 64 (RFC 9669, section 2.3).
#[inline]
#[tactic(auto, using(crate::proofs::Lemmas::extensions))]
pub fn extend(value: u64, bits: u32) -> u64
    requires { (bits ≡ 8) ⊎ (bits ≡ 16) ⊎ (bits ≡ 32) }
    ensures { result ≡ extend value bits }
{
    let spare = 64 - bits;
    ((value << spare).cast_signed() >> spare).cast_unsigned()
}
