ghost use Rattle.std.specs.Prelude.{◌≡◌, ◌⊎◌};
ghost use Rattle.bpf_alu.specs.Order.{swap};

/// The byte order that an END instruction asks for (RFC 9669, section 4.2).
#[derive(Clone, Copy, PartialEq, Eq, Debug)]
pub enum Order {
    ToLittle,
    ToBig,
    Swap,
}

/// The low `bits` bits in the order that is asked, zero-extended. The machine is little endian, so
/// `ToLittle` leaves their order and the others reverse their bytes.
#[inline]
#[tactic(auto, using(crate::proofs::Lemmas::orders), unfolding(crate::specs::Order::swap))]
pub fn swap(order: Order, value: u64, bits: u32) -> u64
    requires { (bits ≡ 16) ⊎ (bits ≡ 32) ⊎ (bits ≡ 64) }
    ensures { result ≡ swap order value bits }
{
    let spare = 64 - bits;
    match order {
        Order::ToLittle => (value << spare) >> spare,
        Order::ToBig | Order::Swap => value.swap_bytes() >> spare,
    }
}
