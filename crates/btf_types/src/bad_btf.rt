ghost use Rattle.std.specs.Prelude.{◌≡◌};
ghost use Rattle.btf_types.specs.declared.bad_btf.BtfEnd.TheVariants.{BadBtf as Broken, OutOfMemory as NoMemory};

use lists::OutOfMemory;

/// The first rule of B1 to B11 that bytes break, and the place of the break from their first byte.
#[derive(Clone, Copy, Debug, PartialEq, Eq)]
pub struct BadBtf {
    pub offset: u64,
    pub rule: u8,
}

/// Why there are no types.
#[derive(Clone, Copy, Debug, PartialEq, Eq)]
pub enum BtfEnd {
    BadBtf(BadBtf),
    OutOfMemory,
}

impl From<OutOfMemory> for BtfEnd {
    ghost from_gives = { λ _ end. end ≡ NoMemory };

    fn from(_: OutOfMemory) -> Self {
        BtfEnd::OutOfMemory
    }
}

impl From<BadBtf> for BtfEnd {
    ghost from_gives = { λ bad end. end ≡ Broken bad };

    fn from(bad: BadBtf) -> Self {
        BtfEnd::BadBtf(bad)
    }
}
