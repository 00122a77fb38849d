ghost use Rattle.std.specs.Prelude.{◌≡◌};
ghost use Rattle.pcapng_text.specs.declared.refusal.Refusal.TheVariants.{Broken, OutOfMemory as NoMemory};

use crate::rule::Rule;
use lists::OutOfMemory;

/// Why a block was not taken.
#[derive(Clone, Copy)]
pub(crate) enum Refusal {
    Broken(Rule),
    OutOfMemory,
}

impl From<Rule> for Refusal {
    ghost from_gives = { λ rule refusal. refusal ≡ Broken rule };

    fn from(rule: Rule) -> Self {
        Refusal::Broken(rule)
    }
}

impl From<OutOfMemory> for Refusal {
    ghost from_gives = { λ _ refusal. refusal ≡ NoMemory };

    fn from(_: OutOfMemory) -> Self {
        Refusal::OutOfMemory
    }
}
