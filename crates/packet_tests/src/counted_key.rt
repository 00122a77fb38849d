//! A key that counts how often it is compared.

ghost use Rattle.std.specs.Prelude.{◌==◌};
ghost use Rattle.std.proofs.Common.{rules};
ghost use Rattle.std.specs.Cmp.Rules.{comparing, hashing};
ghost use Rattle.std.specs.Hash as fed;

use std::hash::{Hash, Hasher};
use std::sync::atomic::{AtomicU32, Ordering};

/// A number, and the count of the comparisons that its test borrows.
#[derive(Clone, Copy)]
pub struct CountedKey<'a> {
    pub number: u32,
    pub comparisons: &'a AtomicU32,
}

impl<'a> PartialEq for CountedKey<'a> {
    ghost eq = { λ a b. a.number == b.number };

    ghost laws = { Prim.search (comparing, rules) };

    fn eq(&self, other: &CountedKey<'a>) -> bool {
        self.comparisons.fetch_add(1, Ordering::SeqCst);
        self.number == other.number
    }
}

impl<'a> Eq for CountedKey<'a> {
    ghost laws = { Prim.search (comparing, rules) };
}

impl<'a> Hash for CountedKey<'a> {
    ghost hash_input = { λ a. fed.u32 a.number };

    ghost respects_eq = { Prim.search (hashing, rules) };

    fn hash<H: Hasher>(&self, state: &mut H) {
        self.number.hash(state);
    }
}
