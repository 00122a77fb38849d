ghost use Rattle.std.specs.Prelude.{◌≡◌};
ghost use Rattle.script_text.specs.Readings.{both, if_given, keeps, or_else};
ghost use Rattle.script_text.specs.declared.reading.LineEnd.{LineEnd};
ghost use Rattle.script_text.specs.declared.reading.LineEnd.TheVariants as end;

use crate::rule::Rule;
use xio::OutOfMemory;

/// Why a line isn't read.
#[derive(Clone, Copy)]
pub enum LineEnd {
    BadLine { rule: Rule },
    OutOfMemory,
}

impl From<OutOfMemory> for LineEnd {
    ghost from_gives = { λ _ e. e ≡ end.OutOfMemory };

    fn from(_: OutOfMemory) -> Self {
        LineEnd::OutOfMemory
    }
}

impl From<Rule> for LineEnd {
    ghost from_gives = { λ rule e. e ≡ end.BadLine rule };

    fn from(rule: Rule) -> Self {
        LineEnd::BadLine { rule }
    }
}

/// Both readings, or the least rule that one of them breaks.
pub fn both<A: Copy, B: Copy>(a: Result<A, Rule>, b: Result<B, Rule>) -> Result<(A, B), Rule>
    ensures { result ≡ both a b }
{
    match (a, b) {
        (Ok(a), Ok(b)) => Ok((a, b)),
        (Ok(_), Err(rule)) | (Err(rule), Ok(_)) => Err(rule),
        (Err(rule), Err(other)) => Err(rule.min(other)),
    }
}

/// The rule, kept where the test holds.
pub fn keeps(rule: Rule, test: bool) -> Result<(), Rule>
    ensures { result ≡ keeps rule test }
{
    if test { Ok(()) } else { Err(rule) }
}

/// What an option gives, or what holds without it.
pub fn or_else<T: Copy>(given: Option<Result<T, Rule>>, default: T) -> Result<T, Rule>
    ensures { result ≡ or_else given default }
{
    match given {
        Some(given) => given,
        None => Ok(default),
    }
}

/// What an option gives that may be absent.
pub fn if_given<T: Copy>(given: Option<Result<T, Rule>>) -> Result<Option<T>, Rule>
    ensures { result ≡ if_given given }
{
    match given {
        Some(Ok(value)) => Ok(Some(value)),
        Some(Err(rule)) => Err(rule),
        None => Ok(None),
    }
}
