//! Why a file is refused.

ghost use Rattle.std.specs.Prelude.{◌≡◌, None};
ghost use Rattle.std.specs.Result.{result_err};
ghost use Rattle.elf_objects.specs.Breaks.{first_place, break_or};
ghost use Rattle.elf_objects.specs.Header.{test_at};

use lists::OutOfMemory;

/// The first rule that a file breaks, E1 to E20, and the first place in the file where it does.
#[derive(Clone, Copy, Debug, PartialEq, Eq)]
pub struct BadElf {
    pub offset: u64,
    pub rule: u8,
}

/// Why no object was read.
#[derive(Clone, Copy, Debug, PartialEq, Eq)]
pub enum ObjectEnd {
    BadElf(BadElf),
    OutOfMemory,
}

impl From<OutOfMemory> for ObjectEnd {
    ghost use Rattle.std.specs.Prelude.{◌≡◌};
    ghost use Rattle.elf_objects.specs.declared.bad_elf.ObjectEnd.TheVariants.{OutOfMemory};

    ghost from_gives = { λ _ end. end ≡ OutOfMemory };

    fn from(_: OutOfMemory) -> Self {
        ObjectEnd::OutOfMemory
    }
}

/// The place of a rule that is tested at one place alone, where it is broken.
pub(crate) fn broken_at(offset: u64, is_broken: bool) -> Option<u64>
    ensures { result ≡ first_place (test_at offset is_broken) }
{
    is_broken.then_some(offset)
}

/// Refuses a file where a rule is broken.
pub(crate) fn check_rule(rule: u8, broken: Option<u64>) -> Result<(), BadElf>
    ensures { result_err result ≡ break_or rule broken None }
{
    match broken {
        None => Ok(()),
        Some(offset) => Err(BadElf { offset, rule }),
    }
}
