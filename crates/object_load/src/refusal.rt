//! Why an object isn't loaded.

use btf_types::{BadBtf, BtfEnd};
use elf_objects::{BadElf, ObjectEnd};
use lists::OutOfMemory;
use run_config::MapsEnd;

/// Why the bytes of an object give no programs. Where several of these hold, the first is answered, over all programs.
#[derive(Clone, Copy, Debug, PartialEq, Eq)]
pub enum LoadRefusal {
    /// The file breaks one of the rules 1 to 20, or a symbol that names a program breaks rule 21 at its place.
    BadElf(BadElf),
    /// There is data that programs could write.
    WritableData,
    NoProgram,
    /// There are more than 32 programs.
    TooManyPrograms,
    BadBtf(BadBtf),
    /// The place of the first member of a run configuration that sets nothing; 0 where it is no structure.
    BadConfig { member: u32 },
    /// The place of the first map that breaks a rule, and the first of the rules 1 to 10 that it breaks.
    BadMap { index: u32, rule: u8 },
    /// The slot of a program's code at which no instruction begins, or 65,536 where there are more slots than that.
    BadInsn { program: u32, index: u32 },
    /// The slot of a program's code that can't be linked.
    BadReloc { program: u32, index: u32 },
}

/// Why there are no programs.
#[derive(Clone, Copy, Debug, PartialEq, Eq)]
pub enum LoadEnd {
    Refused(LoadRefusal),
    OutOfMemory,
}

/// Why a program's code isn't made: the slot at which it fails.
#[derive(Clone, Copy, Debug, PartialEq, Eq)]
pub(crate) enum SlotEnd {
    Bad { slot: u32 },
    OutOfMemory,
}

impl From<OutOfMemory> for SlotEnd {
    ghost use Rattle.std.specs.Prelude.{◌≡◌};
    ghost use Rattle.object_load.specs.declared.refusal.SlotEnd.TheVariants.{OutOfMemory};

    ghost from_gives = { λ _ end. end ≡ OutOfMemory };

    fn from(_: OutOfMemory) -> Self {
        SlotEnd::OutOfMemory
    }
}

impl From<OutOfMemory> for LoadEnd {
    ghost use Rattle.std.specs.Prelude.{◌≡◌};
    ghost use Rattle.object_load.specs.declared.refusal.LoadEnd.TheVariants.{OutOfMemory};

    ghost from_gives = { λ _ end. end ≡ OutOfMemory };

    fn from(_: OutOfMemory) -> Self {
        LoadEnd::OutOfMemory
    }
}

impl From<LoadRefusal> for LoadEnd {
    ghost use Rattle.std.specs.Prelude.{◌≡◌};
    ghost use Rattle.object_load.specs.declared.refusal.LoadEnd.TheVariants.{Refused};

    ghost from_gives = { λ refusal end. end ≡ Refused refusal };

    fn from(refusal: LoadRefusal) -> Self {
        LoadEnd::Refused(refusal)
    }
}

impl From<ObjectEnd> for LoadEnd {
    ghost use Rattle.std.specs.Prelude.{◌≡◌};
    ghost use Rattle.object_load.specs.Ends.{object_end};

    ghost from_gives = { λ from end. end ≡ object_end from };

    fn from(end: ObjectEnd) -> Self {
        match end {
            ObjectEnd::BadElf(bad) => LoadEnd::Refused(LoadRefusal::BadElf(bad)),
            ObjectEnd::OutOfMemory => LoadEnd::OutOfMemory,
        }
    }
}

impl From<BtfEnd> for LoadEnd {
    ghost use Rattle.std.specs.Prelude.{◌≡◌};
    ghost use Rattle.object_load.specs.Ends.{btf_end};

    ghost from_gives = { λ from end. end ≡ btf_end from };

    fn from(end: BtfEnd) -> Self {
        match end {
            BtfEnd::BadBtf(bad) => LoadEnd::Refused(LoadRefusal::BadBtf(bad)),
            BtfEnd::OutOfMemory => LoadEnd::OutOfMemory,
        }
    }
}

impl From<MapsEnd> for LoadEnd {
    ghost use Rattle.std.specs.Prelude.{◌≡◌};
    ghost use Rattle.object_load.specs.Ends.{maps_end};

    ghost from_gives = { λ from end. end ≡ maps_end from };

    fn from(end: MapsEnd) -> Self {
        match end {
            MapsEnd::BadMap { index, rule } => {
                LoadEnd::Refused(LoadRefusal::BadMap { index, rule })
            }
            MapsEnd::OutOfMemory => LoadEnd::OutOfMemory,
        }
    }
}
