use crate::change::Change;
use object_load::LoadRefusal;

/// Why a command is refused.
#[derive(Clone, Copy, Debug, PartialEq, Eq)]
pub enum Reason {
    /// The interface isn't declared.
    NoInterface,
    /// The object gives no programs.
    BadObject(LoadRefusal),
    /// No program of the object has the name and the section.
    NoSuchProgram,
    /// The interface has members, which were attached with the other mode.
    ModeDiffers,
    /// The interface has ten members.
    ChainFull,
    /// The interface has no member.
    NothingLoaded,
    /// No member of the interface has the id.
    NoSuchId,
    /// The interface has a filter already.
    FilterThere,
    /// The interface has no filter; of a rule, that no interface has one.
    FilterNotThere,
    /// A feature that the rule needs is on in no filter.
    FeatureMissing,
    /// All rows are taken, and none has the key.
    RulesFull,
    /// No row with the key has any of the flags.
    NoSuchRule,
    /// A dump is on for the interface already.
    DumpThere,
    /// No dump is on for the interface.
    DumpNotThere,
}

/// The answer to a command: the change that it makes, that it only shows something, or why it is refused.
#[derive(Clone, Copy, Debug, PartialEq, Eq)]
pub enum Judgement {
    Accepted(Change),
    Shown,
    Refused(Reason),
}
