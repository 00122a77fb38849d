//! The kinds of types, by their numbers in the format, and what stands behind a type of each kind.

ghost use Rattle.std.specs.Prelude.{◌≡◌, ◌≤◌};
ghost use Rattle.btf_types.specs.Kind as kinds;

pub const INT: u8 = 1;

pub const PTR: u8 = 2;

pub const ARRAY: u8 = 3;

pub const STRUCT: u8 = 4;

pub const UNION: u8 = 5;

pub const ENUM: u8 = 6;

pub const FWD: u8 = 7;

pub const TYPEDEF: u8 = 8;

pub const VOLATILE: u8 = 9;

pub const CONST: u8 = 10;

pub const RESTRICT: u8 = 11;

pub const FUNC: u8 = 12;

pub const FUNC_PROTO: u8 = 13;

pub const VAR: u8 = 14;

pub const DATASEC: u8 = 15;

pub const FLOAT: u8 = 16;

pub const DECL_TAG: u8 = 17;

pub const TYPE_TAG: u8 = 18;

pub const ENUM64: u8 = 19;

/// Whether there is a kind of this number.
#[tactic(auto, unfolding(crate::specs::Kind::is_known))]
pub(crate) fn is_known(kind: u8) -> bool
    ensures { result ≡ kinds.is_known kind }
{
    INT <= kind && kind <= ENUM64
}

/// The bytes of each entry of a type: a member, an enumerator, a parameter or a variable.
#[tactic(auto, unfolding(crate::specs::Kind::entry_width))]
pub(crate) fn entry_width(kind: u8) -> usize
    ensures value { result ≡ kinds.entry_width kind }
    ensures small { result ≤ 12 }
{
    match kind {
        STRUCT | UNION | DATASEC | ENUM64 => 12,
        ENUM | FUNC_PROTO => 8,
        _ => 0,
    }
}

/// The bytes behind the first twelve of a type that has no entries.
#[tactic(auto, unfolding(crate::specs::Kind::tail_width))]
pub(crate) fn tail_width(kind: u8) -> usize
    ensures value { result ≡ kinds.tail_width kind }
    ensures small { result ≤ 12 }
{
    match kind {
        ARRAY => 12,
        INT | VAR | DECL_TAG => 4,
        _ => 0,
    }
}

/// Whether each entry begins with its name.
#[tactic(auto, unfolding(crate::specs::Kind::names_entries))]
pub(crate) fn names_entries(kind: u8) -> bool
    ensures { result ≡ kinds.names_entries kind }
{
    matches!(kind, STRUCT | UNION | ENUM | FUNC_PROTO | ENUM64)
}

/// Whether the type has a target, in place of a size.
pub(crate) fn has_target(kind: u8) -> bool
    ensures { result ≡ kinds.has_target kind }
{
    matches!(
        kind,
        PTR | TYPEDEF | VOLATILE | CONST | RESTRICT | FUNC | FUNC_PROTO | VAR | DECL_TAG | TYPE_TAG
    )
}
