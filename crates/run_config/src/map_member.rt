//! The members of a map's definition.

ghost use Rattle.std.specs.Prelude.{◌≡◌, ℕ, ◌≤◌, ◌↔◌, false, not, length, IfNone, IfSome};
ghost use Rattle.btf_types.specs.TypeTable.{name_at, PartFits};
ghost use Rattle.run_config.specs.FieldName.{field_name};
ghost use Rattle.run_config.specs.Given.{IsRead};
ghost use Rattle.run_config.specs.MapMembers.{is_number, is_size, Points};

use crate::counted::counted;
use btf_types::{Part, Size, Types, kind};

/// What a member of a map's definition gives.
#[derive(Clone, Copy)]
pub(crate) enum Field {
    Kind,
    MaxEntries,
    KeySize,
    ValueSize,
    MapFlags,
    Pinning,
    Key,
    Value,
}

impl Field {
    /// Whether a member gives the size of a type, and no number.
    #[tactic(auto, unfolding(crate::specs::MapMembers::is_number, crate::specs::MapMembers::is_size))]
    fn gives_size(self) -> bool
        ensures size { result ≡ is_size (field_name self) }
        ensures number { not result ≡ is_number (field_name self) }
    {
        match self {
            Field::Key | Field::Value => true,
            Field::Kind
            | Field::MaxEntries
            | Field::KeySize
            | Field::ValueSize
            | Field::MapFlags
            | Field::Pinning => false,
        }
    }
}

/// What a member of this name gives.
#[tactic(auto, unfolding(crate::specs::MapMembers::is_number, crate::specs::MapMembers::is_size))]
fn field_of(name: &[u8]) -> Option<Field>
    ensures name { IfSome result (λ field. name.now ≡ field_name field) }
    ensures other { IfNone result ((is_number name.now ≡ false) × (is_size name.now ≡ false)) }
{
    if name == b"type".as_slice() {
        Some(Field::Kind)
    } else if name == b"max_entries".as_slice() {
        Some(Field::MaxEntries)
    } else if name == b"key_size".as_slice() {
        Some(Field::KeySize)
    } else if name == b"value_size".as_slice() {
        Some(Field::ValueSize)
    } else if name == b"map_flags".as_slice() {
        Some(Field::MapFlags)
    } else if name == b"pinning".as_slice() {
        Some(Field::Pinning)
    } else if name == b"key".as_slice() {
        Some(Field::Key)
    } else if name == b"value".as_slice() {
        Some(Field::Value)
    } else {
        None
    }
}

/// One byte more than the longest name of a field has.
const FRONT: usize = 12;

/// What a member gives.
#[tactic(auto, using(crate::proofs::Fronts::fields))]
fn field_at(types: &Types, member: &Part) -> Option<Field>
    requires { PartFits types.now member.now }
    ensures name { IfSome result (λ field. name_at types.now member.now.name ≡ field_name field) }
    ensures other { IfNone result ((is_number (name_at types.now member.now.name) ≡ false)
        × (is_size (name_at types.now member.now.name) ≡ false)) }
{
    field_of(types.name_front(member.name, FRONT))
}

/// The type that a pointer points to.
fn target_of(types: &Types, number: u32) -> Option<u32>
    requires { number ≤ length types.now.rows }
    ensures target { (target : ℕ) → (result ≡ Some target) ↔ Points types.now number target }
    ensures in_range { IfSome result (λ target. target ≤ length types.now.rows) }
{
    if number == 0 {
        return None;
    }
    let row = types.type_at(number);
    (row.kind == kind::PTR).then_some(row.size_or_target)
}

/// What a member gives and its number, or the rule that it breaks.
pub(crate) fn read_member(types: &Types, member: &Part) -> Result<(Field, u32), u8>
    requires { PartFits types.now member.now }
    ensures { IsRead types.now member.now result }
{
    let Some(field) = field_at(types, member) else {
        return Err(2);
    };
    if !field.gives_size() {
        return match counted(types, member.target) {
            Some(value) => Ok((field, value)),
            None => Err(3),
        };
    }
    let Some(target) = target_of(types, member.target) else {
        return Err(3);
    };
    match types.size_of(target) {
        Size::Known(size) => Ok((field, size)),
        Size::Endless | Size::Unsized => Err(4),
    }
}
