//! What a type says of a map.

ghost use Rattle.std.specs.Prelude.{◌≡◌, ◌≤◌, ◌↔◌, [], ◌∷◌, ◌++◌, List, length, None, Some, IfOk, IfSome, option_copied};
ghost use Rattle.btf_types.specs.declared.types.Part.{Part};
ghost use Rattle.btf_types.specs.declared.types.TypeRow.{TypeRow};
ghost use Rattle.btf_types.specs.TypeTable.{RowFits, TypeTable};
ghost use Rattle.run_config.specs.FieldName.{field_name};
ghost use Rattle.run_config.specs.Given.{given_by, is_contrary_given, AreGiven, IsRead};
ghost use Rattle.run_config.specs.MapDefinition.{differ, kind_of, spec_of, Defines, IsPlainStructure};
ghost use Rattle.run_config.specs.Values.{Named};
ghost use Rattle.run_config.specs.Variables.{parts_of};

use crate::map_member::{Field, read_member};
use crate::variables::part_at;
use btf_types::{TypeRow, Types, kind};
use lists::Bytes;
use map_store::{MapKind, MapSpec};
use std::alloc::Global;

/// The numbers that the members of a definition give, the last of each name.
#[derive(Clone, Copy)]
struct Given {
    kind: Option<u32>,
    max_entries: Option<u32>,
    key_size: Option<u32>,
    value_size: Option<u32>,
    map_flags: Option<u32>,
    /// The size of the type of keys.
    key: Option<u32>,
    /// The size of the type of values.
    value: Option<u32>,
}

/// The kind of map of a number.
#[tactic(auto, unfolding(crate::specs::MapDefinition::kind_of))]
fn kind_of(number: u32) -> Option<MapKind>
    ensures { result ≡ kind_of number }
{
    match number {
        1 => Some(MapKind::Hash),
        2 => Some(MapKind::Array),
        5 => Some(MapKind::PercpuHash),
        6 => Some(MapKind::PercpuArray),
        _ => None,
    }
}

/// Whether both are there, and not one number.
fn differ(one: Option<u32>, other: Option<u32>) -> bool
    ensures { result ≡ differ one other }
{
    match (one, other) {
        (Some(one), Some(other)) => one != other,
        _ => false,
    }
}

impl Given {
    #[tactic(auto, unfolding(crate::specs::Given::given_by, crate::specs::Values::last_value))]
    fn nothing() -> Given
        ensures { result ≡ given_by [] }
    {
        Given {
            kind: None,
            max_entries: None,
            key_size: None,
            value_size: None,
            map_flags: None,
            key: None,
            value: None,
        }
    }

    /// What is given with one member more.
    #[tactic(auto, using(crate::proofs::GivenLemmas::one_more), unfolding(crate::specs::Given::given_by))]
    fn with(self, field: Field, number: u32) -> Given
        ensures { (values : List Named) → self ≡ given_by values
            → result ≡ given_by (values ++ record { name = field_name field; value = number } ∷ []) }
    {
        let mut given = self;
        match field {
            Field::Kind => given.kind = Some(number),
            Field::MaxEntries => given.max_entries = Some(number),
            Field::KeySize => given.key_size = Some(number),
            Field::ValueSize => given.value_size = Some(number),
            Field::MapFlags => given.map_flags = Some(number),
            Field::Pinning => {}
            Field::Key => given.key = Some(number),
            Field::Value => given.value = Some(number),
        }
        given
    }

    /// Whether a size differs from that of its type, or the flags are above 1.
    fn is_contrary(self) -> bool
        ensures { result ≡ is_contrary_given self }
    {
        differ(self.key_size, self.key)
            || differ(self.value_size, self.value)
            || self.map_flags.unwrap_or(0) > 1
    }

    /// The map of these numbers, or the first of the rules 4 and 5 that they break.
    fn spec(self, alloc: Global) -> Result<MapSpec, u8>
        ensures spec { (values : List Named) → self ≡ given_by values → result ≡ spec_of values }
        ensures initial { IfOk result (λ spec. spec.initial ≡ []) }
    {
        if self.is_contrary() {
            return Err(4);
        }
        let Some(kind) = kind_of(self.kind.unwrap_or(0)) else {
            return Err(5);
        };
        Ok(MapSpec {
            kind,
            key_size: self.key_size.or(self.key).unwrap_or(0),
            value_size: self.value_size.or(self.value).unwrap_or(0),
            max_entries: self.max_entries.unwrap_or(0),
            initial: Bytes::new(alloc),
        })
    }
}

/// What is given by one member more than those before it, or the least rule that one of them breaks.
fn joined(before: Result<Given, u8>, member: Result<(Field, u32), u8>) -> Result<Given, u8>
    ensures { (types : TypeTable) (members : List Part) (one : Part)
        → AreGiven types members before → IsRead types one member → AreGiven types (members ++ one ∷ []) result }
{
    match (before, member) {
        (Ok(given), Ok((field, number))) => Ok(given.with(field, number)),
        (Ok(_), Err(rule)) => Err(rule),
        (Err(rule), Ok(_)) => Err(rule),
        (Err(rule), Err(other)) => Err(rule.min(other)),
    }
}

/// What the members of a structure give, or the least rule that one of them breaks.
fn read_members(types: &Types, structure: &TypeRow) -> Result<Given, u8>
    requires { RowFits types.now structure.now }
    ensures { AreGiven types.now (parts_of types.now structure.now) result }
{
    let mut given = Ok(Given::nothing());
    for place in 0..structure.count {
        let member = part_at(types, structure, place);
        given = joined(given, read_member(types, member));
    }
    given
}

/// The structure that a type is, with no modifier in front.
fn structure_at(types: &Types, number: u32) -> Option<&TypeRow>
    requires { number ≤ length types.now.rows }
    ensures structure { (structure : TypeRow)
        → (option_copied result ≡ Some structure) ↔ IsPlainStructure types.now number structure }
    ensures fits { IfSome result (λ structure. RowFits types.now structure.now) }
{
    if number == 0 {
        return None;
    }
    let row = types.type_at(number);
    (row.kind == kind::STRUCT).then_some(row)
}

/// The map that a type defines, or the first of the rules 1 to 5 that it breaks. It takes no memory.
pub(crate) fn map_spec(alloc: Global, types: &Types, number: u32) -> Result<MapSpec, u8>
    requires { number ≤ length types.now.rows }
    ensures defines { Defines types.now number result }
    ensures initial { IfOk result (λ spec. spec.initial ≡ []) }
{
    let Some(structure) = structure_at(types, number) else {
        return Err(1);
    };
    match read_members(types, structure) {
        Ok(given) => given.spec(alloc),
        Err(rule) => Err(rule),
    }
}
