//! The parts of a type, and the variables of a section.

ghost use Rattle.std.specs.Prelude.{◌≡◌, ◌+◌, ◌<◌, ◌≤◌, [], ◌∷◌, ◌++◌, drop, length, slice_get, take, Some, IfSome, option_copied};
ghost use Rattle.btf_types.specs.TypeTable.{PartFits, RowFits};
ghost use Rattle.run_config.specs.Variables as of_types;

use btf_types::{Part, TypeRow, Types, kind};

/// A part of a type, by its place among the type's.
#[tactic(auto, using(crate::proofs::Parts::part_of_row), unfolding(crate::specs::Variables::parts_of))]
pub(crate) fn part_at<'a>(types: &'a Types, row: &TypeRow, place: u32) -> &'a Part
    requires fits { RowFits types.now row.now }
    requires in_range { place < row.now.count }
    ensures part { slice_get (of_types.parts_of types.now row.now) place ≡ Some result.now }
    ensures fits { PartFits types.now result.now }
    ensures so_far { take (place + 1) (of_types.parts_of types.now row.now)
        ≡ take place (of_types.parts_of types.now row.now) ++ result.now ∷ [] }
    ensures left { drop place (of_types.parts_of types.now row.now)
        ≡ result.now ∷ drop (place + 1) (of_types.parts_of types.now row.now) }
{
    types.part(row.first + place)
}

/// The variable that an entry of a section stands for.
#[tactic(auto, unfolding(crate::specs::Variables::variable_of))]
pub(crate) fn variable_of<'a>(types: &'a Types, entry: &Part) -> Option<&'a TypeRow>
    requires { PartFits types.now entry.now }
    ensures variable { option_copied result ≡ of_types.variable_of types.now entry.now }
    ensures fits { IfSome result (λ variable. RowFits types.now variable.now) }
    ensures target { IfSome result (λ variable. variable.now.size_or_target ≤ length types.now.rows) }
{
    if entry.target == 0 {
        return None;
    }
    let row = types.type_at(entry.target);
    (row.kind == kind::VAR).then_some(row)
}

/// The first section of a name.
#[tactic(auto, using(crate::proofs::Parts::section_in_rows), unfolding(crate::specs::Variables::section_of))]
pub(crate) fn section_of<'a>(types: &'a Types, name: &[u8]) -> Option<&'a TypeRow>
    ensures section { option_copied result ≡ of_types.section_of types.now name.now }
    ensures fits { IfSome result (λ section. RowFits types.now section.now) }
{
    let number = types.section_vars(name)?;
    Some(types.type_at(number))
}
