//! The maps of the variables of an object.

ghost use Rattle.std.specs.Prelude.{◌≡◌, ℕ, ◌≤◌, codes, length, OnOk, IfOk, Err};
ghost use Rattle.btf_types.specs.TypeTable.{RowFits};
ghost use Rattle.map_store.specs.Initial.{AreMakeable};
ghost use Rattle.run_config.specs.Maps as maps_by;
ghost use Rattle.run_config.specs.Variables.{variables};

use crate::map_definition::map_spec;
use crate::named_map::{MapsEnd, NamedMap, add_map};
use crate::variables::{part_at, section_of, variable_of};
use btf_types::{TypeRow, Types};
use lists::{Bytes, List};
use std::alloc::Global;

/// Puts the map of a variable behind the others.
fn push_map(
    alloc: Global,
    types: &Types,
    variable: &TypeRow,
    maps: &mut List<NamedMap>,
) -> Result<(), MapsEnd>
    requires fits { RowFits types.now variable.now }
    requires target { variable.now.size_or_target ≤ length types.now.rows }
    requires makeable { AreMakeable (maps_by.specs_of maps.old) }
    ensures pushed { OnOk result (maps_by.Pushes types.now variable.now maps.old maps.new) }
    ensures index { (index rule : ℕ) → result ≡ Err (MapsEnd.BadMap index rule) → index ≡ length maps.old }
    ensures bad { (index rule : ℕ) → result ≡ Err (MapsEnd.BadMap index rule)
        → maps_by.Breaks types.now maps.old variable.now rule }
{
    let index = maps.len();
    let spec = match map_spec(alloc, types, variable.size_or_target) {
        Ok(spec) => spec,
        Err(rule) => return Err(MapsEnd::BadMap { index, rule }),
    };
    let mut name = Bytes::new(alloc);
    name.append(types.name_of(variable.name))?;
    add_map(maps, NamedMap { name, spec })
}

/// The maps of the variables of `.maps`, in order, or the first rule that one of them breaks.
#[tactic(auto, unfolding(crate::specs::Variables::variables))]
pub fn maps_of(alloc: Global, types: &Types) -> Result<List<NamedMap>, MapsEnd>
    ensures maps { IfOk result (maps_by.AreMaps types.now (variables types.now (codes ".maps"))) }
    ensures makeable { IfOk result (λ maps. AreMakeable (maps_by.specs_of maps)) }
    ensures bad { (index rule : ℕ) → result ≡ Err (MapsEnd.BadMap index rule)
        → maps_by.IsFirstBreak types.now (variables types.now (codes ".maps")) index rule }
{
    let mut maps = List::new(alloc);
    let Some(section) = section_of(types, b".maps") else {
        return Ok(maps);
    };
    for place in 0..section.count {
        let Some(variable) = variable_of(types, part_at(types, section, place)) else {
            continue;
        };
        push_map(alloc, types, variable, &mut maps)?;
    }
    Ok(maps)
}
