//! The maps of an object.

ghost use Rattle.std.specs.Prelude.{◌≡◌, ◌<◌, ◌≤◌, ◌∷◌, [], ◌++◌, All, length, None, IfOk, IfErr, OnOk};
ghost use Rattle.elf_objects.specs.Object.{content, sections};
ghost use Rattle.map_store.specs.Initial.{AreMakeable};
ghost use Rattle.run_config.specs.MapRules.{rule_behind};
ghost use Rattle.run_config.specs.Maps.{specs_of};
ghost use Rattle.object_load.specs.Reading.{Answers, Is};
ghost use Rattle.object_load.specs.Sections as of_sections;
ghost use Rattle.object_load.specs.Maps as of_object;

use crate::copying::copy;
use crate::refusal::{LoadEnd, LoadRefusal};
use btf_types::Types;
use elf_objects::Object;
use lists::{List, OutOfMemory};
use map_store::{MapKind, MapSpec};
use run_config::{NamedMap, add_map, maps_of};
use std::alloc::Global;

/// The most bytes that a value of a map may have.
const MOST_BYTES: usize = 65_536;

/// Whether a section is one of maps that isn't empty.
#[tactic(auto, unfolding(crate::specs::Maps::holds_maps, crate::specs::Sections::has_name))]
fn holds_maps(object: &Object<'_>, number: u32) -> bool
    requires { number < length (sections object.now) }
    ensures { result ≡ of_object.holds_maps object.now number }
{
    object.section_is(number, b".maps") && object.section(number).size != 0
}

/// Whether there is a section of maps that isn't empty.
#[tactic(auto, unfolding(crate::specs::Maps::has_maps))]
fn has_maps(object: &Object<'_>) -> bool
    ensures { result ≡ of_object.has_maps object.now }
{
    for number in 0..object.section_count() {
        if holds_maps(object, number) {
            return true;
        }
    }
    false
}

/// The maps of `.maps` without types: none, if no such section has bytes.
fn untyped_maps(alloc: Global, object: &Object<'_>) -> Result<List<NamedMap>, LoadEnd>
    ensures maps { Answers (of_object.HasVariables object.now None) result }
    ensures makeable { IfOk result (λ maps. AreMakeable (specs_of maps)) }
{
    if has_maps(object) {
        return Err(LoadEnd::Refused(LoadRefusal::BadMap { index: 0, rule: 1 }));
    }
    Ok(List::new(alloc))
}

/// The maps of `.maps`.
fn variable_maps(
    alloc: Global,
    object: &Object<'_>,
    types: &Option<Types>,
) -> Result<List<NamedMap>, LoadEnd>
    ensures maps { Answers (of_object.HasVariables object.now types.now) result }
    ensures makeable { IfOk result (λ maps. AreMakeable (specs_of maps)) }
{
    match types {
        Some(types) => Ok(maps_of(alloc, types)?),
        None => untyped_maps(alloc, object),
    }
}

/// The map of a section of constants, which has at most the bytes of a value.
#[tactic(auto, unfolding(crate::specs::Maps::constant_map))]
fn constant_map(alloc: Global, object: &Object<'_>, number: u32) -> Result<NamedMap, OutOfMemory>
    requires known { number < length (sections object.now) }
    requires small { length (content object.now number) ≤ 65536 }
    ensures { IfOk result (λ map. map ≡ of_object.constant_map object.now number) }
{
    let name = copy(alloc, object.section_name(number))?;
    let initial = copy(alloc, object.content(number))?;
    let spec = MapSpec {
        kind: MapKind::Array,
        key_size: 4,
        value_size: initial.as_slice().len() as u32,
        max_entries: 1,
        initial,
    };
    Ok(NamedMap { name, spec })
}

/// Puts the map of a section of constants behind others.
fn push_constants(
    alloc: Global,
    object: &Object<'_>,
    number: u32,
    maps: &mut List<NamedMap>,
) -> Result<(), LoadEnd>
    requires known { number < length (sections object.now) }
    requires makeable { AreMakeable (specs_of maps.old) }
    ensures pushed { OnOk result (maps.new ≡ maps.old ++ of_object.constant_map object.now number ∷ []) }
    ensures kept { OnOk result (rule_behind (specs_of maps.old) (of_object.constant_map object.now number).spec ≡ None) }
    ensures makeable { OnOk result (AreMakeable (specs_of maps.new)) }
    ensures bad { IfErr result (of_object.IsBroken maps.old (of_object.constant_map object.now number)) }
{
    if object.content(number).len() > MOST_BYTES {
        let index = maps.len();
        return Err(LoadEnd::Refused(LoadRefusal::BadMap { index, rule: 7 }));
    }
    let map = constant_map(alloc, object, number)?;
    add_map(maps, map)?;
    Ok(())
}

/// Maps with those of sections of constants behind them.
fn with_constants(
    alloc: Global,
    object: &Object<'_>,
    maps: List<NamedMap>,
    numbers: &[u32],
) -> Result<List<NamedMap>, LoadEnd>
    requires known { All (λ number. number < length (sections object.now)) numbers.now }
    requires makeable { AreMakeable (specs_of maps) }
    ensures maps { Answers (Is (of_object.with_constants object.now maps numbers.now)) result }
    ensures makeable { IfOk result (λ maps. AreMakeable (specs_of maps)) }
    ensures count { IfOk result (λ maps. length numbers.now ≤ length maps) }
{
    let mut maps = maps;
    for number in numbers {
        push_constants(alloc, object, *number, &mut maps)?;
    }
    Ok(maps)
}

/// All maps of an object whose sections of constants these are.
pub(crate) fn object_maps(
    alloc: Global,
    object: &Object<'_>,
    types: &Option<Types>,
    constants: &[u32],
) -> Result<List<NamedMap>, LoadEnd>
    requires constants { constants.now ≡ of_sections.constant_sections object.now }
    requires known { All (λ number. number < length (sections object.now)) constants.now }
    ensures maps { Answers (of_object.HasMaps object.now types.now) result }
    ensures makeable { IfOk result (λ maps. AreMakeable (specs_of maps)) }
    ensures count { IfOk result (λ maps. length constants.now ≤ length maps) }
{
    let maps = variable_maps(alloc, object, types)?;
    with_constants(alloc, object, maps, constants)
}
