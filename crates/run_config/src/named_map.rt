//! Maps by name, and the rules that they keep behind one another.

ghost use Rattle.std.specs.Prelude.{◌≡◌, ℕ, ◌<◌, ◌^◌, [], ◌∷◌, ◌++◌, length, Some, None, IfNone, IfSome, OnOk, OnErr, Err, nat_lt};
ghost use Rattle.map_store.specs.Spec as rules_of;
ghost use Rattle.map_store.specs.Initial.{AreMakeable, HasInitial};
ghost use Rattle.run_config.specs.MapRules as rules;
ghost use Rattle.run_config.specs.Maps.{specs_of};

use lists::{Bytes, List, OutOfMemory};
use map_store::{MapSpec, spec_rule};

const MOST_ROOM: u64 = 4_194_304;

const MOST_MAPS: u32 = 32;

/// A map by the name of its variable.
#[derive(Debug, Drop)]
pub struct NamedMap {
    pub name: Bytes,
    pub spec: MapSpec,
}

/// Why there are no maps.
#[derive(Clone, Copy, Debug, PartialEq, Eq)]
pub enum MapsEnd {
    /// The place of the first map that breaks a rule, and the first of the rules M1 to M10 that it breaks.
    BadMap { index: u32, rule: u8 },
    OutOfMemory,
}

impl From<OutOfMemory> for MapsEnd {
    ghost use Rattle.std.specs.Prelude.{◌≡◌};
    ghost use Rattle.run_config.specs.declared.named_map.MapsEnd.TheVariants.{OutOfMemory};

    ghost from_gives = { λ _ end. end ≡ OutOfMemory };

    fn from(_: OutOfMemory) -> Self {
        MapsEnd::OutOfMemory
    }
}

/// The bytes that a map's slots take.
#[tactic(auto, using(crate::proofs::Kept::bounds), unfolding(map_store::specs::Spec::rounded, crate::specs::MapRules::room_of))]
fn room_of(spec: &MapSpec) -> u64
    requires { rules_of.spec_rule spec.now ≡ None }
    ensures value { result ≡ rules.room_of spec.now }
    ensures small { result < 2 ^ 40 }
{
    let slot_size = spec.key_size as u64 + (spec.value_size as u64).next_multiple_of(8);
    spec.max_entries as u64 * slot_size
}

/// The bytes that the slots of maps take.
fn total_room(maps: &[NamedMap]) -> u64
    requires { AreMakeable (specs_of maps.now) }
    ensures value { result ≡ rules.total_room (specs_of maps.now) }
    ensures small { result < 2 ^ 40 }
{
    let mut room = 0;
    for one in maps {
        room += room_of(&one.spec);
    }
    room
}

/// The first rule that a map breaks behind others.
#[tactic(auto, using(crate::proofs::MapBreaks::rule_cases))]
fn rule_behind(maps: &List<NamedMap>, spec: &MapSpec) -> Option<u8>
    requires { AreMakeable (specs_of maps.now) }
    ensures { result ≡ rules.rule_behind (specs_of maps.now) spec.now }
{
    if let Some(rule) = spec_rule(spec) {
        return Some(rule);
    }
    if total_room(maps.as_slice()) + room_of(spec) > MOST_ROOM {
        return Some(9);
    }
    if maps.len() >= MOST_MAPS {
        return Some(10);
    }
    None
}

/// Puts a map behind others, or answers the first rule that it breaks there, with its place.
pub fn add_map(maps: &mut List<NamedMap>, map: NamedMap) -> Result<(), MapsEnd>
    requires makeable { AreMakeable (specs_of maps.old) }
    requires initial { HasInitial map.spec }
    ensures ok { OnOk result (maps.new ≡ maps.old ++ map ∷ []) }
    ensures kept { OnOk result (rules.rule_behind (specs_of maps.old) map.spec ≡ None) }
    ensures makeable { OnOk result (AreMakeable (specs_of maps.new)) }
    ensures index { (index rule : ℕ) → result ≡ Err (MapsEnd.BadMap index rule) → index ≡ length maps.old }
    ensures bad { (index rule : ℕ) → result ≡ Err (MapsEnd.BadMap index rule)
        → rules.rule_behind (specs_of maps.old) map.spec ≡ Some rule }
    ensures err { OnErr result (maps.new ≡ maps.old) }
{
    let index = maps.len();
    if let Some(rule) = rule_behind(maps, &map.spec) {
        return Err(MapsEnd::BadMap { index, rule });
    }
    maps.push(map)?;
    Ok(())
}
