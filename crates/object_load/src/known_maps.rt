//! Which maps the names of symbols stand for, each looked up once.

ghost use Rattle.std.specs.Prelude.{◌≡◌, ℕ, List, Some, IfOk, position};
ghost use Rattle.std.specs.Str.{bytes_eq};
ghost use Rattle.elf_objects.specs.Object.{symbol_name};
ghost use Rattle.elf_objects.specs.Symbol.{symbol};
ghost use Rattle.run_config.specs.declared.named_map.NamedMap.{NamedMap};
ghost use Rattle.object_load.specs.KnownMaps.{known_at, AreKnown};

use elf_objects::Object;
use lists::OutOfMemory;
use std::alloc::Global;
use std::marker::Model;

/// By the place of a name among the symbols' names one more than the number of its map, or 0 where that wasn't looked up.
#[derive(Debug, Drop)]
pub(crate) struct KnownMaps {
    numbers: Vec<u32>,
}

impl Model for KnownMaps {
    ghost use Rattle.std.specs.Prelude.{ℕ, List};

    ghost Value = { List ℕ };

    ghost view = { λ known. known.numbers.items };
}

/// One more than the last place at which a symbol's name begins.
fn places_of(object: &Object<'_>) -> usize {
    let mut places = 0;
    for symbol in object.symbols() {
        places = places.max(symbol.name as usize + 1);
    }
    places
}

impl KnownMaps {
    /// None is known.
    pub(crate) fn new(alloc: Global, object: &Object<'_>) -> Result<KnownMaps, OutOfMemory>
        ensures { IfOk result (λ known. (file : List ℕ) (maps : List NamedMap) → AreKnown file maps known) }
    {
        let numbers = vec![in alloc; 0; places_of(object)]?;
        Ok(KnownMaps { numbers })
    }

    /// The number of the map of the name at a place.
    #[tactic(auto, unfolding(crate::specs::KnownMaps::known_at))]
    pub(crate) fn at(&self, place: u32) -> Option<u32>
        ensures { result ≡ known_at self.now place }
    {
        if place as usize >= self.numbers.len() {
            return None;
        }
        self.numbers[place as usize].checked_sub(1)
    }

    /// Keeps the number of the map of the name at a place.
    pub(crate) fn keep(&mut self, place: u32, number: u32)
        ensures { (file : List ℕ) (maps : List NamedMap) → AreKnown file maps self.old
            → ((index : ℕ) → (symbol file index).name ≡ place
            → position (λ map. bytes_eq map.name (symbol_name file index)) maps ≡ Some number)
            → AreKnown file maps self.new }
    {
        if (place as usize) < self.numbers.len() && number < u32::MAX {
            self.numbers[place as usize] = number + 1;
        }
    }
}
