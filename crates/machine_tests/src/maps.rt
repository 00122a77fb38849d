ghost use Rattle.std.specs.Prelude.{◌≡◌, ◌<◌, [], length, IsTrue};
ghost use Rattle.map_store.specs.Slots.{map_at};

use bpf_insn::Size;
use lists::{Bytes, OutOfMemory};
use map_store::{DeleteEnd, MapKind, MapSpec, Store, UpdateEnd, spec_rule};
use std::alloc::Global;
use std::test::Fail;

#[test]
fn names_the_first_broken_rule(rt: HostRuntime) -> Result<(), Fail> {
    // kind, key size, value size, entries, rule
    let rows = [
        (MapKind::Array, 4, 1, 1, None),
        (MapKind::PercpuArray, 4, 65_536, 1_048_576, None),
        (MapKind::PercpuHash, 1, 8, 1, None),
        (MapKind::Hash, 512, 8, 1, None),
        (MapKind::Array, 8, 0, 0, Some(6)),
        (MapKind::PercpuArray, 3, 8, 1, Some(6)),
        (MapKind::Hash, 0, 8, 1, Some(6)),
        (MapKind::PercpuHash, 513, 8, 1, Some(6)),
        (MapKind::Array, 4, 0, 0, Some(7)),
        (MapKind::Hash, 4, 65_537, 1, Some(7)),
        (MapKind::Array, 4, 8, 0, Some(8)),
        (MapKind::Hash, 4, 8, 1_048_577, Some(8)),
    ];
    for (kind, key_size, value_size, max_entries, rule) in rows {
        let spec = MapSpec {
            kind,
            key_size,
            value_size,
            max_entries,
            initial: Bytes::new(rt.alloc()),
        };
        assert_eq!(rt; spec_rule(&spec), rule);
    }
    Ok(())
}

/// Constants of 5 bytes, two counters of 4 bytes, and a hash with no key.
#[tactic(auto, unfolding(map_store::specs::Spec::spec_rule, map_store::specs::Spec::rounded))]
fn three_maps(alloc: Global) -> Result<Store, OutOfMemory> {
    let mut initial = Bytes::new(alloc);
    initial.append(&[1, 2, 3, 4, 5])?;
    let constants = MapSpec {
        kind: MapKind::Array,
        key_size: 4,
        value_size: 5,
        max_entries: 1,
        initial,
    };
    let counters = spec_of(alloc, MapKind::PercpuArray, 4, 2);
    let hash = spec_of(alloc, MapKind::PercpuHash, 4, 1);
    Store::new(alloc, &[constants, counters, hash])
}

#[test]
fn moves_numbers_in_values(rt: HostRuntime) -> Result<(), Fail> {
    let mut store = three_maps(rt.alloc())?;
    // address, size, number
    let loads = [
        (0x3fff_ffff, Size::Byte, None),
        (0x4000_0000, Size::Word, Some(0x0403_0201)),
        (0x4000_0004, Size::Byte, Some(5)),
        (0x4000_0002, Size::Word, None),
        (0x4000_0008, Size::Byte, None),
        (0x4100_0008, Size::Word, Some(0)),
        (0x4100_0000, Size::Double, None),
        (0x4200_0000, Size::Byte, None),
        (0x4300_0000, Size::Byte, None),
        (u64::MAX, Size::Byte, None),
    ];
    for (address, size, number) in loads {
        assert_eq!(rt; store.load(address, size), number);
    }
    assert!(rt; !store.store(0x4000_0000, Size::Byte, 9));
    assert!(rt; store.store(0x4100_000a, Size::Half, 0x1_0203));
    assert_eq!(rt; store.load(0x4100_0008, Size::Word), Some(0x0203_0000));
    Ok(())
}

fn has_bytes(store: &Store, address: u64, expected: &[u8]) -> bool {
    match store.bytes(address, expected.len()) {
        Some(bytes) => bytes == expected,
        None => false,
    }
}

/// Looks up the key at an address.
fn lookup_at(store: &Store, map: u32, address: u64) -> Option<u32> {
    if map >= store.len() {
        return None;
    }
    let key = store.bytes(address, store.key_size(map))?;
    store.lookup(map, key)
}

#[test]
fn gives_bytes_of_values(rt: HostRuntime) -> Result<(), Fail> {
    let mut store = three_maps(rt.alloc())?;
    assert!(rt; store.store(0x4100_000a, Size::Half, 0x0203));
    assert!(rt; has_bytes(&store, 0x4000_0000, &[1, 2, 3, 4, 5]));
    assert!(rt; has_bytes(&store, 0x4000_0002, &[3, 4, 5]));
    assert!(rt; has_bytes(&store, 0x4000_0005, &[]));
    assert!(rt; has_bytes(&store, 0x4100_0008, &[0, 0, 3, 2]));
    assert!(rt; lookup_at(&store, 1, 0x4100_0000) == Some(0x4100_0000));
    // address, count: past the end of a value, in an empty slot, and where no map is
    let missing = [
        (0x4000_0000, 6),
        (0x4000_0001, 5),
        (0x4000_0005, 1),
        (0x4000_0006, 0),
        (0x4000_0000, usize::MAX),
        (0x4100_0000, 12),
        (0x4200_0000, 4),
        (0x4300_0000, 4),
        (0x3fff_ffff, 1),
        (u64::MAX, 1),
    ];
    for (address, count) in missing {
        assert!(rt; store.bytes(address, count).is_none());
    }
    Ok(())
}

/// A map with keys of 4 bytes.
fn spec_of(alloc: Global, kind: MapKind, value_size: u32, max_entries: u32) -> MapSpec
    ensures { result ≡ record {
      kind = kind;
      key_size = 4;
      value_size = value_size;
      max_entries = max_entries;
      initial = [];
    } }
{
    MapSpec {
        kind,
        key_size: 4,
        value_size,
        max_entries,
        initial: Bytes::new(alloc),
    }
}

/// Whether the map is there and takes a key and a value of 4 bytes.
fn takes_words(store: &Store, map: u32) -> bool
    ensures { IsTrue result → (map < length store.now) × ((map_at store.now map).key_size ≡ 4) × ((map_at store.now map).value_size ≡ 4) }
{
    map < store.len() && store.key_size(map) == 4 && store.value_size(map) == 4
}

fn update(store: &mut Store, map: u32, key: u8, flags: u64) -> Option<UpdateEnd> {
    if !takes_words(store, map) {
        return None;
    }
    Some(store.update(map, &[key, 0, 0, 0], &[7; 4], flags))
}

fn delete(store: &mut Store, map: u32, key: u8) -> Option<DeleteEnd> {
    if !takes_words(store, map) {
        return None;
    }
    Some(store.delete(map, &[key, 0, 0, 0]))
}

fn lookup(store: &Store, map: u32, key: u8) -> Option<u32> {
    if !takes_words(store, map) {
        return None;
    }
    store.lookup(map, &[key, 0, 0, 0])
}

#[test]
#[tactic(auto, unfolding(map_store::specs::Spec::spec_rule, map_store::specs::Spec::rounded))]
fn keeps_two_keys(rt: HostRuntime) -> Result<(), Fail> {
    let specs = [spec_of(rt.alloc(), MapKind::PercpuHash, 4, 2)];
    let mut store = Store::new(rt.alloc(), &specs)?;
    assert!(rt; update(&mut store, 0, 1, 0) == Some(UpdateEnd::Done));
    assert!(rt; update(&mut store, 0, 2, 0) == Some(UpdateEnd::Done));
    assert!(rt; lookup(&store, 0, 1) == Some(0x4000_0000));
    assert!(rt; lookup(&store, 0, 2) == Some(0x4000_0008));
    assert!(rt; update(&mut store, 0, 3, 0) == Some(UpdateEnd::NoRoom));
    assert!(rt; delete(&mut store, 0, 1) == Some(DeleteEnd::Done));
    assert!(rt; update(&mut store, 0, 3, 0) == Some(UpdateEnd::Done));
    assert!(rt; lookup(&store, 0, 3) == Some(0x4000_0000));
    assert!(rt; delete(&mut store, 0, 1) == Some(DeleteEnd::Missing));
    Ok(())
}

#[test]
#[tactic(auto, unfolding(map_store::specs::Spec::spec_rule, map_store::specs::Spec::rounded))]
fn answers_in_order(rt: HostRuntime) -> Result<(), Fail> {
    let specs = [
        spec_of(rt.alloc(), MapKind::Array, 4, 2),
        spec_of(rt.alloc(), MapKind::PercpuArray, 4, 2),
        spec_of(rt.alloc(), MapKind::PercpuHash, 4, 1),
    ];
    let mut store = Store::new(rt.alloc(), &specs)?;
    // map, key, flags, answer
    let updates = [
        (0, 1, 3, UpdateEnd::ReadOnly),
        (1, 2, 3, UpdateEnd::BadFlag),
        (1, 2, 1, UpdateEnd::NoRoom),
        (1, 1, 1, UpdateEnd::Exists),
        (1, 1, 2, UpdateEnd::Done),
        (2, 1, 2, UpdateEnd::Missing),
        (2, 1, 1, UpdateEnd::Done),
        (2, 1, 1, UpdateEnd::Exists),
        (2, 1, 2, UpdateEnd::Done),
        (2, 2, 2, UpdateEnd::Missing),
        (2, 2, 0, UpdateEnd::NoRoom),
    ];
    for (map, key, flags, answer) in updates {
        assert!(rt; update(&mut store, map, key, flags) == Some(answer));
    }
    assert!(rt; lookup(&store, 1, 1) == Some(0x4100_0008));
    assert!(rt; lookup(&store, 1, 2).is_none());
    let deletes = [
        (0, DeleteEnd::ReadOnly),
        (1, DeleteEnd::Fixed),
        (2, DeleteEnd::Done),
        (2, DeleteEnd::Missing),
    ];
    for (map, answer) in deletes {
        assert!(rt; delete(&mut store, map, 1) == Some(answer));
    }
    Ok(())
}
