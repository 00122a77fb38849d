//! Types made one by one, and what they say of configurations and maps.

use btf_types::{kind, read_btf};
use lists::{Bytes, List};
use map_store::MapKind;
use run_config::{BadConfig, MapsEnd, NamedMap, RunConfig, config_of, maps_of};
use std::alloc::Global;
use std::test::Fail;

/// How the type of a member is written.
#[derive(Clone, Copy)]
enum Form {
    /// A pointer to an array of so many.
    Count(u32),
    /// A pointer to the type of this number.
    Pointer(u32),
    /// The type of this number.
    Plain(u32),
}

use Form::{Count, Plain, Pointer};

type Members<'a> = &'a [(&'a [u8], Form)];

type Config = Result<RunConfig, BadConfig>;

/// Types and names as they are made. Type 1 is a number of four bytes.
#[derive(Drop)]
struct Builder {
    alloc: Global,
    types: Bytes,
    strings: Bytes,
    count: u32,
}

impl Builder {
    fn new(alloc: Global) -> Result<Builder, Fail> {
        let mut builder = Builder {
            alloc,
            types: Bytes::new(alloc),
            strings: Bytes::new(alloc),
            count: 0,
        };
        builder.strings.push(0)?;
        let name = builder.name(b"int")?;
        builder.add(name, kind::INT, 0, 4)?;
        builder.words(&[0x0100_0020])?;
        Ok(builder)
    }

    fn words(&mut self, words: &[u32]) -> Result<(), Fail> {
        for word in words {
            self.types.append(&word.to_le_bytes())?;
        }
        Ok(())
    }

    fn name(&mut self, text: &[u8]) -> Result<u32, Fail> {
        let offset = u32::try_from(self.strings.as_slice().len())?;
        self.strings.append(text)?;
        self.strings.push(0)?;
        Ok(offset)
    }

    /// The first twelve bytes of a type, and its number.
    fn add(&mut self, name: u32, kind: u8, parts: usize, third: u32) -> Result<u32, Fail> {
        let parts = u32::try_from(parts)?;
        self.words(&[name, (kind as u32) << 24 | parts, third])?;
        self.count = self.count.checked_add(1).ok_or("too many types")?;
        Ok(self.count)
    }

    fn form(&mut self, form: Form) -> Result<u32, Fail> {
        match form {
            Count(count) => {
                let array = self.add(0, kind::ARRAY, 0, 0)?;
                self.words(&[1, 1, count])?;
                self.add(0, kind::PTR, 0, array)
            }
            Pointer(target) => self.add(0, kind::PTR, 0, target),
            Plain(number) => Ok(number),
        }
    }

    fn structure(&mut self, members: Members) -> Result<u32, Fail> {
        let mut numbers = Vec::new(self.alloc);
        for (_, form) in members {
            numbers.push(self.form(*form)?)?;
        }
        let size = u32::try_from(members.len())?.wrapping_mul(8);
        let number = self.add(0, kind::STRUCT, members.len(), size)?;
        for ((name, _), target) in members.iter().zip(numbers.iter()) {
            let name = self.name(name)?;
            self.words(&[name, *target, 0])?;
        }
        Ok(number)
    }

    fn variable(&mut self, name: &[u8], target: u32) -> Result<u32, Fail> {
        let name = self.name(name)?;
        let number = self.add(name, kind::VAR, 0, target)?;
        self.words(&[1])?;
        Ok(number)
    }

    fn section(&mut self, name: &[u8], variables: &[u32]) -> Result<u32, Fail> {
        let name = self.name(name)?;
        let number = self.add(name, kind::DATASEC, variables.len(), 8)?;
        for variable in variables {
            self.words(&[*variable, 0, 8])?;
        }
        Ok(number)
    }

    fn bytes(&self) -> Result<Bytes, Fail> {
        let types_len = u32::try_from(self.types.as_slice().len())?;
        let strings_len = u32::try_from(self.strings.as_slice().len())?;
        let mut bytes = Bytes::new(self.alloc);
        bytes.append(&[0x9f, 0xeb, 1, 0])?;
        for word in [24, 0, types_len, types_len, strings_len] {
            bytes.append(&word.to_le_bytes())?;
        }
        bytes.append(self.types.as_slice())?;
        bytes.append(self.strings.as_slice())?;
        Ok(bytes)
    }
}

/// The run configuration of a function `a`, and a map `hits`: 14 types in 395 bytes.
fn sample(alloc: Global) -> Result<Bytes, Fail> {
    let mut builder = Builder::new(alloc)?;
    let structure = builder.structure(&[(b"priority", Count(10))])?;
    let variable = builder.variable(b"_a", structure)?;
    builder.section(b".xdp_run_config", &[variable])?;
    let structure = builder.structure(&[
        (b"type", Count(6)),
        (b"max_entries", Count(2)),
        (b"key", Pointer(1)),
        (b"value", Plain(11)),
    ])?;
    let variable = builder.variable(b"hits", structure)?;
    builder.section(b".maps", &[variable])?;
    builder.bytes()
}

/// How many types there are in bytes.
fn count_in(alloc: Global, bytes: &[u8]) -> Result<u32, Fail> {
    Ok(read_btf(alloc, bytes)?.len())
}

/// What bytes of types say of a function.
fn config_in(alloc: Global, bytes: &[u8], function: &[u8]) -> Result<Config, Fail> {
    let types = read_btf(alloc, bytes)?;
    Ok(config_of(&types, function))
}

/// The maps of bytes of types, or why there are none.
fn maps_in(alloc: Global, bytes: &[u8]) -> Result<Result<List<NamedMap>, MapsEnd>, Fail> {
    let types = read_btf(alloc, bytes)?;
    Ok(maps_of(alloc, &types))
}

#[test]
fn a_function(rt: HostRuntime) -> Result<(), Fail> {
    let bytes = sample(rt.alloc())?;
    assert_eq!(rt; bytes.as_slice().len(), 395);
    assert_eq!(rt; count_in(rt.alloc(), bytes.as_slice())?, 14);
    for (function, priority) in [(b"a", 10), (b"b", 50)] {
        let config = config_in(rt.alloc(), bytes.as_slice(), function)?;
        assert_eq!(rt; config, Ok(RunConfig { priority, mask: 4 }));
    }
    Ok(())
}

#[test]
fn a_map(rt: HostRuntime) -> Result<(), Fail> {
    let bytes = sample(rt.alloc())?;
    let maps = maps_in(rt.alloc(), bytes.as_slice())?.map_err(|_| "no maps")?;
    let [hits] = maps.as_slice() else {
        return Err("not one map".into());
    };
    assert!(rt; hits.name.as_slice() == b"hits".as_slice());
    assert_eq!(rt; hits.spec.kind, MapKind::PercpuArray);
    assert_eq!(rt; hits.spec.key_size, 4);
    assert_eq!(rt; hits.spec.value_size, 4);
    assert_eq!(rt; hits.spec.max_entries, 2);
    Ok(())
}

/// What the types say of a function `f` whose configuration has these members.
fn config_by(alloc: Global, members: Members) -> Result<Config, Fail> {
    let mut builder = Builder::new(alloc)?;
    let structure = builder.structure(members)?;
    config_from(builder, structure)
}

/// What the types say of a function `f` whose configuration is of the type of this number.
fn config_from(mut builder: Builder, number: u32) -> Result<Config, Fail> {
    let variable = builder.variable(b"_f", number)?;
    builder.section(b".xdp_run_config", &[variable])?;
    let bytes = builder.bytes()?;
    config_in(builder.alloc, bytes.as_slice(), b"f")
}

/// Members, and priority and mask of the configuration.
const SETTINGS: [(Members, u32, u8); 4] = [
    (&[], 50, 4),
    (&[(b"XDP_DROP", Count(1))], 50, 6),
    (
        &[
            (b"XDP_ABORTED", Count(7)),
            (b"XDP_TX", Count(0)),
            (b"XDP_REDIRECT", Count(1)),
        ],
        50,
        21,
    ),
    (
        &[
            (b"priority", Count(10)),
            (b"XDP_PASS", Count(0)),
            (b"XDP_TX", Count(1)),
            (b"priority", Count(20)),
            (b"XDP_TX", Count(0)),
        ],
        20,
        0,
    ),
];

#[test]
fn settings_in_order(rt: HostRuntime) -> Result<(), Fail> {
    for &(members, priority, mask) in &SETTINGS {
        let config = config_by(rt.alloc(), members)?;
        assert_eq!(rt; config, Ok(RunConfig { priority, mask }));
    }
    Ok(())
}

/// Members, and the place of the first that sets nothing.
const NO_SETTINGS: [(Members, u32); 4] = [
    (&[(b"priority", Plain(1))], 0),
    (&[(b"priority", Count(10)), (b"mask", Count(1))], 1),
    (
        &[
            (b"priority", Count(10)),
            (b"XDP_PASS", Pointer(1)),
            (b"", Count(1)),
        ],
        1,
    ),
    (&[(b"XDP_DROP", Count(1)), (b"XDP_DRO", Count(1))], 1),
];

#[test]
fn members_that_set_nothing(rt: HostRuntime) -> Result<(), Fail> {
    for &(members, member) in &NO_SETTINGS {
        let config = config_by(rt.alloc(), members)?;
        assert_eq!(rt; config, Err(BadConfig { member }));
    }
    Ok(())
}

#[test]
fn a_configuration_that_is_no_structure(rt: HostRuntime) -> Result<(), Fail> {
    let config = config_from(Builder::new(rt.alloc())?, 1)?;
    assert_eq!(rt; config, Err(BadConfig { member: 0 }));
    Ok(())
}

/// A function `f` with a configuration behind modifiers, a function `g` whose configuration is a modifier of itself, and a
/// map behind modifiers.
fn modified(alloc: Global) -> Result<Bytes, Fail> {
    let mut builder = Builder::new(alloc)?;
    let structure = builder.structure(&[(b"priority", Count(7))])?;
    let named = builder.add(0, kind::TYPEDEF, 0, structure)?;
    let constant = builder.add(0, kind::CONST, 0, named)?;
    let itself = constant.checked_add(1).ok_or("too many types")?;
    builder.add(0, kind::VOLATILE, 0, itself)?;
    let given = builder.variable(b"_f", constant)?;
    let circle = builder.variable(b"_g", itself)?;
    let map = builder.variable(b"map", constant)?;
    builder.section(b".xdp_run_config", &[given, circle])?;
    builder.section(b".maps", &[map])?;
    builder.bytes()
}

const NO_STRUCTURE: MapsEnd = MapsEnd::BadMap { index: 0, rule: 1 };

#[test]
fn modifiers(rt: HostRuntime) -> Result<(), Fail> {
    let bytes = modified(rt.alloc())?;
    let given = RunConfig {
        priority: 7,
        mask: 4,
    };
    for (function, config) in [(b"f", Ok(given)), (b"g", Err(BadConfig { member: 0 }))] {
        let found = config_in(rt.alloc(), bytes.as_slice(), function)?;
        assert_eq!(rt; found, config);
    }
    let maps = maps_in(rt.alloc(), bytes.as_slice())?;
    assert_eq!(rt; maps.err(), Some(NO_STRUCTURE));
    Ok(())
}

/// Why so many variables of the type of this number aren't maps; None where they are.
fn maps_from(mut builder: Builder, number: u32, copies: u32) -> Result<Option<MapsEnd>, Fail> {
    let mut variables = Vec::new(builder.alloc);
    for _ in 0..copies {
        variables.push(builder.variable(b"map", number)?)?;
    }
    builder.section(b".maps", variables.as_slice())?;
    let bytes = builder.bytes()?;
    Ok(maps_in(builder.alloc, bytes.as_slice())?.err())
}

/// Why so many variables of one structure aren't maps, which is an array with values of four bytes and so many entries,
/// and has one member more; None where they are.
fn arrays_from(
    alloc: Global,
    entries: u32,
    more: (&[u8], Form),
    copies: u32,
) -> Result<Option<MapsEnd>, Fail> {
    let mut builder = Builder::new(alloc)?;
    let structure = builder.structure(&[
        (b"type", Count(2)),
        (b"key", Pointer(1)),
        (b"value", Pointer(1)),
        (b"max_entries", Count(entries)),
        more,
    ])?;
    maps_from(builder, structure, copies)
}

/// Entries, the member behind the others, and the rule that is broken.
const DEFINITIONS: [(u32, &[u8], Form, Option<u8>); 17] = [
    (1, b"pinning", Count(9), None),
    (1, b"map_flags", Count(1), None),
    (1, b"key_size", Count(4), None),
    (1, b"type", Count(6), None),
    (1, b"value", Pointer(3), None),
    (1, b"name", Count(1), Some(2)),
    (1, b"type", Pointer(1), Some(3)),
    (1, b"key", Plain(1), Some(3)),
    (1, b"pinning", Plain(1), Some(3)),
    (1, b"value", Pointer(0), Some(4)),
    (1, b"key_size", Count(8), Some(4)),
    (1, b"map_flags", Count(2), Some(4)),
    (1, b"type", Count(3), Some(5)),
    (1, b"key", Pointer(3), Some(6)),
    (16_385, b"value", Pointer(6), Some(7)),
    (1, b"max_entries", Count(0), Some(8)),
    (1, b"max_entries", Count(1_048_577), Some(8)),
];

#[test]
fn rules_of_definitions(rt: HostRuntime) -> Result<(), Fail> {
    for &(entries, name, form, rule) in &DEFINITIONS {
        let end = arrays_from(rt.alloc(), entries, (name, form), 1)?;
        assert_eq!(rt; end, rule.map(|rule| MapsEnd::BadMap { index: 0, rule }));
    }
    Ok(())
}

#[test]
fn a_map_that_is_no_structure(rt: HostRuntime) -> Result<(), Fail> {
    let end = maps_from(Builder::new(rt.alloc())?, 1, 1)?;
    assert_eq!(rt; end, Some(NO_STRUCTURE));
    Ok(())
}

/// Entries of 12 bytes, how many maps, and why they aren't maps.
const SUMS: [(u32, u32, Option<MapsEnd>); 5] = [
    (349_525, 1, None),
    (349_526, 1, Some(MapsEnd::BadMap { index: 0, rule: 9 })),
    (174_763, 2, Some(MapsEnd::BadMap { index: 1, rule: 9 })),
    (1, 32, None),
    (
        1,
        33,
        Some(MapsEnd::BadMap {
            index: 32,
            rule: 10,
        }),
    ),
];

#[test]
fn rules_of_sums(rt: HostRuntime) -> Result<(), Fail> {
    for &(entries, copies, end) in &SUMS {
        let found = arrays_from(rt.alloc(), entries, (b"pinning", Count(1)), copies)?;
        assert_eq!(rt; found, end);
    }
    Ok(())
}
