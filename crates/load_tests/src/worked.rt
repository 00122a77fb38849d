//! Whole objects, and what is said of each of their programs.

use crate::sample::*;
use elf_objects::BadElf;
use map_store::MapKind;
use object_load::{LoadEnd, LoadRefusal, Program, ProgramList, programs_of};
use run_config::{NamedMap, RunConfig};
use std::test::Fail;

#[test]
fn refuses_an_empty_file(rt: HostRuntime) -> Result<(), Fail> {
    let bad = BadElf { offset: 0, rule: 1 };
    let end = programs_of(rt.alloc(), b"").err();
    assert_eq!(rt; end, Some(LoadEnd::Refused(LoadRefusal::BadElf(bad))));
    Ok(())
}

fn is_program(program: &Program, name: &[u8], config: RunConfig, slots: u32, maps: u32) -> bool {
    program.name.as_slice() == name
        && program.section.as_slice() == b"xdp".as_slice()
        && program.config == config
        && program.code.insns.len() == slots
        && program.code.maps == maps
        && program.maps.len() == maps
}

/// Whether the program of a number is this one.
fn has_program(
    programs: &ProgramList,
    number: u32,
    name: &[u8],
    config: RunConfig,
    slots: u32,
    maps: u32,
) -> bool {
    number < programs.len() && is_program(programs.at(number), name, config, slots, maps)
}

const DEFAULT: RunConfig = RunConfig {
    priority: 50,
    mask: 4,
};

#[test]
fn loads_a_program(rt: HostRuntime) -> Result<(), Fail> {
    let programs = load(rt.alloc(), &PLAIN)?.map_err(|_| "refused")?;
    assert_eq!(rt; programs.len(), 1);
    assert!(rt; has_program(&programs, 0, b"a", DEFAULT, 2, 0));
    Ok(())
}

/// By their values, and at one value as their symbols stand.
#[test]
fn orders_programs(rt: HostRuntime) -> Result<(), Fail> {
    let sample = Sample {
        code: &[PASS, EXIT, PASS, EXIT],
        symbols: &[
            (B, FUNC, XDP, 16, 16),
            (HITS, FUNC, XDP, 0, 32),
            (A, FUNC, XDP, 0, 16),
        ],
        ..PLAIN
    };
    let programs = load(rt.alloc(), &sample)?.map_err(|_| "refused")?;
    assert_eq!(rt; programs.len(), 3);
    assert!(rt; has_program(&programs, 0, b"hits", DEFAULT, 4, 0));
    assert!(rt; has_program(&programs, 1, b"a", DEFAULT, 2, 0));
    assert!(rt; has_program(&programs, 2, b"b", DEFAULT, 2, 0));
    Ok(())
}

/// A wide load may have its second slot in `.text`.
#[test]
fn decodes_across_the_function(rt: HostRuntime) -> Result<(), Fail> {
    let sample = Sample {
        code: &[PASS, WIDE],
        text: &[0, EXIT],
        ..PLAIN
    };
    let programs = load(rt.alloc(), &sample)?.map_err(|_| "refused")?;
    assert!(rt; has_program(&programs, 0, b"a", DEFAULT, 4, 0));
    Ok(())
}

/// A program that counts in a map: a key of 0 on the stack, `hits` into r1, a look-up, 1 added, a load from `.rodata`, and a call of
/// `pick`, which gives back its argument.
const REALISTIC: Sample<'static> = Sample {
    code: &[
        0x0000_0000_fffc_0a62,
        0x0000_0000_0000_a2bf,
        0xffff_fffc_0000_0207,
        0x0000_0000_0000_0118,
        0,
        0x0000_0001_0000_0085,
        0x0000_0000_0002_0015,
        0x0000_0001_0000_01b7,
        0x0000_0000_0000_10c3,
        0x0000_0000_0000_0118,
        0,
        0x0000_0000_0000_1161,
        0xffff_ffff_0000_1085,
        0x0000_0000_0000_0095,
    ],
    text: &[0x0000_0000_0000_10bf, EXIT],
    relocs: &[(24, 3, 1), (72, 4, 1), (96, 2, 10)],
    constants: 4,
    maps: 32,
    is_typed: true,
    symbols: &[
        (A, FUNC, XDP, 0, 112),
        (UNDERSCORE, FUNC, TEXT, 0, 16),
        (HITS, OBJECT, MAPS, 0, 0),
        (0, 3, CONSTANTS, 0, 0),
    ],
    ..PLAIN
};

fn is_map(map: &NamedMap, name: &[u8], kind: MapKind, sizes: [u32; 3], initial: &[u8]) -> bool {
    map.name.as_slice() == name
        && map.spec.kind == kind
        && [map.spec.key_size, map.spec.value_size, map.spec.max_entries] == sizes
        && map.spec.initial.as_slice() == initial
}

fn has_map(
    programs: &ProgramList,
    number: u32,
    name: &[u8],
    kind: MapKind,
    sizes: [u32; 3],
    initial: &[u8],
) -> bool {
    if programs.len() == 0 {
        return false;
    }
    let maps = &programs.at(0).maps;
    number < maps.len() && is_map(maps.at(number), name, kind, sizes, initial)
}

/// Whether the first program has these immediates in these slots.
fn has_imms(programs: &ProgramList, imms: &[(u32, i32)]) -> bool {
    if programs.len() == 0 {
        return false;
    }
    let insns = &programs.at(0).code.insns;
    for (slot, imm) in imms {
        if *slot >= insns.len() || insns.at(*slot).imm != *imm {
            return false;
        }
    }
    true
}

#[test]
fn loads_a_realistic_object(rt: HostRuntime) -> Result<(), Fail> {
    let programs = load(rt.alloc(), &REALISTIC)?.map_err(|_| "refused")?;
    let config = RunConfig {
        priority: 10,
        mask: 4,
    };
    assert_eq!(rt; programs.len(), 1);
    assert!(rt; has_program(&programs, 0, b"a", config, 16, 2));
    assert!(rt; has_map(&programs, 0, b"hits", MapKind::PercpuArray, [4, 4, 2], b""));
    assert!(rt; has_map(&programs, 1, b".rodata", MapKind::Array, [4, 4, 1], &[0; 4]));
    // the map, the constants, and from slot 13 to slot 14, which is `pick`
    assert!(rt;
        has_imms(
            &programs,
            &[(3, 0x7000_0000), (4, 0), (9, 0x4100_0000), (10, 0), (12, 1)]
        )
    );
    Ok(())
}
