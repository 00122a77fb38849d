//! What relocations make of codes.

use crate::sample::*;
use object_load::{LoadEnd, LoadRefusal, ProgramList};
use std::alloc::{AllocError, Global};
use std::test::Fail;

/// A slot with another immediate.
fn with(slot: u64, imm: u32) -> u64 {
    slot % 0x1_0000_0000 + u64::from(imm) * 0x1_0000_0000
}

/// Two programs of four slots; a byte of `.rodata`, the map, a function of `.text` and a place in its midst, and a function of programs.
const SYMBOLS: [SymbolRow; 6] = [
    (A, FUNC, XDP, 0, 32),
    (0, OBJECT, CONSTANTS, 1, 0),
    (HITS, OBJECT, MAPS, 0, 32),
    (UNDERSCORE, FUNC, TEXT, 8, 24),
    (UNDERSCORE, FUNC, TEXT, 4, 8),
    (B, FUNC, XDP, 32, 32),
];

/// Map 0 is `hits`, and map 1 the four bytes of `.rodata`.
const BASE: Sample<'static> = Sample {
    code: &[WIDE, 0, CALL, EXIT, WIDE, 0, CALL, EXIT],
    text: &[EXIT, WIDE, 0, CALL],
    constants: 4,
    maps: 32,
    is_typed: true,
    symbols: &SYMBOLS,
    ..PLAIN
};

/// The immediate of a slot of a program.
fn imm_at(programs: &ProgramList, program: u32, slot: u32) -> Option<i32> {
    if program >= programs.len() {
        return None;
    }
    let insns = &programs.at(program).code.insns;
    if slot >= insns.len() {
        return None;
    }
    Some(insns.at(slot).imm)
}

/// The immediate of a slot of a program of a sample, or why the sample is refused.
fn linked(
    alloc: Global,
    sample: &Sample<'_>,
    program: u32,
    slot: u32,
) -> Result<Result<Option<i32>, LoadEnd>, AllocError> {
    match load(alloc, sample)? {
        Ok(programs) => Ok(Ok(imm_at(&programs, program, slot))),
        Err(end) => Ok(Err(end)),
    }
}

/// A slot of the code with another immediate, relocations of the code and of `.text`, and what a slot of a program then has.
type Row = (
    (usize, u32),
    &'static [RelocRow],
    &'static [RelocRow],
    (u32, u32),
    i32,
);

const LINKED: [Row; 13] = [
    ((0, 0), &[(0, 2, 1)], &[], (0, 0), 0x4100_0001),
    ((0, 3), &[(0, 2, 1)], &[], (0, 0), 0x4100_0004),
    ((0, 0xffff_ffff), &[(0, 2, 1)], &[], (0, 0), 0x4100_0000),
    ((1, 7), &[(0, 2, 1)], &[], (0, 1), 0),
    ((0, 9), &[(0, 3, 1)], &[], (0, 0), 0x7000_0000),
    // slot 1 of `.text` is slot 5 of the code
    ((2, 0xffff_ffff), &[(16, 4, 10)], &[], (0, 2), 2),
    ((2, 0xffff_fffe), &[(16, 4, 10)], &[], (0, 2), 1),
    ((2, 1), &[(16, 4, 10)], &[], (0, 2), 4),
    // the second program's relocation changes its own code alone
    ((4, 2), &[(32, 2, 1)], &[], (1, 0), 0x4100_0003),
    ((4, 2), &[(32, 2, 1)], &[], (0, 0), 0),
    ((0, 0), &[], &[(8, 3, 1)], (1, 5), 0x7000_0000),
    ((0, 0), &[], &[(24, 4, 10)], (0, 7), -3),
    // the same place twice
    ((0, 9), &[(0, 3, 1), (0, 3, 1)], &[], (0, 0), 0x7000_0000),
];

#[test]
fn links_code(rt: HostRuntime) -> Result<(), Fail> {
    for ((place, new), relocs, text_relocs, (program, slot), imm) in &LINKED {
        let mut code = Vec::new(rt.alloc());
        for (at, slot) in BASE.code.iter().enumerate() {
            code.push(if at == *place {
                with(*slot, *new)
            } else {
                *slot
            })?;
        }
        let sample = Sample {
            code: code.as_slice(),
            relocs: *relocs,
            text_relocs: *text_relocs,
            ..BASE
        };
        let found = linked(rt.alloc(), &sample, *program, *slot)?;
        assert_eq!(rt; found, Ok(Some(*imm)), "{relocs:?} {text_relocs:?}");
    }
    Ok(())
}

/// A slot with another immediate, relocations, and the program and slot that can't be linked.
const NOT_LINKED: [((usize, u32), &[RelocRow], &[RelocRow], (u32, u32)); 17] = [
    // one byte past the end of the constants and one behind it, and one in front of them
    ((0, 4), &[(0, 2, 1)], &[], (0, 0)),
    ((0, 0xffff_fffe), &[(0, 2, 1)], &[], (0, 0)),
    // another type, the midst of a slot, a slot of another kind, a symbol of another section
    ((0, 0), &[(0, 2, 2)], &[], (0, 0)),
    ((0, 0), &[(20, 4, 10)], &[], (0, 2)),
    ((0, 0), &[(8, 2, 1)], &[], (0, 1)),
    ((0, 0), &[(24, 2, 1)], &[], (0, 3)),
    ((0, 0), &[(0, 4, 1)], &[], (0, 0)),
    ((0, 0), &[(16, 1, 10)], &[], (0, 2)),
    ((0, 0), &[(16, 2, 1)], &[], (0, 2)),
    // no slot of `.text`
    ((2, 0xffff_ffff), &[(16, 5, 10)], &[], (0, 2)),
    ((2, 0xffff_fffd), &[(16, 4, 10)], &[], (0, 2)),
    ((2, 2), &[(16, 4, 10)], &[], (0, 2)),
    // `.text` itself, and past its end
    ((0, 0), &[], &[(12, 3, 1)], (0, 5)),
    ((0, 0), &[], &[(32, 3, 1)], (0, 8)),
    // the second program
    ((0, 0), &[(56, 2, 1)], &[], (1, 3)),
    // calls out of the function that no relocation leads somewhere
    ((2, 1), &[], &[], (0, 2)),
    ((6, 0xffff_fffc), &[], &[], (1, 2)),
];

#[test]
fn refuses_what_cannot_be_linked(rt: HostRuntime) -> Result<(), Fail> {
    for ((place, new), relocs, text_relocs, (program, index)) in &NOT_LINKED {
        let mut code = Vec::new(rt.alloc());
        for (at, slot) in BASE.code.iter().enumerate() {
            code.push(if at == *place {
                with(*slot, *new)
            } else {
                *slot
            })?;
        }
        let sample = Sample {
            code: code.as_slice(),
            relocs: *relocs,
            text_relocs: *text_relocs,
            ..BASE
        };
        let refusal = LoadRefusal::BadReloc {
            program: *program,
            index: *index,
        };
        let found = linked(rt.alloc(), &sample, 0, 0)?;
        assert_eq!(rt;
            found,
            Err(LoadEnd::Refused(refusal)),
            "{relocs:?} {text_relocs:?}"
        );
    }
    Ok(())
}
