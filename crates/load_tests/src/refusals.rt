//! Each refusal, and which comes first.

use crate::sample::*;
use btf_types::BadBtf;
use elf_objects::BadElf;
use object_load::{LoadEnd, LoadRefusal};
use std::alloc::{AllocError, Global};
use std::test::Fail;

/// Why a sample is refused.
fn end_of(alloc: Global, sample: &Sample<'_>) -> Result<Option<LoadEnd>, AllocError> {
    Ok(load(alloc, sample)?.err())
}

/// Symbols of which the last breaks rule 21, and its place. The bytes of sections begin at 768 with 16 of code
/// and 4 of data, and then come the symbols.
const UNSOUND: [(&[SymbolRow], u64); 9] = [
    (&[(A, FUNC, XDP, 4, 8)], 812),
    (&[(A, FUNC, XDP, 8, 4)], 812),
    (&[(A, FUNC, XDP, 8, 0)], 812),
    (&[(A, FUNC, XDP, 8, 16)], 812),
    (&[(A, FUNC, XDP, 0xffff_ffff_ffff_fff8, 16)], 812),
    (&[(0, FUNC, XDP, 0, 16)], 812),
    (&[(NO_GOOD, FUNC, XDP, 0, 16)], 812),
    (&[(A, FUNC, XDP, 0, 16), (B, FUNC, XDP, 0, 12)], 836),
    // an object of the section and a function of another are no programs
    (
        &[
            (A, OBJECT, XDP, 1, 1),
            (A, FUNC, TEXT, 1, 1),
            (B, FUNC, XDP, 0, 12),
        ],
        860,
    ),
];

#[test]
fn names_the_first_symbol_that_breaks_rule_21(rt: HostRuntime) -> Result<(), Fail> {
    for (symbols, offset) in &UNSOUND {
        // data that could be written is found later
        let sample = Sample {
            symbols: *symbols,
            other: (DATA, 1, 4),
            ..PLAIN
        };
        let bad = LoadRefusal::BadElf(BadElf {
            offset: *offset,
            rule: 21,
        });
        assert_eq!(rt;
            end_of(rt.alloc(), &sample)?,
            Some(LoadEnd::Refused(bad)),
            "{offset}"
        );
    }
    Ok(())
}

/// Sections of data: name, type and size, and whether they are refused.
const DATA_SECTIONS: [((u32, u32, usize), bool); 6] = [
    ((DATA, 1, 1), true),
    ((BSS, 8, 4), true),
    ((DATA, 1, 0), false),
    ((BSS, 8, 0), false),
    ((DATABASE, 1, 4), false),
    ((CST, 1, 4), false),
];

#[test]
fn refuses_data_that_could_be_written(rt: HostRuntime) -> Result<(), Fail> {
    let refused = Some(LoadEnd::Refused(LoadRefusal::WritableData));
    for (other, is_refused) in &DATA_SECTIONS {
        let sample = Sample {
            other: *other,
            ..PLAIN
        };
        let end = end_of(rt.alloc(), &sample)?;
        assert_eq!(rt; end, if *is_refused { refused } else { None }, "{other:?}");
    }
    Ok(())
}

const FOUR: [SymbolRow; 2] = [(A, FUNC, XDP, 0, 16), (B, FUNC, XDP, 16, 16)];

const REFUSED: [(Sample<'static>, LoadRefusal); 12] = [
    (
        Sample {
            symbols: &[],
            other: (DATA, 1, 4),
            ..PLAIN
        },
        LoadRefusal::WritableData,
    ),
    (
        Sample {
            symbols: &[],
            ..PLAIN
        },
        LoadRefusal::NoProgram,
    ),
    (
        Sample {
            symbols: &[(A, OBJECT, XDP, 0, 16), (A, FUNC, TEXT, 0, 16)],
            text: &[PASS, EXIT],
            ..PLAIN
        },
        LoadRefusal::NoProgram,
    ),
    (
        Sample {
            symbols: &[(A, FUNC, XDP, 0, 16); 33],
            is_typed: true,
            words: &[(0, 0)],
            ..PLAIN
        },
        LoadRefusal::TooManyPrograms,
    ),
    // the magic number of types, and a configuration that is no structure
    (
        Sample {
            is_typed: true,
            words: &[(0, 0), (27, 1)],
            ..PLAIN
        },
        LoadRefusal::BadBtf(BadBtf { offset: 0, rule: 2 }),
    ),
    (
        Sample {
            is_typed: true,
            words: &[(27, 1), (40, 7)],
            ..PLAIN
        },
        LoadRefusal::BadConfig { member: 0 },
    ),
    // a kind of map that isn't known, maps without types, and constants of too many bytes
    (
        Sample {
            code: &[BAD, EXIT],
            is_typed: true,
            words: &[(40, 7)],
            ..PLAIN
        },
        LoadRefusal::BadMap { index: 0, rule: 5 },
    ),
    (
        Sample { maps: 32, ..PLAIN },
        LoadRefusal::BadMap { index: 0, rule: 1 },
    ),
    (
        Sample {
            constants: 65_537,
            is_typed: true,
            ..PLAIN
        },
        LoadRefusal::BadMap { index: 1, rule: 7 },
    ),
    // the second program's code, before the first one's relocation
    (
        Sample {
            code: &[PASS, EXIT, PASS, BAD],
            relocs: &[(0, 1, 1)],
            symbols: &FOUR,
            ..PLAIN
        },
        LoadRefusal::BadInsn {
            program: 1,
            index: 1,
        },
    ),
    (
        Sample {
            text: &[BAD],
            ..PLAIN
        },
        LoadRefusal::BadInsn {
            program: 0,
            index: 2,
        },
    ),
    (
        Sample {
            code: &[PASS, WIDE],
            ..PLAIN
        },
        LoadRefusal::BadInsn {
            program: 0,
            index: 1,
        },
    ),
];

#[test]
fn answers_the_first_refusal(rt: HostRuntime) -> Result<(), Fail> {
    for (sample, refusal) in &REFUSED {
        let end = end_of(rt.alloc(), sample)?;
        assert_eq!(rt; end, Some(LoadEnd::Refused(*refusal)), "{refusal:?}");
    }
    Ok(())
}

/// One slot more than a code may have is named, also where an earlier one is bad.
#[test]
fn refuses_a_code_that_is_too_long(rt: HostRuntime) -> Result<(), Fail> {
    for (slots, index) in [(65_535, 65_536), (65_534, 2)] {
        let mut text = Vec::new(rt.alloc());
        for _ in 0..slots {
            text.push(BAD)?;
        }
        let sample = Sample {
            text: text.as_slice(),
            ..PLAIN
        };
        let refusal = LoadRefusal::BadInsn { program: 0, index };
        assert_eq!(rt;
            end_of(rt.alloc(), &sample)?,
            Some(LoadEnd::Refused(refusal)),
            "{slots}"
        );
    }
    Ok(())
}
