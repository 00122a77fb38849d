//! Objects built byte by byte, whole and damaged.

use elf_objects::{BadElf, Object, ObjectEnd, Reloc, Section, Symbol, read_object};
use std::alloc::{AllocError, Global};
use std::test::Fail;

/// The code of a program that answers XDP_PASS: r0 = 2; exit.
const PASS: [u8; 16] = [
    0xb7, 0, 0, 0, 2, 0, 0, 0, // r0 = 2
    0x95, 0, 0, 0, 0, 0, 0, 0, // exit
];

/// Appends numbers, each in as many bytes as stand beside it, the lowest byte first.
fn push_numbers(out: &mut Vec<u8>, numbers: &[(u64, u32)]) -> Result<(), AllocError> {
    for (number, width) in numbers {
        let mut rest = *number;
        for _ in 0..*width {
            out.push((rest % 256) as u8)?;
            rest /= 256;
        }
    }
    Ok(())
}

/// A section header, without address and alignment.
fn push_header(out: &mut Vec<u8>, section: &Section, entry_size: u64) -> Result<(), AllocError> {
    push_numbers(
        out,
        &[
            (u64::from(section.name), 4),
            (u64::from(section.kind), 4),
            (section.flags, 8),
            (0, 8),
            (section.offset, 8),
            (section.size, 8),
            (u64::from(section.link), 4),
            (u64::from(section.info), 4),
            (8, 8),
            (entry_size, 8),
        ],
    )
}

const SECTIONS: [Section; 4] = [
    Section {
        name: 0,
        kind: 0,
        flags: 0,
        offset: 0,
        size: 0,
        link: 0,
        info: 0,
    },
    Section {
        name: 1,
        kind: 1,
        flags: 6,
        offset: 64,
        size: 16,
        link: 0,
        info: 0,
    },
    Section {
        name: 5,
        kind: 2,
        flags: 0,
        offset: 80,
        size: 48,
        link: 3,
        info: 1,
    },
    Section {
        name: 13,
        kind: 3,
        flags: 0,
        offset: 128,
        size: 23,
        link: 0,
        info: 0,
    },
];

const ENTRY_SIZES: [u64; 4] = [0, 0, 24, 0];

/// The header of the file, with zeros for what isn't read.
const HEADER: [(u64, u32); 16] = [
    (0x464c_457f, 4), // 7f, E, L, F
    (2, 1), // 64 bits
    (1, 1), // little endian
    (1, 1), // version
    (0, 9),
    (1, 2), // relocatable
    (247, 2), // BPF
    (1, 4), // version
    (0, 16),
    (152, 8), // section headers
    (0, 4),
    (64, 2), // this header
    (0, 4),
    (64, 2), // a section header
    (4, 2), // section headers
    (3, 2), // the section of names
];

/// No symbol, and `a`.
const SYMBOLS: [(u64, u32); 6] = [(0, 24), (21, 4), (0x12, 2), (1, 2), (0, 8), (16, 8)];

/// An object of 408 bytes, whose program `a` is `PASS`: the code at 64, two symbols at 80, the strings at 128 and four
/// section headers at 152.
fn sample(alloc: Global) -> Result<Vec<u8>, AllocError> {
    let mut out = Vec::new(alloc);
    push_numbers(&mut out, &HEADER)?;
    out.extend_from_slice(&PASS)?;
    push_numbers(&mut out, &SYMBOLS)?;
    out.extend_from_slice(b"\0xdp\0.symtab\0.strtab\0a\0\0")?;
    for (section, entry_size) in SECTIONS.iter().zip(ENTRY_SIZES.iter()) {
        push_header(&mut out, section, *entry_size)?;
    }
    Ok(out)
}

/// The first bytes of the sample, some of them overwritten.
fn damaged(alloc: Global, length: usize, writes: &[(usize, u8)]) -> Result<Vec<u8>, AllocError> {
    let mut out = sample(alloc)?;
    out.truncate(length);
    for (place, byte) in writes {
        if *place < out.len() {
            out[*place] = *byte;
        }
    }
    Ok(out)
}

#[test]
fn shows_the_sample(rt: HostRuntime) -> Result<(), Fail> {
    let bytes = sample(rt.alloc())?;
    assert_eq!(rt; bytes.len(), 408);
    let object = read_object(rt.alloc(), bytes.as_slice()).map_err(|_| "refused")?;
    assert_eq!(rt; object.sections(), SECTIONS.as_slice());
    let program = Symbol {
        name: 21,
        info: 0x12,
        section: 1,
        value: 0,
        size: 16,
    };
    let null = Symbol {
        name: 0,
        info: 0,
        section: 0,
        value: 0,
        size: 0,
    };
    assert_eq!(rt; object.symbols(), [null, program].as_slice());
    Ok(())
}

fn has_content(object: &Object<'_>, section: u32, content: &[u8]) -> bool {
    (section as usize) < object.sections().len() && object.content(section) == content
}

fn is_section_named(object: &Object<'_>, section: u32, name: &[u8]) -> bool {
    (section as usize) < object.sections().len() && object.section_name(section) == name
}

fn is_symbol_named(object: &Object<'_>, symbol: u32, name: &[u8]) -> bool {
    (symbol as usize) < object.symbols().len() && object.symbol_name(symbol) == name
}

fn has_relocs(object: &Object<'_>, section: u32, relocs: &[Reloc]) -> bool {
    (section as usize) < object.sections().len() && object.relocs(section) == relocs
}

#[test]
fn shows_names_and_contents(rt: HostRuntime) -> Result<(), Fail> {
    let bytes = sample(rt.alloc())?;
    let object = read_object(rt.alloc(), bytes.as_slice()).map_err(|_| "refused")?;
    assert!(rt; has_content(&object, 0, b""));
    assert!(rt; has_content(&object, 1, &PASS));
    assert!(rt; is_section_named(&object, 1, b"xdp"));
    assert!(rt; is_section_named(&object, 2, b".symtab"));
    assert!(rt; is_symbol_named(&object, 0, b""));
    assert!(rt; is_symbol_named(&object, 1, b"a"));
    assert!(rt; has_relocs(&object, 1, &[]));
    Ok(())
}

/// The code read as a relocation, by the symbol table, of symbol 1.
#[test]
fn shows_a_relocation(rt: HostRuntime) -> Result<(), Fail> {
    let bytes = damaged(rt.alloc(), 408, &[(220, 9), (256, 2), (272, 16), (76, 1)])?;
    let object = read_object(rt.alloc(), bytes.as_slice()).map_err(|_| "refused")?;
    assert_eq!(rt; object.sections().len(), 4);
    let reloc = Reloc {
        offset: 0x2_0000_00b7,
        symbol: 1,
        kind: 0x95,
    };
    assert!(rt; has_relocs(&object, 1, &[reloc]));
    Ok(())
}

/// How long the sample is cut, what is overwritten, and the rule that breaks at a place.
const BREAKS: [(usize, &[(usize, u8)], u8, u64); 22] = [
    (0, &[], 1, 0),
    (63, &[], 1, 0),
    (408, &[(0, 0)], 2, 0),
    (408, &[(4, 1)], 3, 4),
    (408, &[(5, 2)], 4, 5),
    (408, &[(6, 0)], 5, 6),
    (408, &[(16, 2)], 6, 16),
    (408, &[(18, 62)], 7, 18),
    (408, &[(20, 2)], 8, 20),
    (408, &[(58, 40)], 9, 58),
    (408, &[(60, 0)], 10, 60),
    (407, &[], 11, 40),
    (408, &[(62, 2)], 12, 62),
    (408, &[(249, 255)], 13, 216),
    (408, &[(216, 23)], 14, 216),
    (408, &[(225, 8)], 15, 216),
    (408, &[(336, 16)], 16, 280),
    (408, &[(104, 23)], 17, 104),
    (408, &[(110, 4)], 18, 104),
    (408, &[(220, 9)], 19, 216),
    (408, &[(220, 9), (256, 2), (272, 16), (76, 2)], 20, 64),
    // a later rule is broken too, and at an earlier place
    (408, &[(249, 255), (104, 23)], 13, 216),
];

/// Why the sample is refused once it is damaged.
fn end_of(
    alloc: Global,
    length: usize,
    writes: &[(usize, u8)],
) -> Result<Option<ObjectEnd>, AllocError> {
    let bytes = damaged(alloc, length, writes)?;
    Ok(read_object(alloc, bytes.as_slice()).err())
}

#[test]
fn refuses_by_the_first_broken_rule(rt: HostRuntime) -> Result<(), Fail> {
    for (length, writes, rule, offset) in &BREAKS {
        let bad = BadElf {
            offset: *offset,
            rule: *rule,
        };
        let end = end_of(rt.alloc(), *length, writes)?;
        assert_eq!(rt; end, Some(ObjectEnd::BadElf(bad)), "E{rule}");
    }
    Ok(())
}
