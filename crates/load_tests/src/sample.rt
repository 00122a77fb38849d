//! An object with the sections that compilers make of programs.

use object_load::{LoadEnd, ProgramList, programs_of};
use std::alloc::{AllocError, Global};

/// r0 = 2; exit; a wide load into r1; a call of a function of the program, with -1 and with another number.
pub(crate) const PASS: u64 = 0x0002_0000_00b7;

pub(crate) const EXIT: u64 = 0x95;

pub(crate) const WIDE: u64 = 0x0118;

pub(crate) const CALL: u64 = 0xffff_ffff_0000_1085;

/// No instruction.
pub(crate) const BAD: u64 = 0xff;

/// The numbers of sections.
pub(crate) const XDP: u16 = 1;

pub(crate) const TEXT: u16 = 2;

pub(crate) const CONSTANTS: u16 = 5;

pub(crate) const MAPS: u16 = 6;

pub(crate) const OTHER: u16 = 8;

/// The places of names.
pub(crate) const DATA: u32 = 64;

pub(crate) const BSS: u32 = 70;

pub(crate) const DATABASE: u32 = 77;

pub(crate) const CST: u32 = 87;

pub(crate) const A: u32 = 99;

pub(crate) const B: u32 = 101;

pub(crate) const HITS: u32 = 105;

pub(crate) const UNDERSCORE: u32 = 110;

pub(crate) const NO_GOOD: u32 = 112;

const STRINGS: &[u8] =
    b"\0xdp\0.text\0.relxdp\0.rel.text\0.rodata\0.maps\0.BTF\0.symtab\0.strtab\0.data\0.bss.x\0.database\0.rodata.cst\0a\0b\0c\0hits\0_\0no good\0";

/// A function, and another symbol.
pub(crate) const FUNC: u8 = 0x12;

pub(crate) const OBJECT: u8 = 0x11;

/// A symbol: its name, info, section, value and size.
pub(crate) type SymbolRow = (u32, u8, u16, u64, u64);

/// A relocation: its offset, symbol and type.
pub(crate) type RelocRow = (u64, u32, u32);

/// The pieces of an object. Symbols are numbered from 1.
#[derive(Clone, Copy)]
pub(crate) struct Sample<'a> {
    pub code: &'a [u64],
    pub text: &'a [u64],
    pub relocs: &'a [RelocRow],
    pub text_relocs: &'a [RelocRow],
    /// How many zeros `.rodata` and `.maps` have.
    pub constants: usize,
    pub maps: usize,
    /// Whether there are types, and what of their words is overwritten.
    pub is_typed: bool,
    pub words: &'a [(usize, u32)],
    /// Another section: its name, type and size.
    pub other: (u32, u32, usize),
    pub symbols: &'a [SymbolRow],
}

/// A program `a` that answers XDP_PASS.
pub(crate) const PLAIN: Sample<'static> = Sample {
    code: &[PASS, EXIT],
    text: &[],
    relocs: &[],
    text_relocs: &[],
    constants: 0,
    maps: 0,
    is_typed: false,
    words: &[],
    other: (0, 1, 0),
    symbols: &[(A, FUNC, XDP, 0, 16)],
};

/// A header and 14 types: the configuration of `a` with priority 10, and a map `hits` of the kind per processor with two values of four
/// bytes.
const WORDS: [u32; 81] = [
    0x0001_eb9f,
    24,
    0,
    300,
    300,
    71, //
    1,
    0x0100_0000,
    4,
    0x0100_0020, // 1: int
    0,
    0x0300_0000,
    0,
    1,
    1,
    10, // 2: an array of 10
    0,
    0x0200_0000,
    2, // 3
    0,
    0x0400_0001,
    8,
    5,
    3,
    0, // 4: priority
    14,
    0x0e00_0000,
    4,
    1, // 5: _a
    17,
    0x0f00_0001,
    8,
    5,
    0,
    8, // 6: .xdp_run_config
    0,
    0x0300_0000,
    0,
    1,
    1,
    6, // 7: an array of 6
    0,
    0x0200_0000,
    7, // 8
    0,
    0x0300_0000,
    0,
    1,
    1,
    2, // 9: an array of 2
    0,
    0x0200_0000,
    9, // 10
    0,
    0x0200_0000,
    1, // 11
    0,
    0x0400_0004,
    32,
    33,
    8,
    0,
    38,
    10,
    64,
    50,
    11,
    128,
    54,
    11,
    192, // 12: type, max_entries, key, value
    60,
    0x0e00_0000,
    12,
    1, // 13: hits
    65,
    0x0f00_0001,
    32,
    13,
    0,
    32, // 14: .maps
];

const TYPE_NAMES: &[u8] =
    b"\0int\0priority\0_a\0.xdp_run_config\0type\0max_entries\0key\0value\0hits\0.maps\0";

/// Appends a number in so many bytes, the lowest first.
fn push(out: &mut Vec<u8>, number: u64, width: u32) -> Result<(), AllocError> {
    let mut rest = number;
    for _ in 0..width {
        out.push((rest % 256) as u8)?;
        rest /= 256;
    }
    Ok(())
}

/// Appends zeros.
fn push_zeros(out: &mut Vec<u8>, count: usize) -> Result<(), AllocError> {
    for _ in 0..count {
        out.push(0)?;
    }
    Ok(())
}

fn slots(alloc: Global, slots: &[u64]) -> Result<Vec<u8>, AllocError> {
    let mut out = Vec::new(alloc);
    for slot in slots {
        push(&mut out, *slot, 8)?;
    }
    Ok(out)
}

fn relocs(alloc: Global, rows: &[RelocRow]) -> Result<Vec<u8>, AllocError> {
    let mut out = Vec::new(alloc);
    for (offset, symbol, kind) in rows {
        push(&mut out, *offset, 8)?;
        push(&mut out, u64::from(*kind), 4)?;
        push(&mut out, u64::from(*symbol), 4)?;
    }
    Ok(out)
}

fn zeros(alloc: Global, count: usize) -> Result<Vec<u8>, AllocError> {
    let mut out = Vec::new(alloc);
    push_zeros(&mut out, count)?;
    Ok(out)
}

fn symbols(alloc: Global, rows: &[SymbolRow]) -> Result<Vec<u8>, AllocError> {
    let mut out = Vec::new(alloc);
    push_zeros(&mut out, 24)?;
    for (name, info, section, value, size) in rows {
        push(&mut out, u64::from(*name), 4)?;
        push(&mut out, u64::from(*info), 2)?;
        push(&mut out, u64::from(*section), 2)?;
        push(&mut out, *value, 8)?;
        push(&mut out, *size, 8)?;
    }
    Ok(out)
}

/// The word at a place, or the one that is written over it.
fn word_at(place: usize, word: u32, words: &[(usize, u32)]) -> u32 {
    for (over, other) in words {
        if *over == place {
            return *other;
        }
    }
    word
}

fn types(alloc: Global, sample: &Sample<'_>) -> Result<Vec<u8>, AllocError> {
    let mut out = Vec::new(alloc);
    if sample.is_typed {
        for (place, word) in WORDS.iter().enumerate() {
            push(&mut out, u64::from(word_at(place, *word, sample.words)), 4)?;
        }
        out.extend_from_slice(TYPE_NAMES)?;
    }
    Ok(out)
}

/// The parts of a file: section headers, and behind them the bytes of sections.
#[derive(Drop)]
struct Parts {
    headers: Vec<u8>,
    bytes: Vec<u8>,
}

/// Where the bytes of sections begin.
const FIRST_BYTE: usize = 64 + 11 * 64;

impl Parts {
    /// Adds a section; its link is that of its kind.
    fn add(
        &mut self,
        name: u32,
        kind: u32,
        flags: u64,
        info: u32,
        bytes: &[u8],
    ) -> Result<(), AllocError> {
        let (link, entry) = match kind {
            2 => (10, 24),
            9 => (9, 16),
            _ => (0, 0),
        };
        let offset = FIRST_BYTE.wrapping_add(self.bytes.len());
        push(&mut self.headers, u64::from(name), 4)?;
        push(&mut self.headers, u64::from(kind), 4)?;
        push(&mut self.headers, flags, 8)?;
        push(&mut self.headers, 0, 8)?;
        push(&mut self.headers, offset as u64, 8)?;
        push(&mut self.headers, bytes.len() as u64, 8)?;
        push(&mut self.headers, link, 4)?;
        push(&mut self.headers, u64::from(info), 4)?;
        push(&mut self.headers, 8, 8)?;
        push(&mut self.headers, entry, 8)?;
        self.bytes.extend_from_slice(bytes)?;
        Ok(())
    }
}

/// The header of the file, with zeros for what isn't read.
const HEADER: [(u64, u32); 16] = [
    (0x464c_457f, 4), // 7f, E, L, F
    (2, 1), // 64 bits
    (1, 1), // little endian
    (1, 1), // version
    (0, 9),
    (1, 2), // relocatable
    (247, 2), // BPF
    (1, 4), // version
    (0, 16),
    (64, 8), // section headers
    (0, 4),
    (64, 2), // this header
    (0, 4),
    (64, 2), // a section header
    (11, 2), // section headers
    (10, 2), // the section of names
];

fn code_sections(alloc: Global, parts: &mut Parts, sample: &Sample<'_>) -> Result<(), AllocError> {
    parts.add(0, 0, 0, 0, b"")?;
    parts.add(1, 1, 6, 0, slots(alloc, sample.code)?.as_slice())?;
    parts.add(5, 1, 6, 0, slots(alloc, sample.text)?.as_slice())?;
    parts.add(11, 9, 0, 1, relocs(alloc, sample.relocs)?.as_slice())?;
    parts.add(19, 9, 0, 2, relocs(alloc, sample.text_relocs)?.as_slice())
}

fn data_sections(alloc: Global, parts: &mut Parts, sample: &Sample<'_>) -> Result<(), AllocError> {
    let (name, kind, size) = sample.other;
    parts.add(29, 1, 2, 0, zeros(alloc, sample.constants)?.as_slice())?;
    parts.add(37, 1, 3, 0, zeros(alloc, sample.maps)?.as_slice())?;
    let btf = if sample.is_typed { 43 } else { 0 };
    parts.add(btf, 1, 0, 0, types(alloc, sample)?.as_slice())?;
    parts.add(name, kind, 2, 0, zeros(alloc, size)?.as_slice())
}

/// The bytes of the object: its header, 11 section headers, and the bytes of the sections in order.
pub(crate) fn object(alloc: Global, sample: &Sample<'_>) -> Result<Vec<u8>, AllocError> {
    let mut parts = Parts {
        headers: Vec::new(alloc),
        bytes: Vec::new(alloc),
    };
    code_sections(alloc, &mut parts, sample)?;
    data_sections(alloc, &mut parts, sample)?;
    parts.add(48, 2, 0, 1, symbols(alloc, sample.symbols)?.as_slice())?;
    parts.add(56, 3, 0, 0, STRINGS)?;
    let mut out = Vec::new(alloc);
    for (number, width) in HEADER {
        push(&mut out, number, width)?;
    }
    out.extend_from_slice(parts.headers.as_slice())?;
    out.extend_from_slice(parts.bytes.as_slice())?;
    Ok(out)
}

pub(crate) fn load(
    alloc: Global,
    sample: &Sample<'_>,
) -> Result<Result<ProgramList, LoadEnd>, AllocError> {
    let bytes = object(alloc, sample)?;
    Ok(programs_of(alloc, bytes.as_slice()))
}
