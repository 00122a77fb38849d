//! Small objects, each with one program.

use std::alloc::Global;
use xio::{Bytes, MemoryFiles, OutOfMemory};

/// r0 = 2; exit.
const PASS: &[u64] = &[0x0002_0000_00b7, 0x95];

/// r0 = 1; exit.
const DROP: &[u64] = &[0x0001_0000_00b7, 0x95];

/// Writes over the packet's first byte, and then to its end, which faults.
const WRITES_PAST: &[u64] = &[
    0x1261,
    0x00ff_0000_0272,
    0x0004_1361,
    0x0001_0000_0372,
    0x0002_0000_00b7,
    0x95,
];

/// Files, and the program of each.
const OBJECTS: [(&str, &[u8], &[u64]); 4] = [
    ("a.o", b"a", PASS),
    ("b.o", b"b", PASS),
    ("drop.o", b"drop", DROP),
    ("f.o", b"f", WRITES_PAST),
];

/// The words of an object: its header, code, symbols, names and sections (ELF64).
fn object(alloc: Global, name: &[u8], code: &[u64]) -> Result<Bytes, OutOfMemory> {
    let size = (code.len() as u64).wrapping_mul(8);
    let strings = size.wrapping_add(112);
    let names = (name.len() as u64).wrapping_add(22);
    let padding = names.wrapping_neg() % 8;
    let sections = strings.wrapping_add(names).wrapping_add(padding);
    let header = [
        0x0001_0102_464c_457f,
        0,
        0x0001_00f7_0001,
        0,
        0,
        sections,
        0x0040_0000_0000,
        0x0003_0004_0040_0000,
    ];
    let symbols = [0, 0, 0, 0x0001_0012_0000_0015, 0, size];
    let code_section = [0x0001_0000_0001, 6, 0, 64, size, 0, 8, 0];
    let place = size.wrapping_add(64);
    let symbol_section = [0x0002_0000_0005, 0, 0, place, 48, 0x0001_0000_0003, 8, 24];
    let string_section = [0x0003_0000_000d, 0, 0, strings, names, 0, 1, 0];
    let mut bytes = Bytes::new(alloc);
    for words in [header.as_slice(), code, symbols.as_slice()] {
        append(&mut bytes, words)?;
    }
    bytes.append(b"\0xdp\0.symtab\0.strtab\0")?;
    bytes.append(name)?;
    bytes.push(0)?;
    for _ in 0..padding {
        bytes.push(0)?;
    }
    for words in [[0; 8], code_section, symbol_section, string_section] {
        append(&mut bytes, words.as_slice())?;
    }
    Ok(bytes)
}

fn append(bytes: &mut Bytes, words: &[u64]) -> Result<(), OutOfMemory> {
    for word in words {
        bytes.append(&word.to_le_bytes())?;
    }
    Ok(())
}

/// Adds a file, which isn't there yet.
fn add_file(files: &mut MemoryFiles, name: &str, bytes: &[u8]) -> Result<(), OutOfMemory> {
    if files.content(name).is_none() {
        files.add(name, bytes, None)?;
    }
    Ok(())
}

/// Adds the objects, and an empty file.
pub fn add_objects(alloc: Global, files: &mut MemoryFiles) -> Result<(), OutOfMemory> {
    for (file, name, code) in OBJECTS {
        let object = object(alloc, name, code)?;
        add_file(files, file, object.as_slice())?;
    }
    add_file(files, "e.o", b"")
}
