use btf_types::{BadBtf, BtfEnd, Part, Size, TypeRow, Types, kind, read_btf};
use lists::{Bytes, OutOfMemory};
use std::alloc::Global;
use std::test::*;

/// Fourteen types: the run configuration of a function `a`, and a map `hits`.
const TYPES: [u32; 75] = [
    1,
    0x0100_0000,
    4,
    0x0100_0020, // 1: INT int
    0,
    0x0300_0000,
    0,
    1,
    1,
    10, // 2: ARRAY of 10 times 1
    0,
    0x0200_0000,
    2, // 3: PTR to 2
    0,
    0x0400_0001,
    8,
    5,
    3,
    0, // 4: STRUCT with priority: 3
    14,
    0x0e00_0000,
    4,
    1, // 5: VAR _a: 4
    17,
    0x0f00_0001,
    8,
    5,
    0,
    8, // 6: DATASEC .xdp_run_config with 5
    0,
    0x0300_0000,
    0,
    1,
    1,
    6, // 7: ARRAY of 6 times 1
    0,
    0x0200_0000,
    7, // 8: PTR to 7
    0,
    0x0300_0000,
    0,
    1,
    1,
    2, // 9: ARRAY of 2 times 1
    0,
    0x0200_0000,
    9, // 10: PTR to 9
    0,
    0x0200_0000,
    1, // 11: PTR to 1
    0,
    0x0400_0004,
    32, // 12: STRUCT
    33,
    8,
    0, // type: 8
    38,
    10,
    64, // max_entries: 10
    50,
    11,
    128, // key: 11
    54,
    11,
    192, // value: 11
    60,
    0x0e00_0000,
    12,
    1, // 13: VAR hits: 12
    65,
    0x0f00_0001,
    32,
    13,
    0,
    32, // 14: DATASEC .maps with 13
];

const STRINGS: &[u8; 71] =
    b"\0int\0priority\0_a\0.xdp_run_config\0type\0max_entries\0key\0value\0hits\0.maps\0";

fn append_words(bytes: &mut Bytes, words: &[u32]) -> Result<(), OutOfMemory> {
    for word in words {
        bytes.append(&word.to_le_bytes())?;
    }
    Ok(())
}

/// A header, these types and these strings.
fn blob(alloc: Global, types: &[u32], strings: &[u8]) -> Result<Bytes, Fail> {
    let types_len = u32::try_from(4 * types.len() as u128)?;
    let strings_len = u32::try_from(strings.len())?;
    let mut bytes = Bytes::new(alloc);
    bytes.append(&[0x9f, 0xeb, 1, 0])?;
    append_words(&mut bytes, &[24, 0, types_len, types_len, strings_len])?;
    append_words(&mut bytes, types)?;
    bytes.append(strings)?;
    Ok(bytes)
}

/// The types of a header, these types and these strings.
fn types_from(alloc: Global, types: &[u32], strings: &[u8]) -> Result<Types, Fail> {
    let bytes = blob(alloc, types, strings)?;
    Ok(read_btf(alloc, bytes.as_slice())?)
}

fn row_of(types: &Types, number: u32) -> Option<TypeRow> {
    if number == 0 || types.len() < number {
        return None;
    }
    Some(*types.type_at(number))
}

/// A part of a type by its place in the type, and whether it has this name.
fn part_of(types: &Types, number: u32, place: u32, name: &[u8]) -> Option<(Part, bool)> {
    if number == 0 || types.len() < number {
        return None;
    }
    let row = types.type_at(number);
    if row.count <= place {
        return None;
    }
    let part = types.part(row.first + place);
    Some((*part, types.name_of(part.name) == name))
}

#[test]
fn types_of_an_object(rt: HostRuntime) -> Result<(), Fail> {
    let types = types_from(rt.alloc(), &TYPES, STRINGS)?;
    assert_eq!(rt; types.len(), 14);
    let structure = TypeRow {
        kind: kind::STRUCT,
        name: 0,
        size_or_target: 32,
        first: 5,
        count: 4,
    };
    assert_eq!(rt; row_of(&types, 12), Some(structure));
    let array = TypeRow {
        kind: kind::ARRAY,
        name: 0,
        size_or_target: 0,
        first: 4,
        count: 1,
    };
    assert_eq!(rt; row_of(&types, 9), Some(array));
    Ok(())
}

#[test]
fn parts_of_types(rt: HostRuntime) -> Result<(), Fail> {
    let types = types_from(rt.alloc(), &TYPES, STRINGS)?;
    let member = Part {
        name: 38,
        target: 10,
        place: 64,
    };
    assert_eq!(rt;
        part_of(&types, 12, 1, b"max_entries"),
        Some((member, true))
    );
    let elements = Part {
        name: 0,
        target: 1,
        place: 2,
    };
    assert_eq!(rt; part_of(&types, 9, 0, b""), Some((elements, true)));
    Ok(())
}

#[test]
fn sections_by_name(rt: HostRuntime) -> Result<(), Fail> {
    let types = types_from(rt.alloc(), &TYPES, STRINGS)?;
    let rows: [(&[u8], Option<u32>); 3] = [
        (b".maps", Some(14)),
        (b".xdp_run_config", Some(6)),
        (b"hits", None),
    ];
    for (name, number) in rows {
        assert_eq!(rt; types.section_vars(name), number);
    }
    Ok(())
}

/// A byte that is changed, its new value, and the rule that breaks at a place.
const BREAKS: [(usize, u8, u8, u64); 10] = [
    (0, 0, 2, 0),
    (2, 2, 3, 2),
    (4, 23, 4, 4),
    (13, 2, 5, 8),
    (20, 72, 6, 16),
    (12, 28, 7, 300),
    (31, 0, 8, 24),
    (12, 40, 9, 300),
    (25, 1, 10, 24),
    (72, 15, 11, 64),
];

/// Why bytes are refused.
fn end_of(alloc: Global, bytes: &[u8]) -> Option<BtfEnd> {
    read_btf(alloc, bytes).err()
}

/// Why bytes are refused once one of them is changed.
fn end_with(
    alloc: Global,
    whole: &[u8],
    place: usize,
    value: u8,
) -> Result<Option<BtfEnd>, OutOfMemory> {
    let mut bytes = Bytes::new(alloc);
    for (at, byte) in whole.iter().enumerate() {
        bytes.push(if at == place { value } else { *byte })?;
    }
    Ok(end_of(alloc, bytes.as_slice()))
}

#[test]
fn each_rule_once(rt: HostRuntime) -> Result<(), Fail> {
    let whole = blob(rt.alloc(), &TYPES, STRINGS)?;
    let whole = whole.as_slice();
    assert_eq!(rt; whole.len(), 395);
    let short = BadBtf { offset: 0, rule: 1 };
    assert_eq!(rt;
        end_of(rt.alloc(), &whole[..23]),
        Some(BtfEnd::BadBtf(short))
    );
    for (place, value, rule, offset) in &BREAKS {
        let bad = BadBtf {
            offset: *offset,
            rule: *rule,
        };
        let end = end_with(rt.alloc(), whole, *place, *value)?;
        assert_eq!(rt; end, Some(BtfEnd::BadBtf(bad)), "B{rule}");
    }
    Ok(())
}

/// Types whose sizes are those below.
const SIZED: [u32; 90] = [
    0,
    0x0100_0000,
    4,
    0, // 1: INT of 4 bytes
    0,
    0x0200_0000,
    2, // 2: PTR to itself
    0,
    0x0300_0000,
    0,
    1,
    1,
    10, // 3: ARRAY of 10 times 1
    0,
    0x0300_0000,
    0,
    3,
    1,
    3, // 4: ARRAY of 3 times 3
    0,
    0x0800_0000,
    6, // 5: TYPEDEF of 6
    0,
    0x0a00_0000,
    4, // 6: CONST 4
    0,
    0x0800_0000,
    8, // 7: TYPEDEF of 8
    0,
    0x0900_0000,
    7, // 8: VOLATILE 7
    0,
    0x0300_0000,
    0,
    7,
    1,
    0, // 9: ARRAY of 0 times 7
    0,
    0x0300_0000,
    0,
    1,
    1,
    0x4000_0000, // 10: ARRAY of 2^30 times 1
    0,
    0x0300_0000,
    0,
    10,
    1,
    0, // 11: ARRAY of 0 times 10
    0,
    0x0300_0000,
    0,
    1,
    1,
    0x3fff_ffff, // 12: ARRAY of 2^30 - 1 times 1
    0,
    0x0300_0000,
    0,
    12,
    1,
    0, // 13: ARRAY of 0 times 12
    0,
    0x0300_0000,
    0,
    13,
    1,
    0xffff_ffff, // 14: ARRAY of 2^32 - 1 times 13
    0,
    0x0300_0000,
    0,
    15,
    1,
    1, // 15: ARRAY of 1 times itself
    0,
    0x0800_0000,
    0, // 16: TYPEDEF of void
    0,
    0x0e00_0000,
    12,
    0, // 17: VAR of 12
    0,
    0x0600_0001,
    4,
    0,
    1, // 18: ENUM with one enumerator
    0,
    0x0d00_0001,
    1,
    0,
    2, // 19: FUNC_PROTO with one parameter
];

const SIZES: [Size; 20] = [
    Size::Unsized,
    Size::Known(4),
    Size::Known(8),
    Size::Known(40),
    Size::Known(120),
    Size::Known(120),
    Size::Known(120),
    Size::Endless,
    Size::Endless,
    Size::Endless,
    Size::Unsized,
    Size::Unsized,
    Size::Known(0xffff_fffc),
    Size::Known(0),
    Size::Known(0),
    Size::Endless,
    Size::Unsized,
    Size::Known(0xffff_fffc),
    Size::Known(4),
    Size::Unsized,
];

fn size_of(types: &Types, number: u32) -> Option<Size> {
    if types.len() < number {
        return None;
    }
    Some(types.size_of(number))
}

#[test]
fn sizes(rt: HostRuntime) -> Result<(), Fail> {
    let types = types_from(rt.alloc(), &SIZED, b"\0")?;
    assert_eq!(rt; types.len(), 19);
    for (number, size) in SIZES.iter().enumerate() {
        let found = size_of(&types, u32::try_from(number)?);
        assert_eq!(rt; found, Some(*size), "type {number}");
    }
    Ok(())
}
