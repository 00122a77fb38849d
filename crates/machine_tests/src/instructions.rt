use bpf_insn::{
    Arithmetic, Atomic, DecodeEnd, Insn, Operand, Operation, Table, Width, decode, encode,
    instructions, rows_apart,
};
use std::alloc::Global;
use std::test::Fail;

/// A slot or two of each row of the table, in the order of their bytes.
const SLOTS: [u64; 123] = [
    // arithmetic of 32 bits with an immediate; DIV and MOD signed
    0x0409_0000_feff_ffff,
    0x1409_0000_feff_ffff,
    0x2409_0000_feff_ffff,
    0x3409_0100_feff_ffff,
    0x4409_0000_feff_ffff,
    0x5409_0000_feff_ffff,
    0x6409_0000_feff_ffff,
    0x7409_0000_feff_ffff,
    0x9409_0100_feff_ffff,
    0xa409_0000_feff_ffff,
    0xb409_0000_feff_ffff,
    0xc409_0000_feff_ffff,
    // arithmetic of 64 bits with an immediate; DIV and MOD signed
    0x0709_0000_feff_ffff,
    0x1709_0000_feff_ffff,
    0x2709_0000_feff_ffff,
    0x3709_0100_feff_ffff,
    0x4709_0000_feff_ffff,
    0x5709_0000_feff_ffff,
    0x6709_0000_feff_ffff,
    0x7709_0000_feff_ffff,
    0x9709_0100_feff_ffff,
    0xa709_0000_feff_ffff,
    0xb709_0000_feff_ffff,
    0xc709_0000_feff_ffff,
    // with a register; MOV extends 16 bits
    0x0ca9_0000_0000_0000,
    0x1ca9_0000_0000_0000,
    0x2ca9_0000_0000_0000,
    0x3ca9_0100_0000_0000,
    0x4ca9_0000_0000_0000,
    0x5ca9_0000_0000_0000,
    0x6ca9_0000_0000_0000,
    0x7ca9_0000_0000_0000,
    0x9ca9_0100_0000_0000,
    0xaca9_0000_0000_0000,
    0xbca9_1000_0000_0000,
    0xcca9_0000_0000_0000,
    // with a register; MOV extends 32 bits
    0x0fa9_0000_0000_0000,
    0x1fa9_0000_0000_0000,
    0x2fa9_0000_0000_0000,
    0x3fa9_0100_0000_0000,
    0x4fa9_0000_0000_0000,
    0x5fa9_0000_0000_0000,
    0x6fa9_0000_0000_0000,
    0x7fa9_0000_0000_0000,
    0x9fa9_0100_0000_0000,
    0xafa9_0000_0000_0000,
    0xbfa9_2000_0000_0000,
    0xcfa9_0000_0000_0000,
    // NEG, END
    0x8409_0000_0000_0000,
    0x8709_0000_0000_0000,
    0xd409_0000_1000_0000,
    0xdc09_0000_2000_0000,
    0xd709_0000_4000_0000,
    // JA, CALL of a helper and of a function, EXIT
    0x0500_feff_0000_0000,
    0x0600_0000_feff_ffff,
    0x8500_0000_0500_0000,
    0x8510_0000_ffff_ffff,
    0x9500_0000_0000_0000,
    // jumps of 64 bits with an immediate
    0x150a_feff_feff_ffff,
    0x250a_feff_feff_ffff,
    0x350a_feff_feff_ffff,
    0x450a_feff_feff_ffff,
    0x550a_feff_feff_ffff,
    0x650a_feff_feff_ffff,
    0x750a_feff_feff_ffff,
    0xa50a_feff_feff_ffff,
    0xb50a_feff_feff_ffff,
    0xc50a_feff_feff_ffff,
    0xd50a_feff_feff_ffff,
    // jumps of 32 bits with an immediate
    0x160a_feff_feff_ffff,
    0x260a_feff_feff_ffff,
    0x360a_feff_feff_ffff,
    0x460a_feff_feff_ffff,
    0x560a_feff_feff_ffff,
    0x660a_feff_feff_ffff,
    0x760a_feff_feff_ffff,
    0xa60a_feff_feff_ffff,
    0xb60a_feff_feff_ffff,
    0xc60a_feff_feff_ffff,
    0xd60a_feff_feff_ffff,
    // with a register
    0x1daa_feff_0000_0000,
    0x2daa_feff_0000_0000,
    0x3daa_feff_0000_0000,
    0x4daa_feff_0000_0000,
    0x5daa_feff_0000_0000,
    0x6daa_feff_0000_0000,
    0x7daa_feff_0000_0000,
    0xadaa_feff_0000_0000,
    0xbdaa_feff_0000_0000,
    0xcdaa_feff_0000_0000,
    0xddaa_feff_0000_0000,
    // with a register
    0x1eaa_feff_0000_0000,
    0x2eaa_feff_0000_0000,
    0x3eaa_feff_0000_0000,
    0x4eaa_feff_0000_0000,
    0x5eaa_feff_0000_0000,
    0x6eaa_feff_0000_0000,
    0x7eaa_feff_0000_0000,
    0xaeaa_feff_0000_0000,
    0xbeaa_feff_0000_0000,
    0xceaa_feff_0000_0000,
    0xdeaa_feff_0000_0000,
    // loads, with and without sign
    0x61a9_f8ff_0000_0000,
    0x69a9_f8ff_0000_0000,
    0x71a9_f8ff_0000_0000,
    0x79a9_f8ff_0000_0000,
    0x81a9_f8ff_0000_0000,
    0x89a9_f8ff_0000_0000,
    0x91a9_f8ff_0000_0000,
    // stores of an immediate and of a register
    0x620a_f8ff_feff_ffff,
    0x6a0a_f8ff_feff_ffff,
    0x720a_f8ff_feff_ffff,
    0x7a0a_f8ff_feff_ffff,
    0x63aa_f8ff_0000_0000,
    0x6baa_f8ff_0000_0000,
    0x73aa_f8ff_0000_0000,
    0x7baa_f8ff_0000_0000,
    // atomic operations, with r10 as a source that stays and r9 as one that is written
    0xc3aa_f8ff_0000_0000,
    0xdbaa_f8ff_f100_0000,
    0xc39a_f8ff_e100_0000,
    0xdb9a_f8ff_0100_0000,
    // a wide load and its half
    0x1809_0000_feff_ffff,
    0x0000_0000_feff_ffff,
];

/// Slots of which one has no row, and the number of that one.
const REFUSED: [(&[u64], u32); 10] = [
    // MOV with a source beside the immediate
    (&[0xb710_0000_0200_0000], 0),
    // a fetched value would be written to r10
    (&[0xdba1_0000_0100_0000], 0),
    // a wide load without its second slot, and before another slot
    (&[0x1801_0000_0000_0000], 0),
    (&[0x1801_0000_0000_0000, 0x9500_0000_0000_0000], 0),
    // END of 8 bits
    (&[0xd401_0000_0800_0000], 0),
    // DIV with offset 2
    (&[0x3701_0200_0100_0000], 0),
    // MOV to r10
    (&[0xb70a_0000_0100_0000], 0),
    // a call through a register
    (&[0x8d00_0000_0000_0000], 0),
    // a second slot where no wide load stands in front
    (&[0x9500_0000_0000_0000, 0x0000_0000_0000_0000], 1),
    // behind a wide load
    (
        &[
            0x1801_0000_0000_0000,
            0x0000_0000_0000_0000,
            0xffff_ffff_ffff_ffff,
        ],
        2,
    ),
];

fn bytes_of(alloc: Global, slots: &[u64]) -> Result<Vec<u8>, Fail> {
    let mut bytes = Vec::new(alloc);
    for slot in slots {
        bytes.extend_from_slice(&slot.to_be_bytes())?;
    }
    Ok(bytes)
}

#[test]
fn each_row_is_taken(rt: HostRuntime) -> Result<(), Fail> {
    let bytes = bytes_of(rt.alloc(), &SLOTS)?;
    let insns = decode(rt.alloc(), &bytes)?;
    assert_eq!(rt; insns.len(), 123);
    Ok(())
}

#[test]
fn refused_slots(rt: HostRuntime) -> Result<(), Fail> {
    for (slots, index) in &REFUSED {
        let bytes = bytes_of(rt.alloc(), slots)?;
        let end = decode(rt.alloc(), &bytes).err();
        assert_eq!(rt; end, Some(DecodeEnd::BadInsn { index: *index }));
    }
    Ok(())
}

#[test]
fn part_of_a_slot(rt: HostRuntime) -> Result<(), Fail> {
    let bytes = bytes_of(rt.alloc(), &[0xb700_0000_0200_0000, 0x9500_0000_0000_0000])?;
    assert_eq!(rt; bytes.len(), 16);
    let end = decode(rt.alloc(), &bytes[..15]).err();
    assert_eq!(rt; end, Some(DecodeEnd::BadInsn { index: 1 }));
    Ok(())
}

#[test]
fn one_instruction_and_back(rt: HostRuntime) -> Result<(), Fail> {
    let bytes = bytes_of(rt.alloc(), &[0xb700_0000_0200_0000])?;
    let insns = decode(rt.alloc(), &bytes)?;
    let mov = Insn {
        opcode: 0xb7,
        target: 0,
        source: 0,
        offset: 0,
        imm: 2,
        half: false,
    };
    assert_eq!(rt; insns.as_slice(), [mov].as_slice());
    let again = encode(rt.alloc(), insns.as_slice())?;
    assert_eq!(rt; again.as_slice(), bytes.as_slice());
    Ok(())
}

#[test]
fn rows_of_the_table(rt: HostRuntime) {
    let table = instructions();
    assert!(rt; rows_apart(&table));
    let row = table.rows[0];
    assert!(rt; !rows_apart(&Table { rows: [row, row] }));
}

#[test]
fn operations(rt: HostRuntime) {
    let add = Operation::Alu {
        width: Width::Bits64,
        op: Arithmetic::Add,
        operand: Operand::Imm,
    };
    assert_eq!(rt; Operation::from_opcode(0x07), Some(add));
    assert_eq!(rt; Operation::from_opcode(0x8d), None);
    assert_eq!(rt; Atomic::from_imm(0xe1), Some(Atomic::Exchange));
    assert!(rt; Atomic::Exchange.writes_source());
}
