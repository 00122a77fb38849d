use super::{EXIT, LONG, Machine, new_machine, packet, put, run_slots, slot};
use bpf_insn::Size;
use bpf_machine::{Cause, RunEnd};
use std::alloc::Global;
use std::test::Fail;
use xio::Action;

/// These numbers in order, the lowest byte of each first.
fn packet_of(numbers: &[u64; 3]) -> [u8; 24] {
    let mut packet = [0; 24];
    for place in 0..24 {
        packet[place] = (numbers[place / 8] >> (8 * (place % 8)) & 0xff) as u8;
    }
    packet
}

/// Puts the packet's three numbers into the stack, r2 and r0.
const TAKE: [u64; 5] = [
    0x6116_0000_0000_0000,
    0x7963_0000_0000_0000,
    0x7b3a_f8ff_0000_0000,
    0x7962_0800_0000_0000,
    0x7960_1000_0000_0000,
];

/// Puts them back, and passes.
const GIVE: [u64; 6] = [
    0x79a3_f8ff_0000_0000,
    0x7b36_0000_0000_0000,
    0x7b26_0800_0000_0000,
    0x7b06_1000_0000_0000,
    0xb700_0000_0200_0000,
    EXIT,
];

/// Runs an atomic operation of r2 on a number in the stack. The packet holds that number, r2 and r0, before and afterwards.
fn run_atomic(alloc: Global, machine: &mut Machine, opcode: u8, imm: i32) -> Result<RunEnd, Fail> {
    let mut slots = Vec::new(alloc);
    slots.extend_from_slice(&TAKE)?;
    slots.push(slot(opcode, 0x2a, -8, imm))?;
    slots.extend_from_slice(&GIVE)?;
    run_slots(alloc, machine, &slots)
}

const MEMORY: u64 = 0x0000_0005_ffff_fffc;

const SOURCE: u64 = 0x0000_0003_0000_0006;

const ATOMIC64: u8 = 0xdb;

const ATOMIC32: u8 = 0xc3;

/// Opcode, immediate and r0, and then the number in memory, the source and r0 afterwards (RFC 9669 §5.3).
const ATOMICS: [(u8, i32, u64, [u64; 3]); 24] = [
    // ADD, OR, AND, XOR
    (ATOMIC64, 0x00, 1, [0x9_0000_0002, SOURCE, 1]),
    (ATOMIC64, 0x40, 1, [0x7_ffff_fffe, SOURCE, 1]),
    (ATOMIC64, 0x50, 1, [0x1_0000_0004, SOURCE, 1]),
    (ATOMIC64, 0xa0, 1, [0x6_ffff_fffa, SOURCE, 1]),
    (ATOMIC32, 0x00, 1, [0x5_0000_0002, SOURCE, 1]),
    (ATOMIC32, 0x40, 1, [0x5_ffff_fffe, SOURCE, 1]),
    (ATOMIC32, 0x50, 1, [0x5_0000_0004, SOURCE, 1]),
    (ATOMIC32, 0xa0, 1, [0x5_ffff_fffa, SOURCE, 1]),
    // with FETCH
    (ATOMIC64, 0x01, 1, [0x9_0000_0002, MEMORY, 1]),
    (ATOMIC64, 0x41, 1, [0x7_ffff_fffe, MEMORY, 1]),
    (ATOMIC64, 0x51, 1, [0x1_0000_0004, MEMORY, 1]),
    (ATOMIC64, 0xa1, 1, [0x6_ffff_fffa, MEMORY, 1]),
    (ATOMIC32, 0x01, 1, [0x5_0000_0002, 0xffff_fffc, 1]),
    (ATOMIC32, 0x41, 1, [0x5_ffff_fffe, 0xffff_fffc, 1]),
    (ATOMIC32, 0x51, 1, [0x5_0000_0004, 0xffff_fffc, 1]),
    (ATOMIC32, 0xa1, 1, [0x5_ffff_fffa, 0xffff_fffc, 1]),
    // XCHG
    (ATOMIC64, 0xe1, 1, [SOURCE, MEMORY, 1]),
    (ATOMIC32, 0xe1, 1, [0x5_0000_0006, 0xffff_fffc, 1]),
    // CMPXCHG, where r0 has the whole number, its low half alone, and neither
    (ATOMIC64, 0xf1, MEMORY, [SOURCE, SOURCE, MEMORY]),
    (ATOMIC64, 0xf1, 0x7_ffff_fffc, [MEMORY, SOURCE, MEMORY]),
    (ATOMIC64, 0xf1, 1, [MEMORY, SOURCE, MEMORY]),
    (ATOMIC32, 0xf1, MEMORY, [0x5_0000_0006, SOURCE, 0xffff_fffc]),
    (
        ATOMIC32,
        0xf1,
        0x7_ffff_fffc,
        [0x5_0000_0006, SOURCE, 0xffff_fffc],
    ),
    (ATOMIC32, 0xf1, 1, [MEMORY, SOURCE, 0xffff_fffc]),
];

#[test]
fn atomic_operations(rt: HostRuntime) -> Result<(), Fail> {
    let mut machine = new_machine(rt.alloc())?;
    for (opcode, imm, r0, after) in &ATOMICS {
        put(&mut machine, &packet_of(&[MEMORY, SOURCE, *r0]));
        let end = run_atomic(rt.alloc(), &mut machine, *opcode, *imm)?;
        assert_eq!(rt; end.action, Action::Pass);
        assert_eq!(rt; packet(&machine), packet_of(after).as_slice());
    }
    Ok(())
}

/// Whether an access through r2, which is the address, can be carried out.
fn can_access(
    alloc: Global,
    machine: &mut Machine,
    address: i32,
    access: u64,
) -> Result<bool, Fail> {
    let slots = [
        slot(0xb7, 0x02, 0, address),
        access,
        0xb700_0000_0200_0000,
        EXIT,
    ];
    put(machine, &LONG);
    let end = run_slots(alloc, machine, &slots)?;
    Ok(end.cause == Cause::Exit)
}

/// Whether a load from an address, and a store there, can be carried out.
fn rights(
    alloc: Global,
    machine: &mut Machine,
    address: i32,
    size: Size,
) -> Result<(bool, bool), Fail> {
    let (load, store) = match size {
        Size::Byte => (0x71, 0x72),
        Size::Half => (0x69, 0x6a),
        Size::Word => (0x61, 0x62),
        Size::Double => (0x79, 0x7a),
    };
    let reads = can_access(alloc, machine, address, slot(load, 0x23, 0, 0))?;
    let writes = can_access(alloc, machine, address, slot(store, 0x02, 0, 0))?;
    Ok((reads, writes))
}

const NONE: (bool, bool) = (false, false);

const READ: (bool, bool) = (true, false);

const BOTH: (bool, bool) = (true, true);

/// Addresses with what may be done there, where the packet is `LONG` and the hash is empty.
const REGIONS: [(i32, Size, (bool, bool)); 55] = [
    // no region
    (0, Size::Byte, NONE),
    (-1, Size::Byte, NONE),
    (-1, Size::Double, NONE),
    (i32::MAX, Size::Byte, NONE),
    // the packet, between margins of 256 bytes
    (0x1000_0000, Size::Byte, NONE),
    (0x1000_00ff, Size::Byte, NONE),
    (0x1000_00fc, Size::Double, NONE),
    (0x1000_0100, Size::Byte, BOTH),
    (0x1000_0134, Size::Double, BOTH),
    (0x1000_0135, Size::Double, NONE),
    (0x1000_0138, Size::Word, BOTH),
    (0x1000_0139, Size::Word, NONE),
    (0x1000_013a, Size::Half, BOTH),
    (0x1000_013b, Size::Half, NONE),
    (0x1000_013b, Size::Byte, BOTH),
    (0x1000_013c, Size::Byte, NONE),
    // frame 0 of the stack, and frame 1, which isn't there
    (0x1fff_ffff, Size::Byte, NONE),
    (0x1fff_fffc, Size::Double, NONE),
    (0x2000_0000, Size::Byte, BOTH),
    (0x2000_01f8, Size::Double, BOTH),
    (0x2000_01f9, Size::Double, NONE),
    (0x2000_01ff, Size::Byte, BOTH),
    (0x2000_0200, Size::Byte, NONE),
    (0x2000_1000, Size::Byte, NONE),
    // the context
    (0x2fff_ffff, Size::Byte, NONE),
    (0x2fff_fffc, Size::Double, NONE),
    (0x3000_0000, Size::Byte, READ),
    (0x3000_0010, Size::Double, READ),
    (0x3000_0011, Size::Double, NONE),
    (0x3000_0017, Size::Byte, READ),
    (0x3000_0018, Size::Byte, NONE),
    // the constant
    (0x3fff_ffff, Size::Byte, NONE),
    (0x4000_0000, Size::Byte, READ),
    (0x4000_0004, Size::Double, READ),
    (0x4000_0005, Size::Double, NONE),
    (0x4000_000b, Size::Byte, READ),
    (0x4000_000c, Size::Byte, NONE),
    (0x4000_0010, Size::Byte, NONE),
    // two counters, 16 bytes apart
    (0x40ff_ffff, Size::Byte, NONE),
    (0x4100_0000, Size::Byte, BOTH),
    (0x4100_000b, Size::Byte, BOTH),
    (0x4100_000c, Size::Byte, NONE),
    (0x4100_000c, Size::Double, NONE),
    (0x4100_0010, Size::Byte, BOTH),
    (0x4100_0014, Size::Double, BOTH),
    (0x4100_001c, Size::Byte, NONE),
    // an empty slot
    (0x4200_0000, Size::Byte, NONE),
    // two counters side by side, and past the last map
    (0x4400_0007, Size::Byte, BOTH),
    (0x4400_0004, Size::Double, NONE),
    (0x4400_0008, Size::Double, BOTH),
    (0x4400_0009, Size::Double, NONE),
    (0x4400_0010, Size::Byte, NONE),
    (0x4500_0000, Size::Byte, NONE),
    // references to maps
    (0x7000_0000, Size::Byte, NONE),
    (0x7000_0001, Size::Double, NONE),
];

#[test]
fn regions(rt: HostRuntime) -> Result<(), Fail> {
    let mut machine = new_machine(rt.alloc())?;
    for (address, size, expected) in &REGIONS {
        let found = rights(rt.alloc(), &mut machine, *address, *size)?;
        assert_eq!(rt; found, *expected);
    }
    Ok(())
}
