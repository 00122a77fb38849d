use super::{LONG, Machine, answer_of, new_machine, packet, put, run_slots, slot, stop};
use bpf_machine::Cause;
use std::alloc::Global;
use std::test::Fail;

/// What r0 holds behind these slots, with `LONG` as the packet.
const ANSWERS: [(&[u64], i64); 14] = [
    // r1 and r10 at the start, and the bits of the others but r7
    (&[0xbf10_0000_0000_0000], 0x3000_0000),
    (&[0xbfa0_0000_0000_0000], 0x2000_0200),
    (
        &[
            0x4f20_0000_0000_0000,
            0x4f30_0000_0000_0000,
            0x4f40_0000_0000_0000,
            0x4f50_0000_0000_0000,
            0x4f60_0000_0000_0000,
            0x4f80_0000_0000_0000,
            0x4f90_0000_0000_0000,
        ],
        0,
    ),
    // the context's fields
    (&[0x6110_0000_0000_0000], 0x1000_0100),
    (&[0x6110_0400_0000_0000], 0x1000_013c),
    (&[0x6110_0800_0000_0000], 0x1000_0100),
    (&[0x6110_0c00_0000_0000], 7),
    (&[0x6110_1000_0000_0000], 9),
    (&[0x6110_1400_0000_0000], 0),
    // the time and the processor
    (&[0x8500_0000_0500_0000], 0x0102_0304_0506_0708),
    (&[0x8500_0000_0800_0000], 3),
    // r1 to r5 are 0 behind a helper, r6 is still 9: their bits in r1, and r6 added
    (
        &[
            0xb701_0000_0100_0000,
            0xb702_0000_0200_0000,
            0xb703_0000_0400_0000,
            0xb704_0000_0800_0000,
            0xb705_0000_1000_0000,
            0xb706_0000_0900_0000,
            0x8500_0000_0800_0000,
            0x4f21_0000_0000_0000,
            0x4f31_0000_0000_0000,
            0x4f41_0000_0000_0000,
            0x4f51_0000_0000_0000,
            0x0f61_0000_0000_0000,
            0xbf10_0000_0000_0000,
        ],
        9,
    ),
    // the first 8 bytes of the constant of map 0, looked up
    (
        &[
            0x620a_fcff_0000_0000,
            0xbfa2_0000_0000_0000,
            0x0702_0000_fcff_ffff,
            0xb701_0000_0000_0070,
            0x8500_0000_0100_0000,
            0x7900_0000_0000_0000,
        ],
        0x0807_0605_0403_0201,
    ),
    // 5 put under the key 1 of map 1, and loaded from that value
    (
        &[
            0x620a_fcff_0100_0000,
            0x7a0a_f0ff_0500_0000,
            0xbfa2_0000_0000_0000,
            0x0702_0000_fcff_ffff,
            0xbfa3_0000_0000_0000,
            0x0703_0000_f0ff_ffff,
            0xb704_0000_0000_0000,
            0xb701_0000_0100_0070,
            0x8500_0000_0200_0000,
            0xb701_0000_1000_0041,
            0x7910_0000_0000_0000,
        ],
        5,
    ),
];

#[test]
fn answers(rt: HostRuntime) -> Result<(), Fail> {
    let mut machine = new_machine(rt.alloc())?;
    for (body, expected) in &ANSWERS {
        put(&mut machine, &LONG);
        let answer = answer_of(rt.alloc(), &mut machine, body)?;
        assert_eq!(rt; answer, Some(*expected));
    }
    Ok(())
}

/// Calls a helper for a map, with the flags, and with the places of key and value as distances from the frame's end. The
/// key stands 4 bytes before that end.
fn call_for_map(
    helper: i32,
    reference: i32,
    key: i32,
    key_place: i32,
    value_place: i32,
    flags: i32,
) -> [u64; 8] {
    [
        slot(0x62, 0x0a, -4, key),
        slot(0xbf, 0xa2, 0, 0),
        slot(0x07, 0x02, 0, key_place),
        slot(0xbf, 0xa3, 0, 0),
        slot(0x07, 0x03, 0, value_place),
        slot(0xb7, 0x04, 0, flags),
        slot(0xb7, 0x01, 0, reference),
        slot(0x85, 0x00, 0, helper),
    ]
}

const LOOKUP: i32 = 1;

const UPDATE: i32 = 2;

const DELETE: i32 = 3;

/// Helper, reference, key, flags and what r0 then is, one after another.
const MAP_ANSWERS: [(i32, i32, i32, i32, i64); 30] = [
    // the shared array and the shared hash
    (LOOKUP, 0x7000_0000, 0, 0, 0x4000_0000),
    (LOOKUP, 0x7000_0000, 1, 0, 0),
    (UPDATE, 0x7000_0000, 0, 0, -1),
    (UPDATE, 0x7000_0000, 1, 3, -1),
    (DELETE, 0x7000_0000, 0, 0, -1),
    (LOOKUP, 0x7000_0003, 0, 0, 0),
    (UPDATE, 0x7000_0003, 0, 0, -1),
    (DELETE, 0x7000_0003, 0, 0, -1),
    // the counters
    (LOOKUP, 0x7000_0001, 0, 0, 0x4100_0000),
    (LOOKUP, 0x7000_0001, 1, 0, 0x4100_0010),
    (LOOKUP, 0x7000_0001, 2, 0, 0),
    (UPDATE, 0x7000_0001, 1, 0, 0),
    (UPDATE, 0x7000_0001, 1, 2, 0),
    (UPDATE, 0x7000_0001, 1, 1, -17),
    (UPDATE, 0x7000_0001, 2, 0, -7),
    (UPDATE, 0x7000_0001, 1, 3, -22),
    (UPDATE, 0x7000_0001, 1, -1, -22),
    (DELETE, 0x7000_0001, 1, 0, -22),
    // the hash
    (LOOKUP, 0x7000_0002, 5, 0, 0),
    (DELETE, 0x7000_0002, 5, 0, -2),
    (UPDATE, 0x7000_0002, 5, 2, -2),
    (UPDATE, 0x7000_0002, 5, 1, 0),
    (LOOKUP, 0x7000_0002, 5, 0, 0x4200_0000),
    (UPDATE, 0x7000_0002, 5, 1, -17),
    (UPDATE, 0x7000_0002, 5, 0, 0),
    (UPDATE, 0x7000_0002, 6, 0, -7),
    (DELETE, 0x7000_0002, 5, 0, 0),
    (LOOKUP, 0x7000_0002, 5, 0, 0),
    (UPDATE, 0x7000_0002, 6, 0, 0),
    (LOOKUP, 0x7000_0002, 6, 0, 0x4200_0000),
];

#[test]
fn maps(rt: HostRuntime) -> Result<(), Fail> {
    let mut machine = new_machine(rt.alloc())?;
    for (helper, reference, key, flags, expected) in &MAP_ANSWERS {
        put(&mut machine, &LONG);
        let body = call_for_map(*helper, *reference, *key, -4, -16, *flags);
        let answer = answer_of(rt.alloc(), &mut machine, &body)?;
        assert_eq!(rt; answer, Some(*expected));
    }
    Ok(())
}

/// Helper, reference, and the places of key and value.
const MAP_FAULTS: [(i32, i32, i32, i32); 9] = [
    // references to no map
    (LOOKUP, 0x6fff_ffff, -4, -16),
    (UPDATE, 0x7000_0005, -4, -16),
    (DELETE, 0, -4, -16),
    // a key across the frame's end, and none at all
    (LOOKUP, 0x7000_0000, -3, -16),
    (UPDATE, 0x7000_0000, -3, -16),
    (DELETE, 0x7000_0000, -3, -16),
    (DELETE, 0x7000_0000, 4096, -16),
    // values of 12 and of 8 bytes
    (UPDATE, 0x7000_0000, -4, -11),
    (UPDATE, 0x7000_0002, -4, -7),
];

#[test]
fn map_faults(rt: HostRuntime) -> Result<(), Fail> {
    let mut machine = new_machine(rt.alloc())?;
    for &(helper, reference, key_place, value_place) in &MAP_FAULTS {
        put(&mut machine, &LONG);
        let body = call_for_map(helper, reference, 0, key_place, value_place, 0);
        let end = run_slots(rt.alloc(), &mut machine, &body)?;
        assert_eq!(rt; end, stop(Cause::Fault, 8));
    }
    Ok(())
}

/// Calls a helper that moves an end of the packet. The opcode puts the delta into r2.
fn call_for_end(opcode: u8, helper: i32, delta: i32) -> [u64; 2] {
    [slot(opcode, 0x02, 0, delta), slot(0x85, 0x00, 0, helper)]
}

const ADJUST_HEAD: i32 = 44;

const ADJUST_TAIL: i32 = 65;

const MOV64: u8 = 0xb7;

/// The high half is 0 then.
const MOV32: u8 = 0xb4;

/// Opcode, helper and delta, and then the answer and the packet's length.
const MOVES: [(u8, i32, i32, i64, usize); 12] = [
    (MOV64, ADJUST_HEAD, -256, 0, 316),
    (MOV32, ADJUST_HEAD, -256, 0, 316),
    (MOV64, ADJUST_HEAD, -257, -22, 60),
    (MOV64, ADJUST_HEAD, 0, 0, 60),
    (MOV64, ADJUST_HEAD, 46, 0, 14),
    (MOV64, ADJUST_HEAD, 47, -22, 60),
    (MOV64, ADJUST_TAIL, -46, 0, 14),
    (MOV32, ADJUST_TAIL, -46, 0, 14),
    (MOV64, ADJUST_TAIL, -47, -22, 60),
    (MOV64, ADJUST_TAIL, 256, 0, 316),
    (MOV64, ADJUST_TAIL, 257, -22, 60),
    (MOV64, ADJUST_TAIL, i32::MIN, -22, 60),
];

#[test]
fn moves_ends(rt: HostRuntime) -> Result<(), Fail> {
    let mut machine = new_machine(rt.alloc())?;
    for &(opcode, helper, delta, answer, length) in &MOVES {
        put(&mut machine, &LONG);
        let body = call_for_end(opcode, helper, delta);
        let found = answer_of(rt.alloc(), &mut machine, &body)?;
        assert_eq!(rt; found, Some(answer));
        assert_eq!(rt; packet(&machine).len(), length);
    }
    Ok(())
}

/// Whether the bytes at 8 up to 20 are as in `LONG`, and all others 0.
fn is_cleared(packet: &[u8]) -> bool {
    for (place, byte) in packet.iter().enumerate() {
        let expected = if 8 <= place && place < 20 { 0xff } else { 0 };
        if *byte != expected {
            return false;
        }
    }
    true
}

#[test]
fn clears_what_comes_to_the_packet(rt: HostRuntime) -> Result<(), Fail> {
    let mut machine = new_machine(rt.alloc())?;
    put(&mut machine, &LONG);
    for (delta, length) in [(-40, 20), (296, 316)] {
        let body = call_for_end(MOV64, ADJUST_TAIL, delta);
        let answer = answer_of(rt.alloc(), &mut machine, &body)?;
        assert_eq!(rt; answer, Some(0));
        assert_eq!(rt; packet(&machine).len(), length);
    }
    // the answer stands in front
    assert!(rt; is_cleared(packet(&machine)));
    Ok(())
}
