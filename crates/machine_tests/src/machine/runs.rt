use super::{EXIT, SHORT, new_machine, packet, put, run_slots, stop};
use bpf_machine::{Cause, RunEnd};
use std::test::Fail;
use xio::Action;

/// Codes that end by EXIT, with action, target and how many instructions they used.
const EXITS: [(&[u64], Action, u32, u32); 9] = [
    (&[EXIT], Action::Aborted, 0, 1),
    // 3 instructions, 32,766 rounds of two, and the last
    (
        &[
            0xb700_0000_0200_0000,
            0xb701_0000_fe7f_0000,
            0xb702_0000_0000_0000,
            0x1701_0000_0100_0000,
            0x5501_feff_0000_0000,
            EXIT,
        ],
        Action::Pass,
        0,
        65_536,
    ),
    // a call of the next slot, which is the caller's next one too
    (
        &[0x8510_0000_0000_0000, EXIT, 0x8510_0000_ffff_ffff, EXIT],
        Action::Aborted,
        0,
        3,
    ),
    // r6 is the caller's again, r0 stays
    (
        &[
            0xb706_0000_0100_0000,
            0x8510_0000_0200_0000,
            0x0f60_0000_0000_0000,
            EXIT,
            0xb700_0000_0100_0000,
            0xb706_0000_0900_0000,
            EXIT,
        ],
        Action::Pass,
        0,
        7,
    ),
    // the callee writes the caller's frame
    (
        &[
            0xbfa2_0000_0000_0000,
            0x8510_0000_0200_0000,
            0x71a0_ffff_0000_0000,
            EXIT,
            0x7202_ffff_0200_0000,
            EXIT,
        ],
        Action::Pass,
        0,
        6,
    ),
    // the low half of r0 is the action
    (
        &[0x1800_0000_0200_0000, 0x0000_0000_0100_0000, EXIT],
        Action::Pass,
        0,
        2,
    ),
    // a redirect to the low half of r1, and a run that has none
    (
        &[
            0x1801_0000_0500_0000,
            0x0000_0000_0100_0000,
            0x8500_0000_1700_0000,
            EXIT,
        ],
        Action::Redirect,
        5,
        3,
    ),
    (&[EXIT], Action::Aborted, 0, 1),
    // a redirect to 7, and one to 8 with flags
    (
        &[
            0xb701_0000_0700_0000,
            0x8500_0000_1700_0000,
            0xb701_0000_0800_0000,
            0xb702_0000_0100_0000,
            0x8500_0000_1700_0000,
            EXIT,
        ],
        Action::Aborted,
        7,
        6,
    ),
];

#[test]
fn exits(rt: HostRuntime) -> Result<(), Fail> {
    let mut machine = new_machine(rt.alloc())?;
    for (slots, action, target, used) in &EXITS {
        put(&mut machine, &SHORT);
        let end = run_slots(rt.alloc(), &mut machine, slots)?;
        let expected = RunEnd {
            action: *action,
            cause: Cause::Exit,
            target: *target,
            used: *used,
        };
        assert_eq!(rt; end, expected);
        assert_eq!(rt; packet(&machine), SHORT.as_slice());
    }
    Ok(())
}

/// Codes with no action, with how many instructions they used.
const STOPS: [(&[u64], Cause, u32); 14] = [
    // for ever, and one round more than the budget allows
    (&[0x0500_ffff_0000_0000], Cause::Budget, 65_536),
    (
        &[
            0xb700_0000_0200_0000,
            0xb701_0000_ff7f_0000,
            0xb702_0000_0000_0000,
            0x1701_0000_0100_0000,
            0x5501_feff_0000_0000,
            EXIT,
        ],
        Cause::Budget,
        65_536,
    ),
    // actions that there aren't
    (&[0xb700_0000_0500_0000, EXIT], Cause::BadAction, 2),
    (&[0xb700_0000_ffff_ffff, EXIT], Cause::BadAction, 2),
    // past the end, no slots at all, and in front of the first
    (&[0xb700_0000_0200_0000], Cause::Fault, 1),
    (&[], Cause::Fault, 0),
    (&[0x0500_feff_0000_0000], Cause::Fault, 1),
    // into the second slot of a wide load
    (
        &[
            0x0500_0100_0000_0000,
            0x1800_0000_0200_0000,
            0x0000_0000_0000_0000,
            EXIT,
        ],
        Cause::Fault,
        1,
    ),
    // a function that calls itself, up to the ninth frame
    (&[0x8510_0000_ffff_ffff], Cause::Fault, 8),
    // the callee writes its frame, and the caller can't once it is back
    (
        &[
            0x8510_0000_0200_0000,
            0x7203_ffff_0000_0000,
            EXIT,
            0xbfa3_0000_0000_0000,
            0x7203_ffff_0000_0000,
            EXIT,
        ],
        Cause::Fault,
        5,
    ),
    // no helper has the number 4
    (&[0x8500_0000_0400_0000], Cause::Fault, 1),
    // the packet of a context that isn't one
    (
        &[0x0701_0000_0100_0000, 0x8500_0000_2c00_0000],
        Cause::Fault,
        2,
    ),
    (
        &[0x0701_0000_0800_0000, 0x8500_0000_4100_0000],
        Cause::Fault,
        2,
    ),
    // r1 is 0 behind the first helper
    (
        &[0x8500_0000_0800_0000, 0x8500_0000_2c00_0000],
        Cause::Fault,
        2,
    ),
];

#[test]
fn stops(rt: HostRuntime) -> Result<(), Fail> {
    let mut machine = new_machine(rt.alloc())?;
    for (slots, cause, used) in &STOPS {
        put(&mut machine, &SHORT);
        let end = run_slots(rt.alloc(), &mut machine, slots)?;
        assert_eq!(rt; end, stop(*cause, *used));
        assert_eq!(rt; packet(&machine), SHORT.as_slice());
    }
    Ok(())
}

/// Writes the packet's first byte, and then the byte behind its end.
const PAST_THE_END: [u64; 6] = [
    0x6112_0000_0000_0000,
    0x7202_0000_ff00_0000,
    0x6113_0400_0000_0000,
    0x7203_0000_0100_0000,
    0xb700_0000_0200_0000,
    EXIT,
];

#[test]
fn keeps_what_a_faulting_run_wrote(rt: HostRuntime) -> Result<(), Fail> {
    let mut machine = new_machine(rt.alloc())?;
    put(&mut machine, &SHORT);
    let end = run_slots(rt.alloc(), &mut machine, &PAST_THE_END)?;
    assert_eq!(rt; end, stop(Cause::Fault, 4));
    let left = [0xff, 0, 0, 0, 0, 1, 2, 0, 0, 0, 0, 2, 0x88, 0xb5];
    assert_eq!(rt; packet(&machine), left.as_slice());
    Ok(())
}
