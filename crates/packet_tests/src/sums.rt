use lists::{Bytes, OutOfMemory};
use std::alloc::Global;
use std::test::Fail;
use xdp_state::{Carried, CarriedList, Sums, Traversal, VisitList};
use xio::Action;

/// The sums of two phases of two processors, each phase with one packet on each of them.
fn two_phases(alloc: Global) -> Result<Sums, OutOfMemory> {
    let mut sums = Sums::new(alloc, 2)?;
    for handed in [14, 60] {
        let carried = [
            one(alloc, handed, Action::Pass)?,
            one(alloc, 100, Action::Drop)?,
        ];
        sums.add(alloc, &carried)?;
    }
    Ok(sums)
}

fn one(alloc: Global, handed: u32, verdict: Action) -> Result<CarriedList, OutOfMemory> {
    let mut packets = CarriedList::new(alloc);
    let traversal = Traversal {
        visits: VisitList::with_capacity(alloc, 0)?,
        verdict,
        target: 0,
        frame: Bytes::new(alloc),
    };
    packets.push(Carried {
        count: 0,
        handed,
        traversal,
    })?;
    Ok(packets)
}

#[test]
fn adds_up_by_processor_and_over_the_phases_before(rt: HostRuntime) -> Result<(), Fail> {
    let sums = two_phases(rt.alloc())?;
    let mut bytes = [[0; 5]; 3];
    for processor in 0..2 {
        if processor < sums.processors() {
            bytes[processor] = sums.of(processor).bytes;
        }
    }
    bytes[2] = sums.before().bytes;
    assert_eq!(rt; bytes[0], [0, 0, 74, 0, 0]);
    assert_eq!(rt; bytes[1], [0, 200, 0, 0, 0]);
    assert_eq!(rt; bytes[2], [0, 100, 14, 0, 0]);
    assert_eq!(rt; sums.before().packets, [0, 1, 1, 0, 0]);
    Ok(())
}
