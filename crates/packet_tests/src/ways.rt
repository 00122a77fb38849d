ghost use Rattle.std.specs.Prelude.{IfOk};
ghost use Rattle.xdp_state.specs.Library.{IsSound};

use crate::journey::{Journey, Kept, gone, told};
use bpf_machine::Cause;
use filter_rules::{Policy, RuleKey, features};
use lists::{Bytes, OutOfMemory};
use std::alloc::Global;
use std::test::Fail;
use xdp_state::{
    Change, DumpList, DumpSetting, InterfaceList, Kind, Library, Mode, NameList, State,
};
use xio::Action;

/// The names that a dump asks for, at which sides, and the most bytes that it keeps.
type Asked = (&'static [&'static [u8]], bool, bool, u32);

/// A dump that asks for nothing.
const NOTHING: Asked = (&[], false, false, 0);

const FILTER: &[&[u8]] = &[b"a", b"xdp_filter"];

const OTHERS: &[&[u8]] = &[b"xdp_filte"];

/// A frame's length, and how much of it is kept.
type Sizes = Option<(u32, usize)>;

/// The last byte of the target, the frame's type, and what becomes of the frame; in IPv4's header it ends too early.
const VERDICTS: [(u8, [u8; 2], Action, Option<u32>); 3] = [
    (1, [0x88, 0xB5], Action::Drop, Some(2)),
    (3, [0x88, 0xB5], Action::Pass, None),
    (3, [0x08, 0x00], Action::Aborted, None),
];

/// The setting that the library has as 0, the one that is on, and what is kept as a packet enters and as it leaves.
const KEPT: [(Asked, u32, Sizes, Sizes); 7] = [
    ((&[], true, false, 262_144), 0, Some((14, 14)), None),
    ((&[], false, true, 10), 0, None, Some((14, 10))),
    ((FILTER, true, true, 1), 0, Some((14, 1)), Some((14, 1))),
    ((FILTER, true, false, 0), 0, Some((14, 0)), None),
    ((FILTER, false, false, 14), 0, None, None),
    ((OTHERS, true, true, 14), 0, None, None),
    ((&[], true, true, 14), 1, None, None),
];

/// A state with a filter on an interface and one rule.
fn filtering(alloc: Global) -> Result<State, OutOfMemory> {
    let mut state = State::new(alloc)?;
    state.absorb(&Change::Attach {
        interface: 3,
        kind: Kind::Filter {
            policy: Policy::Allow,
            features: features::ETHERNET | features::IPV4,
        },
        priority: 10,
        rank: 0,
        mask: 4,
        mode: Mode::Native,
    });
    state.absorb(&Change::SetRule {
        key: RuleKey::ether(0x0200_0000_0001),
        flags: 2,
    });
    Ok(state)
}

/// A library with a dump's setting alone.
fn dumping(alloc: Global, asked: Asked) -> Result<Library, OutOfMemory>
    ensures { IfOk result IsSound }
{
    let (names, entry, exit, snap) = asked;
    let mut list = NameList::new(alloc);
    for name in names {
        let mut bytes = Bytes::new(alloc);
        bytes.append(name)?;
        list.push(bytes)?;
    }
    let mut dumps = DumpList::new(alloc);
    dumps.push(DumpSetting {
        names: list,
        entry,
        exit,
        snap,
    })?;
    Ok(Library::new(alloc, InterfaceList::new(alloc), dumps))
}

/// What a packet's way through a filter of interface 3 shows.
fn way(
    alloc: Global,
    state: &State,
    library: &Library,
    frame: &[u8; 14],
) -> Result<Option<Journey>, OutOfMemory>
    requires { IsSound library.now }
{
    told(alloc, &gone(alloc, state, library, 3, frame)?)
}

/// A frame from and to addresses that end so, of a type.
fn frame(last: u8, kind: [u8; 2]) -> [u8; 14] {
    [2, 0, 0, 0, 0, last, 2, 0, 0, 0, 0, 2, kind[0], kind[1]]
}

#[test]
fn drops_the_frame_that_a_rule_names(rt: HostRuntime) -> Result<(), Fail> {
    let state = filtering(rt.alloc())?;
    let library = dumping(rt.alloc(), NOTHING)?;
    for (last, kind, action, rule) in VERDICTS {
        let shown = way(rt.alloc(), &state, &library, &frame(last, kind))?.ok_or("no way")?;
        assert_eq!(rt;
            (shown.verdict, shown.seen),
            (action, (1, action, Cause::Exit, 0, rule))
        );
        assert!(rt; shown.entry.is_none() && shown.exit.is_none());
    }
    Ok(())
}

fn sizes(kept: Kept) -> Sizes {
    let (length, kept, _) = kept?;
    Some((length, kept))
}

#[test]
fn keeps_the_frames_that_a_dump_asks_for(rt: HostRuntime) -> Result<(), Fail> {
    let mut state = filtering(rt.alloc())?;
    for (asked, setting, entry, exit) in KEPT {
        let library = dumping(rt.alloc(), asked)?;
        state.absorb(&Change::DumpOff { interface: 3 });
        state.absorb(&Change::DumpOn {
            interface: 3,
            setting,
        });
        let frame = frame(3, [0x88, 0xB5]);
        let shown = way(rt.alloc(), &state, &library, &frame)?.ok_or("no way")?;
        assert_eq!(rt; (sizes(shown.entry), sizes(shown.exit)), (entry, exit));
    }
    Ok(())
}
