//! The answers to commands, and a filter's whole life.
ghost use Rattle.std.specs.Prelude.{◌≡◌, IfOk};
ghost use Rattle.xdp_state.specs.Answer.{rule_fits};
ghost use Rattle.xdp_state.specs.Library.{IsSound};

use filter_rules::{Policy, ROWS, RuleKey, RuleKind, features};
use lists::{Bytes, OutOfMemory};
use std::alloc::Global;
use std::test::Fail;
use xdp_state::{
    Change, Command, DumpList, Interface, InterfaceList, Judgement, Kind, Library, Mode, Reason,
    State, judge,
};

/// A command in a table, with the letter of its interface.
#[derive(Clone, Copy)]
enum Asked {
    Load(u8, u8),
    Unload(u8, bool),
    Set(RuleKey, u8),
    Clear(RuleKey, u8),
    Status,
    Dump(u8, u32),
    DumpOff(u8),
}

const PORT: RuleKey = RuleKey {
    kind: RuleKind::Port,
    value: 53,
};

const ETHER: RuleKey = RuleKey {
    kind: RuleKind::Ether,
    value: 0x0200_0000_0001,
};

const ADDRESS: RuleKey = RuleKey {
    kind: RuleKind::Ip4,
    value: 0x0A00_0001,
};

fn name(alloc: Global, letter: u8) -> Result<Bytes, OutOfMemory> {
    let mut name = Bytes::new(alloc);
    name.push(letter)?;
    Ok(name)
}

/// The interfaces a and b, and no object.
fn library(alloc: Global) -> Result<Library, OutOfMemory>
    ensures { IfOk result IsSound }
{
    let mut list = InterfaceList::new(alloc);
    for letter in [b'a', b'b'] {
        let name = name(alloc, letter)?;
        list.push(Interface { name, queues: 1 })?;
    }
    Ok(Library::new(alloc, list, DumpList::new(alloc)))
}

/// The answer, or none where a rule's flags aren't of its kind.
pub(crate) fn judged(state: &State, library: &Library, command: &Command) -> Option<Judgement>
    requires { IsSound library.now }
{
    if !rule_fits(command) || library.interfaces.len() > 8 {
        return None;
    }
    Some(judge(state, library, command))
}

fn command(alloc: Global, asked: Asked) -> Result<Command, OutOfMemory> {
    match asked {
        Asked::Load(letter, features) => Ok(Command::FilterLoad {
            interface: name(alloc, letter)?,
            mode: Mode::Skb,
            policy: Policy::Allow,
            features,
        }),
        Asked::Unload(letter, keep) => Ok(Command::FilterUnload {
            interface: name(alloc, letter)?,
            keep,
        }),
        Asked::Set(key, flags) => Ok(rule(key, flags, false)),
        Asked::Clear(key, flags) => Ok(rule(key, flags, true)),
        Asked::Status => Ok(Command::FilterStatus),
        Asked::Dump(letter, setting) => Ok(Command::DumpStart {
            interface: name(alloc, letter)?,
            setting,
        }),
        Asked::DumpOff(letter) => Ok(Command::DumpStop {
            interface: name(alloc, letter)?,
        }),
    }
}

fn rule(key: RuleKey, flags: u8, remove: bool) -> Command {
    Command::FilterRule { key, flags, remove }
}

/// Whether a rule's flags are some flags of its kind.
fn rule_fits(command: &Command) -> bool
    ensures { result ≡ rule_fits command.now }
{
    match command {
        Command::FilterRule { key, flags, .. } => *flags != 0 && *flags <= key.kind.all_flags(),
        _ => true,
    }
}

/// The answer after some changes, or none where a rule's flags aren't of its kind.
fn answer(
    alloc: Global,
    changes: &[Change],
    asked: Asked,
) -> Result<Option<Judgement>, OutOfMemory> {
    let library = library(alloc)?;
    let state = state_after(alloc, changes)?;
    let command = command(alloc, asked)?;
    Ok(judged(&state, &library, &command))
}

fn state_after(alloc: Global, changes: &[Change]) -> Result<State, OutOfMemory> {
    let mut state = State::new(alloc)?;
    for change in changes {
        state.absorb(change);
    }
    Ok(state)
}

fn attach(interface: u32, features: u8) -> Change {
    Change::Attach {
        interface,
        kind: Kind::Filter {
            policy: Policy::Allow,
            features,
        },
        priority: 10,
        rank: 0,
        mask: 4,
        mode: Mode::Skb,
    }
}

fn detach(interface: u32, number: u32, clear_rules: bool) -> Change {
    Change::Detach {
        interface,
        number,
        clear_rules,
    }
}

fn dump(interface: u32, setting: u32) -> Change {
    Change::DumpOn { interface, setting }
}

/// a's filter asks for TCP, b's for UDP and Ethernet, a rule names the port of TCP senders, and b's filter leaves.
fn life() -> [Change; 4] {
    [
        attach(0, features::TCP),
        attach(1, features::UDP | features::ETHERNET),
        Change::SetRule {
            key: PORT,
            flags: 1,
        },
        detach(1, 2, false),
    ]
}

#[test]
fn answers_by_the_dumps_that_are_on(rt: HostRuntime) -> Result<(), Fail> {
    let changes = [dump(1, 7), Change::DumpOff { interface: 1 }];
    let refused = Judgement::Refused;
    let accepted = Judgement::Accepted;
    // after how many of the changes, the command, and its answer
    for (after, asked, want) in [
        (0, Asked::Dump(b'c', 7), refused(Reason::NoInterface)),
        (0, Asked::Dump(b'b', 7), accepted(dump(1, 7))),
        (0, Asked::DumpOff(b'b'), refused(Reason::DumpNotThere)),
        (1, Asked::Dump(b'b', 3), refused(Reason::DumpThere)),
        (1, Asked::Dump(b'a', 3), accepted(dump(0, 3))),
        (1, Asked::DumpOff(b'b'), accepted(changes[1])),
        (1, Asked::DumpOff(b'c'), refused(Reason::NoInterface)),
        (2, Asked::DumpOff(b'b'), refused(Reason::DumpNotThere)),
    ] {
        let given = answer(rt.alloc(), &changes[..after.min(2)], asked)?;
        assert_eq!(rt; given, Some(want));
    }
    Ok(())
}

#[test]
fn answers_by_what_is_attached(rt: HostRuntime) -> Result<(), Fail> {
    let changes = life();
    let refused = Judgement::Refused;
    let accepted = Judgement::Accepted;
    let set = |key, flags| Judgement::Accepted(Change::SetRule { key, flags });
    let clear = |key, flags| Judgement::Accepted(Change::ClearRule { key, flags });
    // after how many of the changes, the command, and its answer
    let rows = [
        (0, Asked::Load(b'c', 31), refused(Reason::NoInterface)),
        (0, Asked::Load(b'b', 3), accepted(attach(1, 3))),
        (0, Asked::Set(PORT, 4), refused(Reason::FilterNotThere)),
        (0, Asked::Clear(PORT, 4), refused(Reason::FilterNotThere)),
        (0, Asked::Status, Judgement::Shown),
        (3, Asked::Load(b'a', 31), refused(Reason::FilterThere)),
        (3, Asked::Unload(b'c', false), refused(Reason::NoInterface)),
        (3, Asked::Unload(b'a', false), accepted(detach(0, 1, false))),
        (3, Asked::Unload(b'b', true), accepted(detach(1, 2, false))),
        (3, Asked::Set(PORT, 3), set(PORT, 3)),
        (3, Asked::Set(ETHER, 1), set(ETHER, 1)),
        (3, Asked::Set(ADDRESS, 2), refused(Reason::FeatureMissing)),
        (3, Asked::Clear(PORT, 2), refused(Reason::NoSuchRule)),
        (3, Asked::Clear(PORT, 3), clear(PORT, 3)),
        (
            4,
            Asked::Unload(b'b', false),
            refused(Reason::FilterNotThere),
        ),
        (4, Asked::Unload(b'a', true), accepted(detach(0, 1, false))),
        (4, Asked::Unload(b'a', false), accepted(detach(0, 1, true))),
        (4, Asked::Set(PORT, 3), refused(Reason::FeatureMissing)),
    ];
    for (after, asked, want) in rows {
        let given = answer(rt.alloc(), &changes[..after.min(4)], asked)?;
        assert_eq!(rt; given, Some(want));
    }
    Ok(())
}

/// The answer to a rule on this port, where all rows are taken by the ports from 0 on.
fn answer_when_full(
    alloc: Global,
    value: u128,
    flags: u8,
) -> Result<Option<Judgement>, OutOfMemory> {
    let library = library(alloc)?;
    let mut state = State::new(alloc)?;
    state.absorb(&attach(0, 31));
    for value in 0..u128::from(ROWS) {
        let key = port(value);
        state.absorb(&Change::SetRule { key, flags: 4 });
    }
    let command = rule(port(value), flags, false);
    Ok(judged(&state, &library, &command))
}

fn port(value: u128) -> RuleKey {
    RuleKey {
        kind: RuleKind::Port,
        value,
    }
}

#[test]
fn refuses_a_rule_more(rt: HostRuntime) -> Result<(), Fail> {
    let full = Judgement::Refused(Reason::RulesFull);
    let change = Judgement::Accepted(Change::SetRule {
        key: port(7),
        flags: 8,
    });
    for (value, flags, want) in [(u128::from(ROWS), 4, full), (7, 8, change)] {
        let given = answer_when_full(rt.alloc(), value, flags)?;
        assert_eq!(rt; given, Some(want));
    }
    Ok(())
}

/// Whether the change is taken, and then how many members two interfaces have, and how many rows and publications there are.
fn absorbed(state: &mut State, change: Change) -> (bool, u32, u32, u32) {
    let taken = state.takes(&change);
    state.absorb(&change);
    let members = state.chain(0).len() + state.chain(1).len();
    (taken, members, state.rules().len(), state.count())
}

#[test]
fn absorbs_each_change(rt: HostRuntime) -> Result<(), Fail> {
    let set = |key, flags| Change::SetRule { key, flags };
    let clear = |key, flags| Change::ClearRule { key, flags };
    let changes = life();
    let mut state = state_after(rt.alloc(), &changes[..3])?;
    let rows = [
        (attach(1, 31), (false, 2, 1, 3)),
        (attach(8, 31), (false, 2, 1, 3)),
        (detach(8, 1, false), (false, 2, 1, 3)),
        (Change::DetachAll { interface: 8 }, (false, 2, 1, 3)),
        (set(ETHER, 0), (false, 2, 1, 3)),
        (clear(ETHER, 4), (false, 2, 1, 3)),
        (clear(PORT, 15), (true, 2, 0, 4)),
        (clear(PORT, 15), (true, 2, 0, 5)),
        (detach(0, 2, false), (true, 2, 0, 6)),
        (set(ETHER, 2), (true, 2, 1, 7)),
        (detach(1, 2, false), (true, 1, 1, 8)),
        (detach(0, 1, true), (true, 0, 0, 9)),
        (Change::DetachAll { interface: 0 }, (true, 0, 0, 10)),
    ];
    for (change, want) in rows {
        assert_eq!(rt; absorbed(&mut state, change), want);
    }
    Ok(())
}

#[test]
fn absorbs_the_changes_of_dumps(rt: HostRuntime) -> Result<(), Fail> {
    let off = |interface| Change::DumpOff { interface };
    let mut state = State::new(rt.alloc())?;
    // the change, the setting that is then on for b, and the count
    for (change, setting, count) in [
        (dump(1, 7), Some(7), 1),
        (dump(1, 8), Some(7), 1),
        (dump(8, 7), Some(7), 1),
        (dump(0, 9), Some(7), 2),
        (off(8), Some(7), 2),
        (off(1), None, 3),
        (off(1), None, 4),
        (dump(1, 8), Some(8), 5),
    ] {
        state.absorb(&change);
        assert_eq!(rt; (state.dump(1), state.count()), (setting, count));
    }
    Ok(())
}
