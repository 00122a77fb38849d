use bpf_machine::Cause;
use btf_types::BadBtf;
use elf_objects::BadElf;
use filter_rules::{Policy, RuleKey};
use object_load::LoadRefusal;
use script_text::{
    Outcome, TraceRow, end_text, outcome_text, processor_line, rules_text, trace_line,
};
use std::alloc::Global;
use std::test::Fail;
use xdp_state::{
    Change, Interface, InterfaceList, KeptFrame, Kind, Mode, Reason, State, Tally, Visit,
};
use xio::{Action, Bytes, OutOfMemory};

fn is_outcome(alloc: Global, outcome: &Outcome, wanted: &str) -> bool {
    match outcome_text(alloc, 7, outcome) {
        Ok(text) => text.as_slice() == wanted.as_bytes(),
        Err(OutOfMemory) => false,
    }
}

fn is_end(alloc: Global, count: u32, wanted: &str) -> bool {
    match end_text(alloc, count) {
        Ok(text) => text.as_slice() == wanted.as_bytes(),
        Err(OutOfMemory) => false,
    }
}

const OUTCOMES: [(Outcome, &str); 5] = [
    (Outcome::Ok(1), "7 ok 1\n"),
    (Outcome::Shown, "7 ok\n"),
    (Outcome::Handed { packets: 3 }, "7 handed 3\n"),
    (Outcome::Barrier(4), "7 barrier 4\n"),
    (
        Outcome::Refused(Reason::BadObject(LoadRefusal::NoProgram)),
        "7 refused bad object: no program\n",
    ),
];

#[test]
fn outcomes(rt: HostRuntime) {
    for (outcome, wanted) in OUTCOMES {
        assert!(rt; is_outcome(rt.alloc(), &outcome, wanted), "{wanted}");
    }
    assert!(rt; is_end(rt.alloc(), 2, "end 2\n"));
}

const REASONS: [(Reason, &str); 13] = [
    (Reason::NoInterface, "no such interface"),
    (Reason::NoSuchProgram, "no such program"),
    (Reason::ModeDiffers, "mode differs"),
    (Reason::ChainFull, "chain full"),
    (Reason::NothingLoaded, "nothing loaded"),
    (Reason::NoSuchId, "no such id"),
    (Reason::FilterThere, "filter there"),
    (Reason::FilterNotThere, "filter not there"),
    (Reason::FeatureMissing, "feature missing"),
    (Reason::RulesFull, "rules full"),
    (Reason::NoSuchRule, "no such rule"),
    (Reason::DumpThere, "dump there"),
    (Reason::DumpNotThere, "dump not there"),
];

const REFUSALS: [(LoadRefusal, &str); 9] = [
    (
        LoadRefusal::BadElf(BadElf {
            offset: 62,
            rule: 12,
        }),
        "elf 62 E12",
    ),
    (LoadRefusal::WritableData, "writable data"),
    (LoadRefusal::NoProgram, "no program"),
    (LoadRefusal::TooManyPrograms, "too many programs"),
    (
        LoadRefusal::BadBtf(BadBtf { offset: 4, rule: 4 }),
        "btf 4 B4",
    ),
    (LoadRefusal::BadConfig { member: 3 }, "config 3"),
    (LoadRefusal::BadMap { index: 2, rule: 5 }, "map 2 M5"),
    (
        LoadRefusal::BadInsn {
            program: 1,
            index: 7,
        },
        "insn 1 7",
    ),
    (
        LoadRefusal::BadReloc {
            program: 0,
            index: 12,
        },
        "reloc 0 12",
    ),
];

#[test]
fn reasons(rt: HostRuntime) -> Result<(), Fail> {
    for (reason, text) in REASONS {
        let wanted = format!(in rt.alloc(); "7 refused {text}\n")?;
        assert!(rt;
            is_outcome(rt.alloc(), &Outcome::Refused(reason), &wanted),
            "{wanted}"
        );
    }
    for (refusal, text) in REFUSALS {
        let wanted = format!(in rt.alloc(); "7 refused bad object: {text}\n")?;
        let outcome = Outcome::Refused(Reason::BadObject(refusal));
        assert!(rt; is_outcome(rt.alloc(), &outcome, &wanted), "{wanted}");
    }
    Ok(())
}

/// The line of the first processor, which dropped a packet and passed another, each of 14 bytes.
fn first_processor(alloc: Global) -> Result<Bytes, OutOfMemory> {
    let mut tally = Tally::new(alloc);
    tally.add(&[], Action::Drop, 14)?;
    tally.add(&[], Action::Pass, 14)?;
    processor_line(alloc, 0, b"eth0", 0, &tally)
}

#[test]
fn processor(rt: HostRuntime) -> Result<(), Fail> {
    let wanted = b"  cpu 0 eth0/0 packets 2 bytes 28 aborted 0 drop 1 pass 1 tx 0 redirect 0\n";
    assert!(rt; first_processor(rt.alloc())?.as_slice() == wanted.as_slice());
    Ok(())
}

/// Whether this is the line of a frame that the first processor carried.
fn is_traced(alloc: Global, place: u32, count: u32, verdict: Action, wanted: &str) -> bool {
    let frame = [2, 0, 0, 0, 0, 1, 2, 0, 0, 0, 0, 2, 0x88, 0xB5];
    let row = TraceRow {
        processor: 0,
        place,
        count,
        verdict,
        target: 0,
        frame: &frame,
    };
    match trace_line(alloc, &row) {
        Ok(line) => line.as_slice() == wanted.as_bytes(),
        Err(OutOfMemory) => false,
    }
}

#[test]
fn trace(rt: HostRuntime) {
    let rows = [
        (
            0,
            2,
            Action::Drop,
            "0 0 2 drop 0 14 02000000000102000000000288b5\n",
        ),
        (
            0,
            0,
            Action::Pass,
            "0 0 0 pass 0 14 02000000000102000000000288b5\n",
        ),
        (
            1,
            1,
            Action::Drop,
            "0 1 1 drop 0 14 02000000000102000000000288b5\n",
        ),
    ];
    for (place, count, verdict, wanted) in rows {
        assert!(rt;
            is_traced(rt.alloc(), place, count, verdict, wanted),
            "{wanted}"
        );
    }
}

const STATUS: &str = "  eth1 deny udp,ipv6
  port 53 src-tcp #2 hits 1
  ip 10.0.1.255 src,dst #3 hits 0
  ip 2001:0db8:0000:0000:0000:0000:0000:00ff dst #4 hits 2
  ether 02:00:00:00:00:ab src #5 hits 0
  port 443 dst-tcp,dst-udp #6 hits 0
  aborted 0 0
  drop 1 54
  pass 2 120
  tx 0 0
  redirect 0 0
";

fn interfaces(alloc: Global) -> Result<InterfaceList, OutOfMemory> {
    let mut interfaces = InterfaceList::new(alloc);
    for word in [b"eth0", b"eth1"] {
        let mut name = Bytes::new(alloc);
        name.append(word)?;
        interfaces.push(Interface { name, queues: 1 })?;
    }
    Ok(interfaces)
}

/// A filter on eth1, and five rules.
fn state(alloc: Global) -> Result<State, OutOfMemory> {
    let mut state = State::new(alloc)?;
    state.absorb(&Change::Attach {
        interface: 1,
        kind: Kind::Filter {
            policy: Policy::Deny,
            features: 10,
        },
        priority: 10,
        rank: 0,
        mask: 4,
        mode: Mode::Native,
    });
    let rules = [
        (RuleKey::port(53), 1),
        (RuleKey::ip4(0x0A00_01FF), 3),
        (RuleKey::ip6(0x2001_0DB8_0000_0000_0000_0000_0000_00FF), 2),
        (RuleKey::ether(0x0200_0000_00AB), 1),
        (RuleKey::port(443), 12),
    ];
    for (key, flags) in rules {
        state.absorb(&Change::SetRule { key, flags });
    }
    Ok(state)
}

/// One packet dropped by a rule and two passed by another.
fn tally(alloc: Global) -> Result<Tally, OutOfMemory> {
    let mut tally = Tally::new(alloc);
    let packets = [
        (2, Action::Drop, 54),
        (4, Action::Pass, 60),
        (4, Action::Pass, 60),
    ];
    for (rule, action, handed) in packets {
        let visit = Visit {
            number: 1,
            kind: Kind::Program(0),
            action,
            cause: Cause::Exit,
            target: 0,
            rule: Some(rule),
            entry: KeptFrame::none(),
            exit: KeptFrame::none(),
        };
        tally.add(&[visit], action, handed)?;
    }
    Ok(tally)
}

fn is_status(alloc: Global, state: &State, interfaces: &InterfaceList, tally: &Tally) -> bool {
    if interfaces.len() > 8 {
        return false;
    }
    match rules_text(alloc, state, interfaces, tally) {
        Ok(text) => text.as_slice() == STATUS.as_bytes(),
        Err(OutOfMemory) => false,
    }
}

#[test]
fn status(rt: HostRuntime) -> Result<(), Fail> {
    let interfaces = interfaces(rt.alloc())?;
    let state = state(rt.alloc())?;
    let tally = tally(rt.alloc())?;
    assert!(rt; is_status(rt.alloc(), &state, &interfaces, &tally));
    Ok(())
}
