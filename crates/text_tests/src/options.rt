use filter_rules::{Policy, RuleKey};
use script_text::{Script, What, read_script};
use std::alloc::Global;
use std::test::Fail;
use xdp_state::{Command, DumpSetting, Mode};

/// The command of a line, where it asks for one.
pub fn command_of(what: &What) -> Option<&Command> {
    match what {
        What::Command(command) => Some(command.get()),
        _ => None,
    }
}

/// The rule of a script of one line: its key, its flags, and whether it is removed.
fn rule_of(alloc: Global, line: &str) -> Option<(RuleKey, u8, bool)> {
    let script = read_script(alloc, line.as_bytes()).ok()?;
    match command_of(&script.lines.as_slice().first()?.what) {
        Some(Command::FilterRule { key, flags, remove }) => Some((*key, *flags, *remove)),
        _ => None,
    }
}

#[test]
fn rules(rt: HostRuntime) -> Result<(), Fail> {
    let port = RuleKey::port(53);
    let ip4 = RuleKey::ip4(0x0A00_0107);
    let ip6 = RuleKey::ip6(0x2001_0DB8_0000_0000_0000_0000_0000_0001);
    let ether = RuleKey::ether(0x0200_0000_00AB);
    let rules = [
        ("port 53", (port, 12, false)),
        ("port 00053 -m src", (port, 3, false)),
        ("port 53 --mode dst,src", (port, 15, false)),
        ("port -p tcp 53", (port, 4, false)),
        ("port 53 --proto udp -m src,dst", (port, 10, false)),
        ("port 53 -r -m dst -p udp,tcp", (port, 12, true)),
        ("port 53 --remove -p tcp -m src", (port, 1, true)),
        ("ip 10.0.1.7", (ip4, 2, false)),
        ("ip 010.000.01.7 -m src --remove", (ip4, 1, true)),
        ("ip 2001:db8::1 --mode src,dst", (ip6, 3, false)),
        ("ip 2001:0DB8:0:0:0:0:0:1 -r", (ip6, 2, true)),
        ("ether 02:00:00:00:00:aB", (ether, 2, false)),
        ("ether -m src 02:00:00:00:00:AB -r", (ether, 1, true)),
        (
            "ether --mode src,dst 02:00:00:00:00:ab --remove",
            (ether, 3, true),
        ),
    ];
    for (line, rule) in rules {
        let line = format!(in rt.alloc(); "xdp-filter {line}")?;
        assert_eq!(rt; rule_of(rt.alloc(), &line), Some(rule), "{line}");
    }
    Ok(())
}

#[test]
fn addresses(rt: HostRuntime) -> Result<(), Fail> {
    let addresses = [
        ("::", 0),
        ("::1", 1),
        ("1::", 1 << 112),
        ("::1:2:3:4:5:6:7", 0x0001_0002_0003_0004_0005_0006_0007),
        ("1:2:3:4:5:6:7::", 0x0001_0002_0003_0004_0005_0006_0007_0000),
        ("1:2:3:4:5:6:7:8", 0x0001_0002_0003_0004_0005_0006_0007_0008),
        ("1:2:3::5:6:7:8", 0x0001_0002_0003_0000_0005_0006_0007_0008),
        ("ffff::FFFF", (0xFFFF << 112) + 0xFFFF),
    ];
    for (address, number) in addresses {
        let line = format!(in rt.alloc(); "xdp-filter ip {address}")?;
        let rule = (RuleKey::ip6(number), 2, false);
        assert_eq!(rt; rule_of(rt.alloc(), &line), Some(rule), "{line}");
    }
    Ok(())
}

/// What a script of one line loads on eth0: mode, policy and features.
fn load_of(alloc: Global, line: &str) -> Option<(Mode, Policy, u8)> {
    let script = read_script(alloc, line.as_bytes()).ok()?;
    match command_of(&script.lines.as_slice().first()?.what) {
        Some(
            Command::FilterLoad {
                interface,
                mode,
                policy,
                features,
            },
        ) if interface.as_slice() == b"eth0".as_slice() => Some((*mode, *policy, *features)),
        _ => None,
    }
}

#[test]
fn loads(rt: HostRuntime) -> Result<(), Fail> {
    let loads = [
        ("", (Mode::Native, Policy::Allow, 31)),
        ("-m skb", (Mode::Skb, Policy::Allow, 31)),
        ("--mode native -p deny", (Mode::Native, Policy::Deny, 31)),
        ("-m unspecified", (Mode::Native, Policy::Allow, 31)),
        ("--policy allow -f tcp", (Mode::Native, Policy::Allow, 1)),
        ("--features ethernet,udp", (Mode::Native, Policy::Allow, 18)),
        ("-f ipv6,ipv4 -p deny -m skb", (Mode::Skb, Policy::Deny, 12)),
        ("-f all", (Mode::Native, Policy::Allow, 31)),
    ];
    for (options, load) in loads {
        let line = format!(in rt.alloc(); "xdp-filter load {options} eth0")?;
        assert_eq!(rt; load_of(rt.alloc(), &line), Some(load), "{line}");
    }
    Ok(())
}

/// How many names a dump on eth0 asks for, at which sides, and the most bytes that it keeps.
fn dump_of(alloc: Global, line: &str) -> Option<(u32, bool, bool, u32)> {
    let script = read_script(alloc, line.as_bytes()).ok()?;
    let [dump] = script.dumps.as_slice() else {
        return None;
    };
    let DumpSetting {
        names,
        entry,
        exit,
        snap,
    } = dump;
    match command_of(&script.lines.as_slice().first()?.what) {
        Some(
            Command::DumpStart {
                interface,
                setting: 0,
            },
        ) if interface.as_slice() == b"eth0".as_slice() => Some((
            names.len(),
            *entry,
            *exit,
            *snap,
        )),
        _ => None,
    }
}

#[test]
fn dumps(rt: HostRuntime) -> Result<(), Fail> {
    let dumps = [
        ("", (0, true, false, 262_144)),
        ("-s 0 -p all", (0, true, false, 262_144)),
        (
            "--rx-capture exit --snapshot-length 96",
            (0, false, true, 96),
        ),
        ("-p a,all --rx-capture entry,exit", (2, true, true, 262_144)),
        (
            "--program-names a,b,c,d,e,f,g,h,i,j --rx-capture exit,entry -s 262144",
            (10, true, true, 262_144),
        ),
    ];
    for (options, dump) in dumps {
        let line = format!(in rt.alloc(); "xdpdump start {options} eth0")?;
        assert_eq!(rt; dump_of(rt.alloc(), &line), Some(dump), "{line}");
    }
    Ok(())
}

fn is_stop(what: &What) -> bool {
    match command_of(what) {
        Some(Command::DumpStop { interface }) => interface.as_slice() == b"eth1".as_slice(),
        _ => false,
    }
}

/// Whether the dump of this setting asks for the program alone.
fn asks_alone(script: &Script, number: u32, name: &str) -> bool {
    match script.dumps.as_slice().get(number as usize) {
        Some(dump) => matches!(
            dump.names.as_slice(),
            [only] if only.as_slice() == name.as_bytes()
        ),
        None => false,
    }
}

/// Whether the start of a dump on eth0 has the setting of this number, which asks for the program.
fn is_start(script: &Script, what: &What, number: u32, name: &str) -> bool {
    match command_of(what) {
        Some(Command::DumpStart { interface, setting }) => {
            interface.as_slice() == b"eth0".as_slice()
                && *setting == number
                && asks_alone(script, number, name)
        }
        _ => false,
    }
}

const DUMPS: &str = "interface eth0 2
interface eth1 3
xdpdump start eth0 -p a
xdpdump start eth0 -p a
xdpdump stop eth1
";

fn are_dumps(script: &Script) -> bool {
    let [start, again, stop] = script.lines.as_slice() else {
        return false;
    };
    script.dumps.len() == 2
        && is_start(script, &start.what, 0, "a")
        && is_start(script, &again.what, 1, "a")
        && is_stop(&stop.what)
        && stop.line == 5
}

#[test]
fn dump_lines(rt: HostRuntime) -> Result<(), Fail> {
    let script = read_script(rt.alloc(), DUMPS.as_bytes()).ok().ok_or("bad")?;
    assert!(rt; are_dumps(&script));
    Ok(())
}

fn is_unload(what: &What, keeps: bool) -> bool {
    match command_of(what) {
        Some(Command::FilterUnload { interface, keep }) => {
            interface.as_slice() == b"eth0".as_slice() && *keep == keeps
        }
        _ => false,
    }
}

fn is_packet(what: &What, of: u32) -> bool {
    let bytes = [2, 0, 0, 0, 0, 1, 2, 0, 0, 0, 0, 2, 0x88, 0xB5];
    match what {
        What::Packet { processor, frame } => *processor == of
            && frame.as_slice() == bytes.as_slice(),
        _ => false,
    }
}

const LINES: &str = "interface eth0 2
interface eth1 3
# hand-ins
packet eth0 1 02000000000102000000000288b5
packet eth1 2 02000000000102000000000288B5
xdp-filter unload eth0
xdp-filter unload eth0 -k
xdp-filter unload --keep-maps eth0
barrier
xdp-filter status
";

fn are_lines(script: &Script) -> bool {
    let [first, second, plain, short, long, barrier, status] = script.lines.as_slice() else {
        return false;
    };
    first.line == 4
        && is_packet(&first.what, 1)
        && is_packet(&second.what, 4)
        && is_unload(&plain.what, false)
        && is_unload(&short.what, true)
        && is_unload(&long.what, true)
        && matches!(barrier.what, What::Barrier)
        && matches!(command_of(&status.what), Some(Command::FilterStatus))
        && status.line == 10
}

#[test]
fn lines(rt: HostRuntime) -> Result<(), Fail> {
    let script = read_script(rt.alloc(), LINES.as_bytes()).ok().ok_or("bad")?;
    assert!(rt; are_lines(&script));
    let [eth0, eth1] = script.interfaces.as_slice() else {
        return Err("not two interfaces")?;
    };
    assert!(rt; eth0.name.as_slice() == b"eth0".as_slice() && eth0.queues == 2);
    assert!(rt; eth1.name.as_slice() == b"eth1".as_slice() && eth1.queues == 3);
    Ok(())
}
