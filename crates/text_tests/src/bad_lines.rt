use script_text::{ScriptEnd, read_script};
use std::alloc::Global;
use std::test::Fail;

const FRAME: &str = "02000000000102000000000288b5";

/// How many lines the script asks, or its first bad line and the rule.
fn reading(alloc: Global, script: &str) -> Result<u32, (u32, u8)> {
    match read_script(alloc, script.as_bytes()) {
        Ok(script) => Ok(script.lines.len()),
        Err(ScriptEnd::BadScript { line, rule }) => Err((line, rule)),
        Err(_) => Err((0, 0)),
    }
}

#[test]
fn good_scripts(rt: HostRuntime) -> Result<(), Fail> {
    let scripts = [
        ("", 0),
        ("interface eth0 1", 0),
        ("interface a.b_c-D12345678 8\n", 0),
        ("interface eth0 0000000000000000001\n", 0),
        (
            "\n# \x01\u{e9} -x\n  \t#\ninterface eth0 1\n\ninterface eth1 7\n",
            0,
        ),
        ("interface eth0 1\r\nxdp-filter load eth0\r\n", 1),
        ("\txdp-filter  load\teth9 \nbarrier\nxdp-filter status", 3),
        ("xdp-filter load -m skb eth0 -p deny\n", 1),
        ("xdpdump start -p -x eth9\nxdpdump stop eth9", 2),
    ];
    for (script, lines) in scripts {
        assert_eq!(rt; reading(rt.alloc(), script), Ok(lines), "{script}");
    }
    Ok(())
}

#[test]
fn each_rule(rt: HostRuntime) -> Result<(), Fail> {
    // What stands behind a declaration of eth0 with one queue, and the rule that the last line breaks.
    let lines = [
        ("barrier\x01 -x", 1),
        ("barrier\r", 1),
        ("xdpdump stop \x7f", 1),
        ("xdp-dump", 2),
        ("xdp-loader poll eth0 a.o", 2),
        ("xdp-loader port 53", 2),
        ("xdp-filter poll 1 2 3", 2),
        ("xdpdump status", 2),
        ("xdp-filter", 3),
        ("xdpdump", 3),
        ("xdpdump start", 3),
        ("xdpdump start eth0 eth1", 3),
        ("xdpdump start eth0 -p a --program-names b", 3),
        ("xdpdump start eth0 -m skb", 3),
        ("xdpdump start eth0 --rx-capture", 3),
        ("xdpdump start eth0 --rx-capture=exit", 3),
        ("xdpdump start eth0 -s x --snapshot-length 1", 3),
        ("xdpdump stop", 3),
        ("xdpdump stop eth0 -s 1", 3),
        ("barrier x", 3),
        ("interface -x 1", 3),
        ("interface eth1", 3),
        ("packet eth0 -1 00", 3),
        ("xdp-filter status eth0", 3),
        ("xdp-filter load", 3),
        ("xdp-filter load eth0 eth1", 3),
        ("xdp-filter load eth0 -k", 3),
        ("xdp-filter load eth0 -m", 3),
        ("xdp-filter load eth0 --mode=skb", 3),
        ("xdp-filter load eth0 -m skb --mode native", 3),
        ("xdp-filter unload eth0 -k --keep-maps", 3),
        ("xdp-filter port x -r -r", 3),
        ("xdp-loader", 3),
        ("xdp-loader load eth0", 3),
        ("xdp-loader load eth0 a.o b.o", 3),
        ("xdp-loader load eth0 a.o -k", 3),
        ("xdp-loader load eth0 a.o -n", 3),
        ("xdp-loader load eth0 a.o -s xdp --section xdp", 3),
        ("xdp-loader load eth0 a.o --prio=5", 3),
        ("xdp-loader unload -a", 3),
        ("xdp-loader unload eth0 a.o -a", 3),
        ("xdp-loader unload eth0 -a --all", 3),
        ("xdp-loader status eth0 eth1", 3),
        ("xdp-loader status -a", 3),
        ("xdp-loader load e/h a.o -P 4294967296", 4),
        ("xdp-loader unload eth0 -a --id -1", 4),
        ("interface e/h 9", 4),
        ("xdpdump start e/h -s 262145 --rx-capture x", 4),
        ("xdpdump start e/h -s -1", 4),
        ("interface eth1 0", 4),
        ("xdp-filter port 65536 -m x", 4),
        ("xdp-filter port 000000000000000000053", 4),
        ("packet e/h 000000000000000000000 x", 4),
        ("interface e/h 1", 5),
        ("interface a123456789012345 1", 5),
        ("xdp-filter load e/h -m x", 5),
        ("xdp-filter unload e/h", 5),
        ("xdp-loader load e/h a.o -m x", 5),
        ("xdp-loader unload e/h", 5),
        ("xdp-loader status e/h", 5),
        ("packet e/h 0 x", 5),
        ("xdpdump start e/h -p a,a --rx-capture x", 5),
        ("xdpdump stop e/h", 5),
        ("barrier\ninterface eth0 8", 6),
        ("interface eth0 8", 7),
        ("interface eth1 8", 8),
        ("packet eth1 0 x", 9),
        ("packet eth0 1 x", 9),
        ("packet eth0 99999999999999999999 x", 9),
        ("packet eth0 0 0200000000010200000000028", 10),
        ("packet eth0 0 02000000000102000000000288", 10),
        ("packet eth0 0 0200000000010200000000028xb5", 10),
        ("xdp-loader load eth0 a.o -m hw", 11),
        ("xdp-loader load eth0 a.o -A XDP_DROP,XDP_DROP", 11),
        ("xdp-loader load eth0 a.o -A pass", 11),
        ("xdp-loader load eth0 a.o --actions XDP_TX,", 11),
        ("xdp-filter load eth0 -m native,skb", 11),
        ("xdp-filter load eth0 -p pass", 11),
        ("xdp-filter load eth0 -f tcp,udp,tcp", 11),
        ("xdp-filter load eth0 -f tcp,,udp", 11),
        ("xdp-filter load eth0 -f all,tcp", 11),
        ("xdp-filter port 1 -m src,src", 11),
        ("xdp-filter port 1 -p -r", 11),
        ("xdp-filter port 1 -p tcp,ipv4", 11),
        ("xdp-filter port 1 -p all", 11),
        ("xdp-filter ip x -m dst,", 11),
        ("xdpdump start eth0 --rx-capture entry,entry", 11),
        ("xdpdump start eth0 --rx-capture out", 11),
        ("xdpdump start eth0 --rx-capture exit,", 11),
        ("xdpdump start eth0 -p a,", 11),
        ("xdpdump start eth0 -p ,a", 11),
        ("xdpdump start eth0 -p all,all", 11),
        ("xdpdump start eth0 -p a,b,a", 11),
        ("xdpdump start eth0 -p a,b,c,d,e,f,g,h,i,j,k", 11),
        ("xdp-filter ether 02:00:00:00:00:1", 12),
        ("xdp-loader unload eth0", 13),
        ("xdp-loader unload eth0 -i 1 -a", 13),
    ];
    for (line, rule) in lines {
        let script = format!(in rt.alloc(); "interface eth0 1\n{line}")?;
        let last = if line.starts_with("barrier\n") { 3 } else { 2 };
        assert_eq!(rt; reading(rt.alloc(), &script), Err((last, rule)), "{line}");
    }
    Ok(())
}

/// A name of 64 bytes.
const HALF: &str = "aaaaaaaaaaaaaaaaaaaaaaaaaaaaaaaaaaaaaaaaaaaaaaaaaaaaaaaaaaaaaaaa";

#[test]
fn long_program_names(rt: HostRuntime) -> Result<(), Fail> {
    let longest = format!(in rt.alloc(); "interface eth0 1\nxdpdump start eth0 -p b,{HALF}{HALF}")?;
    assert_eq!(rt; reading(rt.alloc(), &longest), Ok(1));
    let longer = format!(in rt.alloc(); "interface eth0 1\nxdpdump start eth0 -p b,{HALF}{HALF}a")?;
    assert_eq!(rt; reading(rt.alloc(), &longer), Err((2, 11)));
    Ok(())
}

#[test]
fn bad_addresses(rt: HostRuntime) -> Result<(), Fail> {
    let addresses = [
        "1.2.3",
        "1.2.3.4.5",
        "1.2.3.256",
        "1..2.3",
        "1.2.3.4.",
        "1:2:3:4:5:6:7",
        "1:2:3:4:5:6:7:8:9",
        "1:2:3:4:5:6:7:8::",
        "::1:2:3:4:5:6:7:8",
        "1:2:3:4::5:6:7:8",
        "1::2::3",
        ":::",
        ":1:2:3:4:5:6:7",
        "12345::",
        "::g",
        "::1.2.3.4",
        "fe80::1%eth0",
    ];
    for address in addresses {
        let script = format!(in rt.alloc(); "xdp-filter ip {address}")?;
        assert_eq!(rt; reading(rt.alloc(), &script), Err((1, 12)), "{address}");
    }
    Ok(())
}

#[test]
fn most_interfaces_and_lines(rt: HostRuntime) -> Result<(), Fail> {
    let declared = "interface a 1\ninterface b 1\ninterface c 1\ninterface d 1\n\
        interface e 1\ninterface f 1\ninterface g 1\n";
    let eighth = format!(in rt.alloc(); "{declared}interface h 1\npacket h 0 {FRAME}")?;
    assert_eq!(rt; reading(rt.alloc(), &eighth), Ok(1));
    let queues = format!(in rt.alloc(); "{declared}interface h 2")?;
    assert_eq!(rt; reading(rt.alloc(), &queues), Err((8, 8)));
    let feeds = vec![in rt.alloc(); b'\n'; 65_537]?;
    assert!(rt; read_script(rt.alloc(), &feeds.as_slice()[1..]).is_ok());
    let more = read_script(rt.alloc(), feeds.as_slice()).err();
    assert_eq!(rt; more, Some(ScriptEnd::TooManyLines));
    Ok(())
}
