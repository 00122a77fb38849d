use super::replay;
use std::test::Fail;

/// Two packets of one processor, and a filter that drops everything between them.
const BETWEEN: &str = "interface eth0 1
packet eth0 0 02000000000102000000000288b5
xdp-filter load eth0 -p deny
packet eth0 0 02000000000102000000000288b5
";

/// The lines behind the heading of a trace of that script, with the status, the line and out of its replay.
const ORDERS: [(&str, u8, u32, &str); 4] = [
    (
        "0 0 0 pass 0 14 02000000000102000000000288b5\n0 1 1 drop 0 14 02000000000102000000000288b5\n",
        0,
        0,
        "2 handed 1
3 ok 1
4 handed 1
end 1
  cpu 0 eth0/0 packets 2 bytes 28 aborted 0 drop 1 pass 1 tx 0 redirect 0
",
    ),
    (
        "0 0 1 drop 0 14 02000000000102000000000288b5\n0 1 1 drop 0 14 02000000000102000000000288b5\n",
        0,
        0,
        "2 handed 1
3 ok 1
4 handed 1
end 1
  cpu 0 eth0/0 packets 2 bytes 28 aborted 0 drop 2 pass 0 tx 0 redirect 0
",
    ),
    (
        "0 0 1 drop 0 14 02000000000102000000000288b5\n0 1 0 pass 0 14 02000000000102000000000288b5\n",
        6,
        4,
        "",
    ),
    (
        "0 0 0 drop 0 14 02000000000102000000000288b5\n0 1 1 drop 0 14 02000000000102000000000288b5\n",
        6,
        3,
        "",
    ),
];

/// What is said of a line that differs.
fn differs(line: u32) -> &'static str {
    match line {
        1 => "xdptool: trace line 1 differs\n",
        2 => "xdptool: trace line 2 differs\n",
        3 => "xdptool: trace line 3 differs\n",
        4 => "xdptool: trace line 4 differs\n",
        5 => "xdptool: trace line 5 differs\n",
        6 => "xdptool: trace line 6 differs\n",
        _ => "",
    }
}

#[test]
fn replays_each_order(rt: HostRuntime) -> Result<(), Fail> {
    for (rows, status, line, out) in ORDERS {
        let trace = format!(in rt.alloc(); "xdptrace 1\nphase 0\n{rows}end\n")?;
        let run = replay(rt.alloc(), BETWEEN, trace.as_str())?;
        assert!(rt;
            run.ended_so(status, line) && run.said(out, differs(line)),
            "{rows}"
        );
    }
    Ok(())
}

/// Two phases of two processors.
const PHASES: &str = "interface eth0 2
packet eth0 0 02000000000102000000000288b5
barrier
xdp-filter load eth0 -p deny
packet eth0 1 02000000000102000000000288b5
";

const FIRST_OUT: &str = "2 handed 1
3 barrier 0
  cpu 0 eth0/0 packets 1 bytes 14 aborted 0 drop 0 pass 1 tx 0 redirect 0
  cpu 1 eth0/1 packets 0 bytes 0 aborted 0 drop 0 pass 0 tx 0 redirect 0
";

/// What stands behind the heading of the first phase of a trace, the first line that differs, and the out of the replay.
const LINES: [(&str, u32, &str); 13] = [
    (
        "0 0 1 drop 0 14 02000000000102000000000288b5\nphase 1\n1 0 1 drop 0 14 02000000000102000000000288b5\nend\n",
        3,
        "",
    ),
    (
        "0 0 0 pass 1 14 02000000000102000000000288b5\nphase 1\n1 0 1 drop 0 14 02000000000102000000000288b5\nend\n",
        3,
        "",
    ),
    (
        "phase 1\n1 0 1 drop 0 14 02000000000102000000000288b5\nend\n",
        3,
        "",
    ),
    (
        "0 0 0 pass 0 14 02000000000102000000000288b5\n0 1 0 pass 0 14 02000000000102000000000288b5\nphase 1\nend\n",
        4,
        FIRST_OUT,
    ),
    (
        "0 0 0 pass 0 14 02000000000102000000000288b5\nend\n",
        4,
        FIRST_OUT,
    ),
    (
        "0 0 0 pass 0 14 02000000000102000000000288b5\nphase 1\nend\n",
        5,
        FIRST_OUT,
    ),
    (
        "0 0 0 pass 0 14 02000000000102000000000288b5\nphase 1\n1 0 0 pass 0 14 02000000000102000000000288b5\nend\n",
        5,
        FIRST_OUT,
    ),
    (
        "0 0 0 pass 0 14 02000000000102000000000288b5\nphase 1\n1 0 1 drop 0 15 02000000000102000000000288b5\nend\n",
        5,
        FIRST_OUT,
    ),
    (
        "0 0 0 pass 0 14 02000000000102000000000288b5\nphase 1\n1 0 1 drop 0 14 02000000000102000000000288b6\nend\n",
        5,
        FIRST_OUT,
    ),
    (
        "0 0 0 pass 0 14 02000000000102000000000288b5\nphase 1\n1 0 1 drop 0 14 02000000000102000000000288b5\n2 0 1 drop 0 14 00\nend\n",
        6,
        FIRST_OUT,
    ),
    (
        "0 0 0 pass 0 14 02000000000102000000000288b5\nphase 1\n1 0 1 drop 0 14 02000000000102000000000288b5\nphase 2\nend\n",
        6,
        FIRST_OUT,
    ),
    (
        "0 0 0 pass 0 14 02000000000102000000000288b5\nphase 1\n1 0 1 drop 0 14 02000000000102000000000288b5\n",
        6,
        "",
    ),
    ("0 0 0 PASS 0 14 02000000000102000000000288b5\nend\n", 3, ""),
];

#[test]
fn names_the_first_line(rt: HostRuntime) -> Result<(), Fail> {
    for (rows, line, out) in LINES {
        let trace = format!(in rt.alloc(); "xdptrace 1\nphase 0\n{rows}")?;
        let run = replay(rt.alloc(), PHASES, trace.as_str())?;
        assert!(rt;
            run.ended_so(6, line) && run.said(out, differs(line)),
            "{rows}"
        );
    }
    Ok(())
}

#[test]
fn empty_trace(rt: HostRuntime) -> Result<(), Fail> {
    let run = replay(rt.alloc(), BETWEEN, "")?;
    assert!(rt; run.ended_so(6, 1) && run.said("", differs(1)));
    Ok(())
}
