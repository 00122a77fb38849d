use super::{STEADY, run};
use std::test::Fail;

/// A script, and the status, line, out, err and trace of its run.
#[derive(Clone, Copy)]
struct Row {
    script: &'static str,
    status: u8,
    line: u32,
    out: &'static str,
    err: &'static str,
    trace: Option<&'static str>,
}

/// Ten members, an eleventh, and one more where another has left.
const FULL: Row = Row {
    script: "interface eth0 1
xdp-loader load eth0 a.o
xdp-loader load eth0 a.o
xdp-loader load eth0 a.o
xdp-loader load eth0 a.o
xdp-loader load eth0 a.o
xdp-loader load eth0 a.o
xdp-loader load eth0 a.o
xdp-loader load eth0 a.o
xdp-loader load eth0 a.o
xdp-loader load eth0 a.o
xdp-loader load eth0 a.o
xdp-loader unload eth0 -i 10
xdp-loader load eth0 a.o
",
    status: 1,
    line: 0,
    out: "2 ok 1
3 ok 2
4 ok 3
5 ok 4
6 ok 5
7 ok 6
8 ok 7
9 ok 8
10 ok 9
11 ok 10
12 refused chain full
13 ok 11
14 ok 12
end 12
  cpu 0 eth0/0 packets 0 bytes 0 aborted 0 drop 0 pass 0 tx 0 redirect 0
",
    err: "",
    trace: Some(
        "xdptrace 1
phase 0
end
",
    ),
};

/// Members of equal priority stand by name, and then by number.
const ORDER: Row = Row {
    script: "interface eth0 1
xdp-loader load eth0 b.o
xdp-loader load eth0 a.o
xdp-loader load eth0 a.o
xdp-loader status eth0
xdp-loader status
xdp-loader status eth1
",
    status: 1,
    line: 0,
    out: "2 ok 1
3 ok 2
4 ok 3
5 ok
  eth0 native
  50 a #2 XDP_PASS
  50 a #3 XDP_PASS
  50 b #1 XDP_PASS
6 ok
  eth0 native
  50 a #2 XDP_PASS
  50 a #3 XDP_PASS
  50 b #1 XDP_PASS
7 refused no such interface
end 3
  cpu 0 eth0/0 packets 0 bytes 0 aborted 0 drop 0 pass 0 tx 0 redirect 0
",
    err: "",
    trace: Some(
        "xdptrace 1
phase 0
end
",
    ),
};

/// A chain goes on after an action of its member's mask.
const MASK: Row = Row {
    script: "interface eth0 1
xdp-loader load eth0 drop.o -A XDP_DROP
packet eth0 0 02000000000102000000000288b5
xdp-loader unload eth0 -a
xdp-loader load eth0 drop.o -m skb
packet eth0 0 02000000000102000000000288b5
",
    status: 0,
    line: 0,
    out: "2 ok 1
3 handed 1
4 ok 2
5 ok 3
6 handed 1
end 3
  cpu 0 eth0/0 packets 2 bytes 28 aborted 0 drop 1 pass 1 tx 0 redirect 0
",
    err: "",
    trace: Some(
        "xdptrace 1
phase 0
0 0 1 pass 0 14 02000000000102000000000288b5
0 1 3 drop 0 14 02000000000102000000000288b5
end
",
    ),
};

/// A fault aborts the packet, whose frame stays as it is then.
const FAULTS: Row = Row {
    script: "interface eth0 1
xdp-loader load eth0 f.o
packet eth0 0 02000000000102000000000288b5
xdp-loader unload eth0 -i 1
xdp-loader load eth0 f.o -A XDP_ABORTED
packet eth0 0 02000000000102000000000288b5
",
    status: 0,
    line: 0,
    out: "2 ok 1
3 handed 1
4 ok 2
5 ok 3
6 handed 1
end 3
  cpu 0 eth0/0 packets 2 bytes 28 aborted 1 drop 0 pass 1 tx 0 redirect 0
",
    err: "",
    trace: Some(
        "xdptrace 1
phase 0
0 0 1 aborted 0 14 ff000000000102000000000288b5
0 1 3 pass 0 14 ff000000000102000000000288b5
end
",
    ),
};

/// The loader's refusals.
const REFUSED: Row = Row {
    script: "interface eth0 1
xdp-loader load eth0 e.o
xdp-loader load eth0 a.o
xdp-filter load eth0 -m skb
xdp-loader unload eth0 -i 2
xdp-loader unload eth0 -a
xdp-loader unload eth0 -a
xdp-loader load eth0 a.o -n b
",
    status: 1,
    line: 0,
    out: "2 refused bad object: elf 0 E1
3 ok 1
4 refused mode differs
5 refused no such id
6 ok 2
7 refused nothing loaded
8 refused no such program
end 2
  cpu 0 eth0/0 packets 0 bytes 0 aborted 0 drop 0 pass 0 tx 0 redirect 0
",
    err: "",
    trace: Some(
        "xdptrace 1
phase 0
end
",
    ),
};

/// Programs stand before and behind a filter.
const FILTERED: Row = Row {
    script: "interface eth0 1
xdp-filter load eth0
xdp-loader load eth0 drop.o -P 5
xdp-loader load eth0 a.o -P 10
xdp-loader status
xdp-filter unload eth0
xdp-loader status
",
    status: 0,
    line: 0,
    out: "2 ok 1
3 ok 2
4 ok 3
5 ok
  eth0 native
  5 drop #2 XDP_PASS
  10 a #3 XDP_PASS
  10 xdp_filter #1 XDP_PASS
6 ok 4
7 ok
  eth0 native
  5 drop #2 XDP_PASS
  10 a #3 XDP_PASS
end 4
  cpu 0 eth0/0 packets 0 bytes 0 aborted 0 drop 0 pass 0 tx 0 redirect 0
",
    err: "",
    trace: Some(
        "xdptrace 1
phase 0
end
",
    ),
};

/// An object that isn't there.
const MISSING: Row = Row {
    script: "interface eth0 1
xdp-loader load eth0 g.o
",
    status: 3,
    line: 0,
    out: "",
    err: "xdptool: fault
",
    trace: None,
};

/// The trace's file as an object.
const TRACED: Row = Row {
    script: "interface eth0 1
xdp-loader load eth0 a.o
xdp-loader load eth0 t
xdp-loader load eth0 g.o
",
    status: 2,
    line: 3,
    out: "",
    err: "xdptool: line 3: rule S14
",
    trace: None,
};

/// Seventeen objects, none of which is there.
const MANY: Row = Row {
    script: "xdp-loader load eth0 0.o
xdp-loader load eth0 1.o
xdp-loader load eth0 2.o
xdp-loader load eth0 3.o
xdp-loader load eth0 4.o
xdp-loader load eth0 5.o
xdp-loader load eth0 6.o
xdp-loader load eth0 7.o
xdp-loader load eth0 8.o
xdp-loader load eth0 9.o
xdp-loader load eth0 10.o
xdp-loader load eth0 11.o
xdp-loader load eth0 12.o
xdp-loader load eth0 13.o
xdp-loader load eth0 14.o
xdp-loader load eth0 15.o
xdp-loader load eth0 16.o
",
    status: 5,
    line: 0,
    out: "",
    err: "xdptool: limit objects 16
",
    trace: None,
};

#[test]
fn runs_programs(rt: HostRuntime) -> Result<(), Fail> {
    for row in [
        FULL, ORDER, MASK, FAULTS, REFUSED, FILTERED, MISSING, TRACED, MANY,
    ] {
        let run = run(rt.alloc(), &["--trace", "t", "s"], row.script, STEADY)?;
        assert!(rt; run.ended_so(row.status, row.line), "{}", row.script);
        assert!(rt; run.said(row.out, row.err), "{}", row.script);
        assert!(rt; run.traced(row.trace), "{}", row.script);
    }
    Ok(())
}

const LOAD: &str = "interface eth0 1
xdp-loader load eth0 a.o
xdp-loader load eth0 a.o
";

const LOADED: &str = "2 ok 1
3 ok 2
end 2
  cpu 0 eth0/0 packets 0 bytes 0 aborted 0 drop 0 pass 0 tx 0 redirect 0
";

/// Each file is opened, read once and read to its end: the script, the object, and then the trace is made.
#[test]
fn reads_an_object_once(rt: HostRuntime) -> Result<(), Fail> {
    for (call, status, out) in [
        (4, 3, ""),
        (5, 3, ""),
        (6, 3, ""),
        (7, 3, ""),
        (99, 0, LOADED),
    ] {
        let outside = super::Outside {
            files: &[call],
            ..STEADY
        };
        let run = run(rt.alloc(), &["--trace", "t", "s"], LOAD, outside)?;
        assert!(rt;
            run.ended_so(status, 0) && run.out.bytes() == out.as_bytes(),
            "{call}"
        );
        let is_made = run.files.content("t").is_some();
        assert!(rt; is_made == (call == 99), "{call}");
    }
    Ok(())
}
