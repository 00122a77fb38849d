use super::{Outside, STEADY, run};
use std::test::Fail;

const SCRIPT: &str = "interface eth0 1
packet eth0 0 02000000000102000000000288b5
";

const BAD: &str = "interface eth0 1
xdp-load eth0
";

const OUT: &str = "2 handed 1
end 0
  cpu 0 eth0/0 packets 1 bytes 14 aborted 0 drop 0 pass 1 tx 0 redirect 0
";

const BEGUN: &str = "xdptrace 1\n";

const TRACE: &str = "xdptrace 1
phase 0
0 0 0 pass 0 14 02000000000102000000000288b5
end
";

const FAULT: &str = "xdptool: fault\n";

/// The trace's file is there before.
const KEPT: Outside<'static> = Outside {
    trace: Some("old"),
    ..STEADY
};

/// What fails in the run of a script, and its status, line, out, err and trace. The last of the failing calls of out is the first
/// one behind the run, so the row says how often out was called.
#[derive(Clone, Copy)]
struct Row {
    script: &'static str,
    outside: Outside<'static>,
    status: u8,
    line: u32,
    out: &'static str,
    err: &'static str,
    trace: &'static str,
}

/// A run that meets a fault before its first line. Out is flushed once.
const EARLY: Row = Row {
    script: SCRIPT,
    outside: KEPT,
    status: 3,
    line: 0,
    out: "",
    err: FAULT,
    trace: "old",
};

/// The calls of the files are: open the script, read it, find its end, make the trace, write its first line, write the phase's trace,
/// flush. Those of out: write the phase, flush.
const ROWS: [Row; 9] = [
    // the script can't be opened, or not be read to its end; and then out's flush fails
    Row {
        outside: Outside {
            files: &[1],
            out: &[2],
            ..KEPT
        },
        ..EARLY
    },
    Row {
        outside: Outside {
            bad_place: Some(5),
            out: &[2],
            ..KEPT
        },
        ..EARLY
    },
    Row {
        outside: Outside {
            bad_place: Some(5),
            out: &[1, 2],
            ..KEPT
        },
        ..EARLY
    },
    // a line is bad, and out's flush fails
    Row {
        script: BAD,
        outside: Outside {
            out: &[1, 2],
            ..KEPT
        },
        status: 2,
        line: 2,
        err: "xdptool: line 2: rule S2\n",
        ..EARLY
    },
    // the trace can't be made
    Row {
        outside: Outside {
            files: &[4],
            out: &[2],
            ..KEPT
        },
        ..EARLY
    },
    // out can't be written, or not be flushed at the end
    Row {
        outside: Outside {
            out: &[1, 3],
            ..KEPT
        },
        trace: BEGUN,
        ..EARLY
    },
    Row {
        outside: Outside {
            out: &[2, 3],
            ..KEPT
        },
        out: OUT,
        trace: TRACE,
        ..EARLY
    },
    // the trace has no room for the phase, or can't be flushed
    Row {
        outside: Outside {
            room: 11,
            out: &[3],
            ..KEPT
        },
        out: OUT,
        trace: BEGUN,
        ..EARLY
    },
    Row {
        outside: Outside {
            files: &[7],
            out: &[3],
            ..KEPT
        },
        out: OUT,
        trace: TRACE,
        ..EARLY
    },
];

#[test]
fn meets_faults(rt: HostRuntime) -> Result<(), Fail> {
    for row in ROWS {
        let mut run = run(rt.alloc(), &["--trace", "t", "s"], row.script, row.outside)?;
        assert!(rt; run.ended_so(row.status, row.line) && run.said(row.out, row.err));
        assert!(rt; run.traced(Some(row.trace)) && run.next_fails());
    }
    Ok(())
}
