use script_text::{TraceEnd, read_trace};
use std::alloc::Global;
use std::test::Fail;
use xdp_state::Choices;
use xio::OutOfMemory;

/// The first line of a trace that can't stand there, and 0 where all lines can.
fn first_bad(alloc: Global, trace: &str) -> Option<u32> {
    match read_trace(alloc, trace.as_bytes()) {
        Ok(_) => Some(0),
        Err(TraceEnd::BadTrace { line }) => Some(line),
        Err(TraceEnd::OutOfMemory) => None,
    }
}

/// Traces, and the first line of each that can't stand there, 0 for none.
const LINES: [(&str, u32); 32] = [
    ("xdptrace 1\nend\n", 0),
    ("xdptrace 1\nphase 0\nend\n", 0),
    (
        "xdptrace 1\nphase 0\n7 0 4294967295 tx 4294967295 0 00ff\nphase 1\n0 0 0 aborted 0 9 00\nend\n",
        0,
    ),
    (
        "xdptrace 1\nphase 0\n0 0 2 drop 1 1 00\n2 0 1 pass 0 1 00\n2 1 0 redirect 0 1 00\nend\n",
        0,
    ),
    ("", 1),
    ("xdptrace 1", 1),
    ("xdptrace 1\r\nend\n", 1),
    ("xdptrace 2\nend\n", 1),
    ("phase 0\nend\n", 1),
    ("xdptrace 1\n", 2),
    ("xdptrace 1\nend", 2),
    ("xdptrace 1\n\nend\n", 2),
    ("xdptrace 1\nphase 1\nend\n", 2),
    ("xdptrace 1\nphase 00\nend\n", 2),
    ("xdptrace 1\n0 0 0 pass 0 1 00\nend\n", 2),
    ("xdptrace 1\nend\nend\n", 3),
    ("xdptrace 1\nend\n\n", 3),
    ("xdptrace 1\nphase 0\nphase 0\nend\n", 3),
    ("xdptrace 1\nphase 0\n0 1 0 pass 0 1 00\nend\n", 3),
    ("xdptrace 1\nphase 0\n8 0 0 pass 0 1 00\nend\n", 3),
    ("xdptrace 1\nphase 0\n0 0 00 pass 0 1 00\nend\n", 3),
    ("xdptrace 1\nphase 0\n0 0 4294967296 pass 0 1 00\nend\n", 3),
    ("xdptrace 1\nphase 0\n0 0 0 Pass 0 1 00\nend\n", 3),
    ("xdptrace 1\nphase 0\n0 0 0 pass 0 1 0\nend\n", 3),
    ("xdptrace 1\nphase 0\n0 0 0 pass 0 1 0A\nend\n", 3),
    ("xdptrace 1\nphase 0\n0 0 0 pass 0 0 \nend\n", 3),
    ("xdptrace 1\nphase 0\n0 0 0 pass 0  1 00\nend\n", 3),
    ("xdptrace 1\nphase 0\n0 0 0 pass 0 00\nend\n", 3),
    ("xdptrace 1\nphase 0\n0 0 0 pass 0 1 00 0\nend\n", 3),
    (
        "xdptrace 1\nphase 0\n0 0 0 pass 0 1 00\n0 0 0 pass 0 1 00\nend\n",
        4,
    ),
    (
        "xdptrace 1\nphase 0\n1 0 0 pass 0 1 00\n0 0 0 pass 0 1 00\nend\n",
        4,
    ),
    (
        "xdptrace 1\nphase 0\n0 0 0 pass 0 1 00\nphase 1\n0 1 0 pass 0 1 00\nend\n",
        5,
    ),
];

#[test]
fn lines(rt: HostRuntime) {
    for (trace, line) in LINES {
        assert!(rt; first_bad(rt.alloc(), trace) == Some(line), "{trace}");
    }
}

/// Whether the processor's packets of a phase have these counts.
fn has_counts(choices: &Choices, phase: u32, processor: u32, wanted: &[u32]) -> bool {
    if phase >= choices.len() {
        return false;
    }
    let counts = choices.at(phase);
    processor < counts.len() && counts.at(processor).as_slice() == wanted
}

/// Two phases of two processors.
const TWO: &str = "xdptrace 1
phase 0
0 0 2 drop 0 14 02000000000102000000000288b5
0 1 2 pass 0 14 02000000000302000000000288b5
1 0 0 pass 0 14 02000000000302000000000288b5
phase 1
1 0 4 pass 0 14 02000000000302000000000288b5
end
";

fn choices_of(alloc: Global, trace: &str) -> Result<Choices, OutOfMemory> {
    match read_trace(alloc, trace.as_bytes()) {
        Ok(choices) => Ok(choices),
        Err(_) => Err(OutOfMemory),
    }
}

#[test]
fn counts(rt: HostRuntime) -> Result<(), Fail> {
    let choices = choices_of(rt.alloc(), TWO)?;
    assert!(rt; choices.len() == 2);
    assert!(rt; has_counts(&choices, 0, 0, &[2, 2]));
    assert!(rt; has_counts(&choices, 0, 1, &[0]));
    assert!(rt; has_counts(&choices, 0, 7, &[]));
    assert!(rt; has_counts(&choices, 1, 0, &[]));
    assert!(rt; has_counts(&choices, 1, 1, &[4]));
    Ok(())
}
