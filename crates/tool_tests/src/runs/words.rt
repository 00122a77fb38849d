use super::{STEADY, replay_by, run};
use std::test::Fail;

const SCRIPT: &str = "interface eth0 1
packet eth0 0 02000000000102000000000288b5
";

const OUT: &str = "2 handed 1
end 0
  cpu 0 eth0/0 packets 1 bytes 14 aborted 0 drop 0 pass 1 tx 0 redirect 0
";

const TRACE: &str = "xdptrace 1
phase 0
0 0 0 pass 0 14 02000000000102000000000288b5
end
";

const USAGE: &str =
    "usage: xdptool [--capture FILE] [--trace FILE] [--replay FILE] [--demo SEED] [SCRIPT]\n";

/// Words, and the status, out, err and trace of the run.
const WORDS: [(&[&str], u8, &str, &str, Option<&str>); 19] = [
    (&["s"], 0, OUT, "", None),
    (&["--trace", "t", "s"], 0, OUT, "", Some(TRACE)),
    (&["s", "--trace=t"], 0, OUT, "", Some(TRACE)),
    (&["--", "s"], 0, OUT, "", None),
    (&[], 2, "", USAGE, None),
    (&["s", "t"], 2, "", USAGE, None),
    (&["-s"], 2, "", USAGE, None),
    (&[""], 2, "", USAGE, None),
    (&["--trace", "t"], 2, "", USAGE, None),
    (&["--trace", "", "s"], 2, "", USAGE, None),
    (&["--trace", "-t", "s"], 2, "", USAGE, None),
    (&["--trace", "s", "s"], 2, "", USAGE, None),
    (&["--capture", "t", "s"], 2, "", USAGE, None),
    (&["--replay", "s"], 2, "", USAGE, None),
    (
        &["--capture", "t", "--replay", "u", "s"],
        2,
        "",
        USAGE,
        None,
    ),
    (&["--trace", "t", "--trace", "u", "s"], 2, "", USAGE, None),
    (&["--trace", "t", "--replay", "t", "s"], 2, "", USAGE, None),
    (&["--trace", "t", "u"], 3, "", "xdptool: fault\n", None),
    (&["--replay", "u", "s"], 3, "", "xdptool: fault\n", None),
];

#[test]
fn takes_words(rt: HostRuntime) -> Result<(), Fail> {
    for (words, status, out, err, trace) in WORDS {
        let run = run(rt.alloc(), words, SCRIPT, STEADY)?;
        assert!(rt; run.ended_so(status, 0) && run.said(out, err) && run.traced(trace));
    }
    Ok(())
}

/// Words for a replay, with the status, out and err.
const REPLAYS: [(&[&str], u8, &str, &str); 6] = [
    (&["--replay", "r", "s"], 0, OUT, ""),
    (&["s", "--replay=r"], 0, OUT, ""),
    (&["s"], 2, "", USAGE),
    (&["--trace", "t", "s"], 2, "", USAGE),
    (&["--", "--replay"], 2, "", USAGE),
    (&[], 2, "", USAGE),
];

#[test]
fn takes_words_of_a_replay(rt: HostRuntime) -> Result<(), Fail> {
    for (words, status, out, err) in REPLAYS {
        let run = replay_by(rt.alloc(), words, SCRIPT, TRACE)?;
        assert!(rt; run.ended_so(status, 0) && run.said(out, err) && run.traced(None));
    }
    Ok(())
}

#[test]
fn names_a_bad_line(rt: HostRuntime) -> Result<(), Fail> {
    let script = "interface eth0 1\nxdp-load eth0\n";
    let run = run(rt.alloc(), &["--trace", "t", "s"], script, STEADY)?;
    let said = "xdptool: line 2: rule S2\n";
    assert!(rt; run.ended_so(2, 2) && run.said("", said) && run.traced(None));
    Ok(())
}

#[test]
fn hands_back_the_counts(rt: HostRuntime) -> Result<(), Fail> {
    let script = "interface eth0 1
xdp-filter load eth0
packet eth0 0 02000000000102000000000288b5
xdp-filter unload eth0
packet eth0 0 02000000000102000000000288b5
barrier
";
    let run = run(rt.alloc(), &["s"], script, STEADY)?;
    let [first, second] = run.ended.choices.as_slice() else {
        return Err("not two phases")?;
    };
    let ([counts], [none]) = (first.as_slice(), second.as_slice()) else {
        return Err("not one processor")?;
    };
    assert!(rt; counts.as_slice() == [1, 2].as_slice() && none.as_slice().is_empty());
    Ok(())
}
