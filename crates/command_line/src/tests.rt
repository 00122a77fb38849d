use super::*;
use std::alloc::{AllocError, Global};
use std::test::Fail;

/// Words, and the names that they give: of the script, the capture, the trace and the replay, "" where there is none.
const TAKEN: [(&[&str], [&str; 4]); 13] = [
    (&["s"], ["s", "", "", ""]),
    (&["-"], ["-", "", "", ""]),
    (&["--", "s"], ["s", "", "", ""]),
    (&["--", "--trace"], ["--trace", "", "", ""]),
    (&["--trace", "t", "s"], ["s", "", "t", ""]),
    (&["s", "--trace", "t"], ["s", "", "t", ""]),
    (&["--trace=t", "s"], ["s", "", "t", ""]),
    (&["--trace=-t", "s"], ["s", "", "-t", ""]),
    (&["--trace=a=b", "s"], ["s", "", "a=b", ""]),
    (&["--trace", "-", "s"], ["s", "", "-", ""]),
    (&["--replay", "s", "s"], ["s", "", "", "s"]),
    (
        &["--replay", "r", "--capture=c", "s", "--trace", "t"],
        ["s", "c", "t", "r"],
    ),
    (&["--trace", "t", "--", "./t"], ["./t", "", "t", ""]),
];

const NOT_TAKEN: [&[&str]; 29] = [
    &[],
    &[""],
    &["--"],
    &["s", "t"],
    &["s", "--", "t"],
    &["-s"],
    &["--", "s", "--trace=t"],
    &["--trace"],
    &["--trace", "t"],
    &["--trace="],
    &["--trace=", "s"],
    &["--trace", "", "s"],
    &["--trace", "-t", "s"],
    &["--trace", "--", "s"],
    &["--trace", "--capture=c", "s"],
    &["--trace", "t", "--trace", "u", "s"],
    &["--trace=t", "--trace=u", "s"],
    &["--trace=t", "--trace=t", "s"],
    &["--tra", "t", "s"],
    &["--demo", "1"],
    &["--=t", "s"],
    &["--help"],
    &["--version", "s"],
    &["-h", "s"],
    &["--trace", "s", "s"],
    &["--capture=s", "s"],
    &["--capture", "t", "--trace", "t", "s"],
    &["--capture", "r", "--replay", "r", "s"],
    &["--trace", "r", "--replay", "r", "s"],
];

/// Words, and whether they ask for a replay.
const REPLAYS: [(&[&str], bool); 7] = [
    (&[], false),
    (&["--replay"], true),
    (&["s", "--replay="], true),
    (&["--trace", "--replay=r"], true),
    (&["--", "--replay"], false),
    (&["replay", "-replay=r"], false),
    (&["--replays", "--trace=--replay"], false),
];

fn words_of(alloc: Global, texts: &[&str]) -> Result<Vec<String>, AllocError> {
    let mut words = Vec::new(alloc);
    for text in texts {
        words.push(String::from_str(alloc, text)?)?;
    }
    Ok(words)
}

fn is_named(name: Option<&str>, wanted: &str) -> bool {
    name.unwrap_or("") == wanted
}

/// Whether the words give these names.
fn gives(alloc: Global, texts: &[&str], wanted: [&str; 4]) -> Result<bool, Fail> {
    let words = words_of(alloc, texts)?;
    let [script, capture, trace, replay] = wanted;
    Ok(match file_names(alloc, words.as_slice()) {
        Ok(names) => {
            names.script == script
                && is_named(names.capture, capture)
                && is_named(names.trace, trace)
                && is_named(names.replay, replay)
        }
        Err(_) => false,
    })
}

fn refuses(alloc: Global, texts: &[&str]) -> Result<bool, Fail> {
    let words = words_of(alloc, texts)?;
    Ok(matches!(file_names(alloc, words.as_slice()), Err(WordsEnd::NotTaken)))
}

#[test]
fn takes_words(rt: HostRuntime) -> Result<(), Fail> {
    for (texts, wanted) in TAKEN {
        assert!(rt; gives(rt.alloc(), texts, wanted)?);
    }
    Ok(())
}

#[test]
fn refuses_words(rt: HostRuntime) -> Result<(), Fail> {
    for texts in NOT_TAKEN {
        assert!(rt; refuses(rt.alloc(), texts)?);
    }
    Ok(())
}

#[test]
fn sees_a_replay(rt: HostRuntime) -> Result<(), Fail> {
    for (texts, wanted) in REPLAYS {
        let words = words_of(rt.alloc(), texts)?;
        assert!(rt; wants_replay(words.as_slice()) == wanted);
    }
    Ok(())
}
