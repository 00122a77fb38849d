use std::alloc::{AllocError, Global};
use std::test::Fail;
use xdp_tool::{Ended, replay_tool, run_tool};
use xio::{MemoryFiles, MemorySink, OutOfMemory, Sink};

mod faults;
mod loader;
mod objects;
mod replays;
mod scripts;
mod words;

fn words_of(alloc: Global, texts: &[&str]) -> Result<Vec<String>, AllocError> {
    let mut words = Vec::new(alloc);
    for text in texts {
        words.push(String::from_str(alloc, text)?)?;
    }
    Ok(words)
}

/// What a run left behind.
#[derive(Drop)]
struct Finished {
    ended: Ended,
    files: MemoryFiles,
    out: MemorySink,
    err: MemorySink,
}

impl Finished {
    fn ended_so(&self, status: u8, line: u32) -> bool {
        self.ended.status == status && self.ended.line == line
    }

    fn said(&self, out: &str, err: &str) -> bool {
        self.out.bytes() == out.as_bytes() && self.err.bytes() == err.as_bytes()
    }

    /// Whether one more call of out fails.
    fn next_fails(&mut self) -> bool {
        self.out.write(b"more").is_err()
    }

    fn traced(&self, trace: Option<&str>) -> bool {
        match (self.files.content("t"), trace) {
            (Some(content), Some(trace)) => content == trace.as_bytes(),
            (None, None) => true,
            _ => false,
        }
    }
}

/// What of the outside fails, calls by their numbers from 1, and the place of the script that can't be read; the room of each
/// file that is made, and what the trace's file holds before the run.
#[derive(Clone, Copy)]
struct Outside<'a> {
    out: &'a [u32],
    files: &'a [u32],
    bad_place: Option<u64>,
    room: u32,
    trace: Option<&'a str>,
}

const STEADY: Outside<'static> = Outside {
    out: &[],
    files: &[],
    bad_place: None,
    room: 1000,
    trace: None,
};

/// The files `s`, which holds the script, and `t` where the trace's file is there before.
fn files_of(alloc: Global, script: &str, outside: Outside<'_>) -> Result<MemoryFiles, OutOfMemory> {
    let mut files = MemoryFiles::new(alloc, outside.room, outside.files)?;
    files.add("s", script.as_bytes(), outside.bad_place)?;
    if let Some(trace) = outside.trace {
        add_trace(&mut files, trace)?;
    }
    Ok(files)
}

/// Adds the trace's file, which isn't there yet.
fn add_trace(files: &mut MemoryFiles, trace: &str) -> Result<(), OutOfMemory> {
    if files.content("t").is_none() {
        files.add("t", trace.as_bytes(), None)?;
    }
    Ok(())
}

/// Replays a trace, which the file `r` holds.
fn replay(alloc: Global, script: &str, trace: &str) -> Result<Finished, Fail> {
    replay_by(alloc, &["--replay", "r", "s"], script, trace)
}

/// Takes these words for a replay.
fn replay_by(alloc: Global, texts: &[&str], script: &str, trace: &str) -> Result<Finished, Fail> {
    let words = words_of(alloc, texts)?;
    let mut files = files_of(alloc, script, STEADY)?;
    add_replayed(&mut files, trace)?;
    let mut out = MemorySink::new(alloc, 2000, &[])?;
    let mut err = MemorySink::new(alloc, 1000, &[])?;
    let ended = replay_tool(alloc, words.as_slice(), &mut files, &mut out, &mut err);
    Ok(Finished {
        ended,
        files,
        out,
        err,
    })
}

/// Adds the file of the trace that is replayed, which isn't there yet.
fn add_replayed(files: &mut MemoryFiles, trace: &str) -> Result<(), OutOfMemory> {
    if files.content("r").is_none() {
        files.add("r", trace.as_bytes(), None)?;
    }
    Ok(())
}

/// Runs these words over these files.
fn run(
    alloc: Global,
    texts: &[&str],
    script: &str,
    outside: Outside<'_>,
) -> Result<Finished, Fail> {
    let words = words_of(alloc, texts)?;
    let mut files = files_of(alloc, script, outside)?;
    objects::add_objects(alloc, &mut files)?;
    let mut out = MemorySink::new(alloc, 2000, outside.out)?;
    let mut err = MemorySink::new(alloc, 1000, &[])?;
    let ended = run_tool(alloc, words.as_slice(), &mut files, &mut out, &mut err);
    Ok(Finished {
        ended,
        files,
        out,
        err,
    })
}
