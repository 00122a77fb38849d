//! The program `xdptool`: the tool's run over the system's files and streams.
#![tactic(auto)]

use command_line::wants_replay;
use std::fs::File;
use std::process::ExitCode;
use std::rt::{Env, Files};
use std::{env, io};
use xdp_tool::{replay_tool, run_tool};
use xio::{RealFiles, RealOut, write_all};

/// The words behind the program's name.
fn words_of(rt: &(impl Env + AllocGlobal)) -> io::Result<Vec<String>> {
    let mut words = Vec::new(rt.alloc());
    for word in env::args(rt)?.skip(1) {
        words.push(word)?;
    }
    Ok(words)
}

/// Takes the number of a standard stream that is closed, so that no file gets it. A write to it fails.
fn held_number<R: Files>(rt: &R) -> Option<R::File> {
    File::open(rt, "/dev/null").ok()
}

/// Words that can't be read, as where they aren't UTF-8, aren't taken: they count as none.
fn main(rt: HostRuntime) -> ExitCode {
    let _held_numbers = [held_number(&rt), held_number(&rt), held_number(&rt)];
    let mut err = RealOut::new(rt.stderr());
    let words = match words_of(&rt) {
        Ok(words) => words,
        Err(error) if error.kind() == io::ErrorKind::OutOfMemory => {
            let _ = write_all(&mut err, b"xdptool: out of memory\n");
            return ExitCode::from(4);
        }
        Err(_) => Vec::new(rt.alloc()),
    };
    let mut files = RealFiles::new(rt.alloc(), rt);
    let mut out = RealOut::new(rt.stdout());
    let words = words.as_slice();
    let ended = if wants_replay(words) {
        replay_tool(rt.alloc(), words, &mut files, &mut out, &mut err)
    } else {
        run_tool(rt.alloc(), words, &mut files, &mut out, &mut err)
    };
    ExitCode::from(ended.status)
}
