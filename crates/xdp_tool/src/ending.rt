ghost use Rattle.std.specs.Prelude.{◌≡◌, IfOk};

use std::alloc::Global;
use xio::{Bytes, OutOfMemory};

/// How the program is called.
const USAGE: &[u8] =
    b"usage: xdptool [--capture FILE] [--trace FILE] [--replay FILE] [--demo SEED] [SCRIPT]\n";

/// A limit that an input passed.
#[derive(Clone, Copy, Debug, PartialEq, Eq)]
pub enum LimitName {
    /// 16,777,216 bytes of a script
    Script,
    /// 65,536 lines of a script
    Lines,
    /// 16 objects of a script
    Objects,
    /// 16,777,216 bytes of an object
    Object,
    /// 201,326,592 bytes of a trace that is replayed
    Trace,
}

/// How a run ends.
#[derive(Clone, Copy, Debug, PartialEq, Eq)]
pub enum Ending {
    /// The script ran to its end, and a command may have been refused.
    Done { refused: bool },
    /// The words aren't taken.
    Usage,
    /// A line of the script, from 1, breaks a rule.
    BadScript { line: u32, rule: u8 },
    /// A file or an output failed.
    Fault,
    OutOfMemory,
    Limit(LimitName),
    /// No run of the script writes this line, from 1, of the trace that is replayed, and it is the first such.
    TraceDiffers { line: u32 },
}

impl Ending {
    ghost use Rattle.xdp_tool.specs.Ending.{status_of, line_of, err_text};

    /// The exit status.
    pub fn status(&self) -> u8
        ensures { result ≡ status_of self.now }
    {
        match self {
            Ending::Done { refused } => u8::from(*refused),
            Ending::Usage | Ending::BadScript { .. } => 2,
            Ending::Fault => 3,
            Ending::OutOfMemory => 4,
            Ending::Limit(_) => 5,
            Ending::TraceDiffers { .. } => 6,
        }
    }

    /// The script's line that breaks a rule, the trace's line that differs, or 0.
    pub fn line(&self) -> u32
        ensures { result ≡ line_of self.now }
    {
        match self {
            Ending::BadScript { line, .. } | Ending::TraceDiffers { line } => *line,
            _ => 0,
        }
    }

    /// What is said on err.
    pub fn text(&self, alloc: Global) -> Result<Bytes, OutOfMemory>
        ensures { IfOk result (λ text. text ≡ err_text self.now) }
    {
        let mut text = Bytes::new(alloc);
        match self {
            Ending::Done { .. } => {}
            Ending::Usage => text.append(USAGE)?,
            Ending::BadScript { line, rule } => {
                let said = format!(in alloc; "xdptool: line {line}: rule S{rule}\n")?;
                text.append(said.as_bytes())?;
            }
            Ending::Fault => text.append(b"xdptool: fault\n")?,
            Ending::OutOfMemory => text.append(b"xdptool: out of memory\n")?,
            Ending::Limit(LimitName::Script) => text.append(b"xdptool: limit script 16777216\n")?,
            Ending::Limit(LimitName::Lines) => text.append(b"xdptool: limit lines 65536\n")?,
            Ending::Limit(LimitName::Objects) => text.append(b"xdptool: limit objects 16\n")?,
            Ending::Limit(LimitName::Object) => text.append(b"xdptool: limit object 16777216\n")?,
            Ending::Limit(LimitName::Trace) => text.append(b"xdptool: limit trace 201326592\n")?,
            Ending::TraceDiffers { line } => {
                let said = format!(in alloc; "xdptool: trace line {line} differs\n")?;
                text.append(said.as_bytes())?;
            }
        }
        Ok(text)
    }
}
