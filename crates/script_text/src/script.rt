ghost use Rattle.std.specs.Prelude.{◌≡◌, ◌+◌, ◌≤◌, true, length, IfOk};
ghost use Rattle.std.specs.List.{list_all};
ghost use Rattle.std.specs.Str.Lines.{lines};
ghost use Rattle.script_text.specs.Handed.{are_printable, has_frame, has_processor, has_flags};
ghost use Rattle.script_text.specs.Interfaces.{queue_count};
ghost use Rattle.script_text.specs.Script.{script_of, bad_script, Agrees};

use crate::line::read_line;
use crate::lines::{has_more_lines, split_line};
use crate::objects::NameList;
use crate::reading::LineEnd;
use crate::rule::Rule;
use crate::what::LineList;
use std::alloc::Global;
use xdp_state::{DumpList, InterfaceList};

/// The most lines of a script.
const MOST_LINES: u32 = 65_536;

/// A script: the interfaces that it declares, the files of the objects that it loads, what its dumps ask for, and what its
/// other lines ask.
#[derive(Debug, Drop)]
pub struct Script {
    pub interfaces: InterfaceList,
    /// Each once, in the order of the lines that name them first; commands name them by their places.
    pub objects: NameList,
    /// One for each start of a dump; commands name them by their places.
    pub dumps: DumpList,
    pub lines: LineList,
}

/// Why a script isn't taken: a line, from 1, that breaks a rule, or more than 65,536 lines.
#[derive(Clone, Copy, Debug, PartialEq, Eq)]
pub enum ScriptEnd {
    BadScript { line: u32, rule: u8 },
    TooManyLines,
    OutOfMemory,
}

/// The script of some bytes. A bad script ends with its first bad line, and with the least rule that the line breaks.
#[tactic(auto, unfolding(crate::specs::Script::script_of))]
pub fn read_script(alloc: Global, bytes: &[u8]) -> Result<Script, ScriptEnd>
    ensures script { Agrees result (script_of bytes.now) }
    ensures frames { IfOk result (λ script. list_all has_frame script.lines ≡ true) }
    ensures processors { IfOk result (λ script. list_all (has_processor (queue_count script.interfaces)) script.lines ≡ true) }
    ensures rules { IfOk result (λ script. list_all has_flags script.lines ≡ true) }
    ensures lines { IfOk result (λ script. length script.lines ≤ 65536) }
    ensures objects { IfOk result (λ script. are_printable script.objects ≡ true) }
    ensures interfaces { IfOk result (λ script. length script.interfaces ≤ 8) }
    ensures queues { IfOk result (λ script. queue_count script.interfaces ≤ 8) }
{
    let mut script = Script {
        interfaces: InterfaceList::new(alloc),
        objects: NameList::new(alloc),
        dumps: DumpList::new(alloc),
        lines: LineList::new(alloc),
    };
    let mut line = 0;
    let mut rest = bytes;
    while let Some((text, behind)) = split_line(rest) {
        if line == MOST_LINES {
            return Err(ScriptEnd::TooManyLines);
        }
        line += 1;
        rest = behind;
        match read_line(alloc, &mut script, line, text) {
            Ok(()) => {}
            Err(LineEnd::BadLine { rule }) => return Err(bad_script(line, rule, behind)),
            Err(LineEnd::OutOfMemory) => return Err(ScriptEnd::OutOfMemory),
        }
    }
    Ok(script)
}

/// Why a script isn't taken whose line breaks a rule, by the bytes behind that line.
fn bad_script(line: u32, rule: Rule, behind: &[u8]) -> ScriptEnd
    requires { line ≤ 65536 }
    ensures { result ≡ bad_script line rule (line + length (lines behind.now)) }
{
    if has_more_lines(behind, MOST_LINES - line) {
        ScriptEnd::TooManyLines
    } else {
        ScriptEnd::BadScript { line, rule }
    }
}
