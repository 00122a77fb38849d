ghost use Rattle.std.specs.Prelude.{◌≡◌, ◌≢◌, ◌≤◌, [], ◌∷◌, false, length, position, slice_get, Err, Result, IfOk, IfErr, OnOk, IsTrue};
ghost use Rattle.script_text.specs.Handed.{IsSound};
ghost use Rattle.xdp_tool.specs.Ending.{status_of};
ghost use Rattle.xdp_tool.specs.Headline.{is_end, names_read};
ghost use Rattle.xdp_tool.specs.Named.{Gives, name_of};
ghost use Rattle.xdp_tool.specs.Outcome.{IsPrepared, is_the_file, loads_file, script_at, script_in, without_clash};
ghost use Rattle.xdp_tool.specs.Runnable.{IsRunnable};
ghost use Rattle.xdp_tool.specs.Sinks.{Rises};
ghost use Rattle.xdp_tool.specs.Touched.{Reads};

use crate::ending::{Ending, LimitName};
use crate::objects::load_objects;
use crate::prepared::Prepared;
use script_text::{Line, NameList, Script, ScriptEnd, What, read_script};
use std::alloc::Global;
use xdp_state::Command;
use xio::{Bytes, Files, ReadEnd, read_file};

/// The most bytes of a script.
const SCRIPT_BYTES: u64 = 16_777_216;

/// The rule that no line names the file that the run makes.
const MADE_FILE: u8 = 14;

/// The script in the named file with its objects, none of which is the file that is made.
#[tactic(auto, unfolding(crate::specs::Outcome::script_in))]
pub fn prepare<F: Files>(
    alloc: Global,
    files: &mut F,
    name: &str,
    made: Option<&str>,
) -> Result<Prepared, Ending>
    ensures loaded { IsTrue F.tells → IfOk result (λ script. IsPrepared (F.told files.old).content
        (script_in (F.told files.old).content name.now (name_of made.entry)) (Ok script)) }
    ensures only { IsTrue F.tells → (script : Result Prepared Ending) → IsPrepared (F.told files.old).content
        (script_in (F.told files.old).content name.now (name_of made.entry)) script → Gives result script }
    ensures ended { IsTrue F.tells → IfErr result (λ ending. Gives (Err ending)
        (script_in (F.told files.old).content name.now (name_of made.entry))) }
    ensures runnable { IfOk result IsRunnable }
    ensures failed { IfErr result (λ ending. is_end (status_of ending) ≡ false) }
    ensures fault { result ≡ Err Ending.Fault → Rises F.read_faults files.old files.new }
    ensures same_read_faults { OnOk result (F.read_faults files.new ≡ F.read_faults files.old) }
    ensures same_write_faults { F.write_faults files.new ≡ F.write_faults files.old }
    ensures reads { IsTrue F.tells → Reads (F.told files.old) (F.told files.new)
        (names_read (F.told files.old).content name.now) result }
    ensures same_handles { F.handles files.new ≡ F.handles files.old }
{
    let script = match read_named(alloc, files, name) {
        Ok(script) => script,
        Err(ending) => return Err(ending),
    };
    match without_clash(&script, made) {
        Ok(()) => load_objects(alloc, files, script),
        Err(ending) => Err(ending),
    }
}

/// The script in the named file.
fn read_named<F: Files>(alloc: Global, files: &mut F, name: &str) -> Result<Script, Ending>
    ensures script { IsTrue F.tells → Gives result (script_at ((F.told files.old).content name.now)) }
    ensures sound { IfOk result IsSound }
    ensures lines { IfOk result (λ script. length script.lines ≤ 65536) }
    ensures failed { IfErr result (λ ending. is_end (status_of ending) ≡ false) }
    ensures fault { result ≡ Err Ending.Fault → Rises F.read_faults files.old files.new }
    ensures same_read_faults { OnOk result (F.read_faults files.new ≡ F.read_faults files.old) }
    ensures same_write_faults { F.write_faults files.new ≡ F.write_faults files.old }
    ensures reads { IsTrue F.tells → Reads (F.told files.old) (F.told files.new) (name.now ∷ []) result }
    ensures same_handles { F.handles files.new ≡ F.handles files.old }
{
    let mut bytes = Bytes::new(alloc);
    match read_file(files, name, SCRIPT_BYTES, &mut bytes) {
        Ok(()) => script_in(alloc, bytes.as_slice()),
        Err(ReadEnd::ReadFault) => Err(Ending::Fault),
        Err(ReadEnd::TooLarge { .. }) => Err(Ending::Limit(LimitName::Script)),
        Err(ReadEnd::OutOfMemory) => Err(Ending::OutOfMemory),
    }
}

/// The script in these bytes, at most 16 MiB.
fn script_in(alloc: Global, bytes: &[u8]) -> Result<Script, Ending>
    requires { length bytes.now ≤ 16777216 }
    ensures script { Gives result (script_at bytes.now) }
    ensures sound { IfOk result IsSound }
    ensures lines { IfOk result (λ script. length script.lines ≤ 65536) }
    ensures failed { IfErr result (λ ending. is_end (status_of ending) ≡ false) }
    ensures no_fault { result ≢ Err Ending.Fault }
{
    match read_script(alloc, bytes) {
        Ok(script) => Ok(script),
        Err(ScriptEnd::BadScript { line, rule }) => Err(Ending::BadScript { line, rule }),
        Err(ScriptEnd::TooManyLines) => Err(Ending::Limit(LimitName::Lines)),
        Err(ScriptEnd::OutOfMemory) => Err(Ending::OutOfMemory),
    }
}

/// Refuses a script of which a line names the file that is made.
fn without_clash(script: &Script, made: Option<&str>) -> Result<(), Ending>
    ensures ok { OnOk result (without_clash (name_of made.entry) script.now ≡ Ok script.now) }
    ensures err { IfErr result (λ ending. without_clash (name_of made.entry) script.now ≡ Err ending) }
    ensures failed { IfErr result (λ ending. is_end (status_of ending) ≡ false) }
    ensures no_fault { result ≢ Err Ending.Fault }
{
    let Some(file) = made else {
        return Ok(());
    };
    match first_load(script, file.as_bytes()) {
        Some(place) => Err(Ending::BadScript {
            line: script.lines.as_slice()[place].line,
            rule: MADE_FILE,
        }),
        None => Ok(()),
    }
}

/// The place of the first line that loads an object from this file.
fn first_load(script: &Script, file: &[u8]) -> Option<usize>
    ensures { result ≡ position (loads_file script.now.objects file.now) script.now.lines }
{
    let objects = &script.objects;
    script
        .lines
        .as_slice()
        .iter()
        .position(|line| loads_file(objects, file, line))
}

/// Whether the line loads an object from this file.
fn loads_file(objects: &NameList, file: &[u8], line: &Line) -> bool
    ensures { result ≡ loads_file objects.now file.now line.now }
{
    let What::Command(command) = &line.what else {
        return false;
    };
    match command.get() {
        Command::LoaderLoad(words) => is_named(objects, words.object, file),
        _ => false,
    }
}

/// Whether the object at this place has the name.
fn is_named(objects: &NameList, place: u32, file: &[u8]) -> bool
    ensures { result ≡ is_the_file file.now (slice_get objects.now place) }
{
    place < objects.len() && objects.at(place).as_slice() == file
}
