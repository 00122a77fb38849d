//! All of an object's programs.

ghost use Rattle.std.specs.Prelude.{All, List, Result, IfOk};
ghost use Rattle.object_load.specs.Load as of_object;
ghost use Rattle.object_load.specs.Reading.{Answers, Gives, Is};
ghost use Rattle.object_load.specs.declared.program.Program.{Program};
ghost use Rattle.object_load.specs.declared.refusal.LoadRefusal.{LoadRefusal};
ghost use Rattle.object_load.specs.Symbols as of_file;

use crate::drafts::make_drafts;
use crate::layout::{Layout, text};
use crate::linking::make_programs;
use crate::maps::object_maps;
use crate::program::ProgramList;
use crate::refusal::LoadEnd;
use crate::symbols::programs_in;
use crate::types::{make_functions, types_in};
use elf_objects::{Object, read_object};
use std::alloc::Global;

/// The object that the bytes are.
fn object_of<'a>(alloc: Global, bytes: &'a [u8]) -> Result<Object<'a>, LoadEnd>
    ensures { Answers (Is (of_file.object_of bytes.now)) result }
{
    Ok(read_object(alloc, bytes)?)
}

/// The programs of symbols.
fn load_all(alloc: Global, object: &Object<'_>, indexes: &[u32]) -> Result<ProgramList, LoadEnd>
    requires { All (of_file.IsProgram object.now) indexes.now }
    ensures programs { Answers (of_object.LoadsSymbols object.now indexes.now) result }
    ensures runnable { IfOk result (All of_object.IsRunnable) }
{
    let types = types_in(alloc, object)?;
    let functions = make_functions(alloc, object, &types, indexes)?;
    let layout = Layout::read(alloc, object)?;
    let maps = object_maps(alloc, object, &types, layout.constants.as_slice())?;
    let drafts = make_drafts(alloc, object, functions.as_slice(), text(object))?;
    make_programs(alloc, object, &layout, maps.as_slice(), drafts.as_slice())
}

fn load_object(alloc: Global, bytes: &[u8]) -> Result<ProgramList, LoadEnd>
    ensures programs { Answers (of_object.Loads bytes.now) result }
    ensures runnable { IfOk result (All of_object.IsRunnable) }
{
    let object = object_of(alloc, bytes)?;
    let indexes = programs_in(alloc, &object)?;
    load_all(alloc, &object, indexes.as_slice())
}

/// The programs of the object that the bytes are, or the first refusal in the order of `LoadRefusal`.
pub fn programs_of(alloc: Global, bytes: &[u8]) -> Result<ProgramList, LoadEnd>
    // A refusal comes exactly where the bytes say it, and so do programs.
    ensures exact { Answers (of_object.Loads bytes.now) result }
    ensures only { (answer : Result (List Program) LoadRefusal)
        → of_object.Loads bytes.now answer → Gives result answer }

    // Each program can be run, with the maps that its code asks for.
    ensures runnable { IfOk result (All of_object.IsRunnable) }
{
    load_object(alloc, bytes)
}
