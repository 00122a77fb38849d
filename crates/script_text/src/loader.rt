ghost use Rattle.std.specs.Prelude.{◌≡◌, true, IfOk, IfSome, OnOk};
ghost use Rattle.std.specs.List.{list_all};
ghost use Rattle.script_text.specs.Loader.{is_one_of, load_of, loader_command, status_of, unload_of};
ghost use Rattle.script_text.specs.Readings.{Reads};
ghost use Rattle.script_text.specs.WordViews.{arranged_of, plain_of, word_of};
ghost use Rattle.script_text.specs.Words.{is_printable};
ghost use Rattle.xdp_state.specs.Answer.{rule_fits};

use crate::arranged::{Plain, Words};
use crate::name::is_name;
use crate::objects::{NameList, object_place};
use crate::options::{Given, Verb};
use crate::reading::{LineEnd, both, if_given, keeps, or_else};
use crate::rule::{BAD_BYTE, BAD_FORM, BAD_NAME, BAD_UNLOAD};
use crate::text::{bytes_if, bytes_of};
use crate::words::are_printable;
use std::alloc::Global;
use xdp_state::{Command, LoadWords, Mode};

/// Reads the words of `load`; the object is named by its place among the names.
#[tactic(auto, unfolding(crate::specs::Loader::load_of))]
fn load_of(
    alloc: Global,
    objects: &NameList,
    given: Given,
    plain: Plain<'_>,
    name: &[u8],
    object: &[u8],
) -> Result<Command, LineEnd>
    ensures command { Reads result (load_of objects.now given (plain_of plain.entry) name.now object.now) }
    ensures object { OnOk result (list_all is_printable object.now ≡ true) }
    ensures flags { IfOk result (λ command. rule_fits command ≡ true) }
{
    keeps(BAD_BYTE, are_printable(object))?;
    let mode = or_else(given.mode, Mode::Native);
    let settings = both(if_given(given.priority), if_given(given.actions));
    let ((), (mode, (priority, mask))) = both(
        keeps(BAD_NAME, is_name(name)),
        both(mode, settings),
    )?;
    Ok(Command::LoaderLoad(LoadWords {
        interface: bytes_of(alloc, name)?,
        object: object_place(objects, object),
        name: bytes_if(alloc, plain.name)?,
        section: bytes_if(alloc, plain.section)?,
        mode,
        priority,
        mask,
    }))
}

/// Whether one of the two holds, and the other doesn't.
fn is_one_of(one: bool, other: bool) -> bool
    ensures { result ≡ is_one_of one other }
{
    one != other
}

/// Reads the words of `unload`.
#[tactic(auto, unfolding(crate::specs::Loader::unload_of))]
fn unload_of(alloc: Global, given: Given, name: &[u8]) -> Result<Command, LineEnd>
    ensures command { Reads result (unload_of given name.now) }
    ensures flags { IfOk result (λ command. rule_fits command ≡ true) }
{
    let (id, ((), ())) = both(
        if_given(given.id),
        both(
            keeps(BAD_NAME, is_name(name)),
            keeps(BAD_UNLOAD, is_one_of(given.id.is_some(), given.all)),
        ),
    )?;
    Ok(Command::LoaderUnload {
        interface: bytes_of(alloc, name)?,
        id,
    })
}

/// Reads the words of `status`.
#[tactic(auto, unfolding(crate::specs::Loader::status_of))]
fn status_of(alloc: Global, name: Option<&[u8]>) -> Result<Command, LineEnd>
    ensures command { Reads result (status_of (word_of name.entry)) }
    ensures flags { IfOk result (λ command. rule_fits command ≡ true) }
{
    let Some(name) = name else {
        return Ok(Command::LoaderStatus { interface: None });
    };
    keeps(BAD_NAME, is_name(name))?;
    let name = bytes_of(alloc, name)?;
    Ok(Command::LoaderStatus {
        interface: Some(name),
    })
}

/// Reads the words of a verb: an interface and an object, an interface, or at most an interface.
#[tactic(auto, unfolding(crate::specs::Loader::loader_command))]
pub fn loader_command(
    alloc: Global,
    objects: &NameList,
    verb: Verb,
    words: Words<'_>,
) -> Result<Command, LineEnd>
    ensures command { Reads result (loader_command objects.now verb (arranged_of words.entry)) }
    ensures object { OnOk result (IfSome (word_of words.entry.plain.second) (λ object. list_all is_printable object ≡ true)) }
    ensures flags { IfOk result (λ command. rule_fits command ≡ true) }
{
    let Words { given, plain } = words;
    match (verb, plain.first, plain.second) {
        (Verb::LoaderLoad, Some(name), Some(object)) => {
            load_of(alloc, objects, given, plain, name, object)
        }
        (Verb::LoaderUnload, Some(name), None) => unload_of(alloc, given, name),
        (Verb::LoaderStatus, name, None) => status_of(alloc, name),
        _ => Err(LineEnd::BadLine { rule: BAD_FORM }),
    }
}
