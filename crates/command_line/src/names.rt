ghost use Rattle.std.specs.Prelude.{◌≡◌, None, Some, Err, IfOk, option_map};
ghost use Rattle.command_line.specs.Names.{are_same, file_names, has_own_made_names, has_whole_names, is_empty_name, names_of};
ghost use Rattle.command_line.specs.Words.{texts_of};

use crate::end::WordsEnd;
use crate::parsing::parse;
use std::alloc::Global;

/// The files that the words name. Those of `--capture` and `--trace` are made.
#[derive(Clone, Copy, Debug)]
pub struct FileNames<'a> {
    pub script: &'a str,
    pub capture: Option<&'a str>,
    pub trace: Option<&'a str>,
    pub replay: Option<&'a str>,
}

/// Takes a SCRIPT and the options `--capture FILE`, `--trace FILE` and `--replay FILE`, each at most once.
#[tactic(auto, unfolding(crate::specs::Names::file_names))]
pub fn file_names<'a>(alloc: Global, words: &'a [String]) -> Result<FileNames<'a>, WordsEnd>
    ensures names { IfOk result (λ names. file_names (texts_of words.now) ≡ Some (names_of names)) }
    ensures not_taken { result ≡ Err WordsEnd.NotTaken → file_names (texts_of words.now) ≡ None }
{
    let matches = parse(alloc, words)?;
    let Some(script) = matches.get_str("script") else {
        return Err(WordsEnd::NotTaken);
    };
    let names = FileNames {
        script,
        capture: matches.get_str("capture"),
        trace: matches.get_str("trace"),
        replay: matches.get_str("replay"),
    };
    if !has_whole_names(&names) || !has_own_made_names(&names) {
        return Err(WordsEnd::NotTaken);
    }
    Ok(names)
}

/// Whether no name is empty.
fn has_whole_names(names: &FileNames<'_>) -> bool
    ensures { result ≡ has_whole_names (names_of names.now) }
{
    !is_empty_name(Some(names.script))
        && !is_empty_name(names.capture)
        && !is_empty_name(names.trace)
        && !is_empty_name(names.replay)
}

fn is_empty_name(name: Option<&str>) -> bool
    ensures { result ≡ is_empty_name (option_map (λ name. name.now) name.entry) }
{
    match name {
        Some(name) => name.is_empty(),
        None => false,
    }
}

/// Whether the names of the files that are made differ from each other and from those that are read.
fn has_own_made_names(names: &FileNames<'_>) -> bool
    ensures { result ≡ has_own_made_names (names_of names.now) }
{
    let script = Some(names.script);
    !are_same(names.capture, script)
        && !are_same(names.capture, names.trace)
        && !are_same(names.capture, names.replay)
        && !are_same(names.trace, script)
        && !are_same(names.trace, names.replay)
}

fn are_same(name: Option<&str>, other: Option<&str>) -> bool
    ensures { result ≡ are_same (option_map (λ name. name.now) name.entry) (option_map (λ name. name.now) other.entry) }
{
    match (name, other) {
        (Some(name), Some(other)) => name == other,
        _ => false,
    }
}
