ghost use Rattle.std.specs.Prelude.{◌≡◌, false, Err, IfOk};
ghost use Rattle.clap.specs.Simple.{app_of};
ghost use Rattle.command_line.specs.Command.{command};
ghost use Rattle.command_line.specs.Finding.{Finds};
ghost use Rattle.command_line.specs.Given.{are_taken, given_by};
ghost use Rattle.command_line.specs.Words.{texts_of};

use crate::end::WordsEnd;
use clap::{Arg, ArgMatches, Command};
use std::alloc::{AllocError, Global};

/// The options and the word that the program takes.
fn command<'a>(alloc: Global) -> Result<Command<'a>, AllocError>
    ensures { IfOk result (λ made. app_of made ≡ command) }
{
    Command::new(alloc, "xdptool")
        .no_binary_name(true)
        .disable_help_flag(true)
        .arg(Arg::new(alloc, "capture").long("capture"))?
        .arg(Arg::new(alloc, "trace").long("trace"))?
        .arg(Arg::new(alloc, "replay").long("replay"))?
        .arg(Arg::new(alloc, "script"))
}

/// The values of the options and the word, under their ids.
pub(crate) fn parse<'a>(alloc: Global, words: &'a [String]) -> Result<ArgMatches<'a>, WordsEnd>
    ensures found { IfOk result (λ matches. Finds (given_by (texts_of words.now)) matches) }
    ensures not_taken { result ≡ Err WordsEnd.NotTaken → are_taken (given_by (texts_of words.now)) ≡ false }
{
    let matches = command(alloc)?.try_get_matches_from(words)?;
    Ok(matches)
}
