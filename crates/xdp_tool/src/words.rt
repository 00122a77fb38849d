ghost use Rattle.std.specs.Prelude.{◌≡◌, ◌≢◌, false, Err, IfErr};
ghost use Rattle.xdp_tool.specs.Ending.{status_of};
ghost use Rattle.xdp_tool.specs.Headline.{is_end, names_by};
ghost use Rattle.xdp_tool.specs.Named.{AreNames};
ghost use Rattle.xdp_tool.specs.Words.{names_in};

use crate::ending::Ending;
use command_line::{FileNames, WordsEnd, file_names};
use std::alloc::Global;

/// Takes `SCRIPT`, `--trace FILE` and `--replay FILE`. `--capture` isn't taken yet.
#[tactic(auto, unfolding(crate::specs::Words::names_in))]
pub fn names_in<'a>(alloc: Global, words: &'a [String]) -> Result<FileNames<'a>, Ending>
    ensures names { AreNames result (names_by words.now) }
    ensures failed { IfErr result (λ ending. is_end (status_of ending) ≡ false) }
    ensures no_fault { result ≢ Err Ending.Fault }
{
    let names = match file_names(alloc, words) {
        Ok(names) => names,
        Err(WordsEnd::NotTaken) => return Err(Ending::Usage),
        Err(WordsEnd::OutOfMemory) => return Err(Ending::OutOfMemory),
    };
    if names.capture.is_some() {
        return Err(Ending::Usage);
    }
    Ok(names)
}
