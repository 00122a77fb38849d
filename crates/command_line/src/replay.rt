ghost use Rattle.std.specs.Prelude.{◌≡◌};
ghost use Rattle.command_line.specs.Replay.{asks_replay, wants_replay};
ghost use Rattle.command_line.specs.Words.{texts_of};

/// Whether a word before the first `--` is `--replay` or begins with `--replay=`, taken or not.
#[tactic(auto, unfolding(crate::specs::Replay::wants_replay))]
pub fn wants_replay(words: &[String]) -> bool
    ensures { result ≡ wants_replay (texts_of words.now) }
{
    for word in words {
        if word.as_str() == "--" {
            return false;
        }
        if asks_replay(word.as_str()) {
            return true;
        }
    }
    false
}

fn asks_replay(word: &str) -> bool
    ensures { result ≡ asks_replay word.now }
{
    word == "--replay" || word.as_bytes().starts_with(b"--replay=")
}
