ghost use Rattle.std.specs.Prelude.{◌≡◌, ◌<◌, ◌==◌, [], ◌∷◌, length, position, IfSome, MatchOption};
ghost use Rattle.script_text.specs.Words.{parts_of};

use memchr::memchr;

fn separator_in(word: &[u8], separator: u8) -> Option<usize>
    ensures { result ≡ position (λ b. b == separator) word.now }
{
    memchr(separator, word)
}

/// A part of a word, and what stands behind the separator that ends it, where one does.
#[derive(Clone, Copy)]
pub struct Part<'a> {
    pub part: &'a [u8],
    pub behind: Option<&'a [u8]>,
}

/// The part in front of the first separator.
pub fn first_part(word: &[u8], separator: u8) -> Part<'_>
    ensures parts { MatchOption result.behind (parts_of separator word.now ≡ result.part.now ∷ [])
        (λ behind. parts_of separator word.now ≡ result.part.now ∷ parts_of separator behind.now) }
    ensures shorter { IfSome result.behind (λ behind. length behind.now < length word.now) }
    ensures some { IfSome result.behind (λ behind. 0 < length (parts_of separator behind.now)) }
{
    match separator_in(word, separator) {
        Some(end) => Part {
            part: &word[..end],
            behind: Some(&word[end + 1..]),
        },
        None => Part {
            part: word,
            behind: None,
        },
    }
}
