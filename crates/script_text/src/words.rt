ghost use Rattle.std.specs.Prelude.{◌≡◌, ◌==◌, ◌<◌, not, [], ◌∷◌, length, position, MatchOption, IfSome};
ghost use Rattle.std.specs.List.{list_all};
ghost use Rattle.script_text.specs.Words.{is_blank, is_comment, is_option, is_printable, words_of};

use memchr::memchr2;

fn is_blank(b: u8) -> bool
    ensures { result ≡ is_blank b }
{
    b == b' ' || b == b'\t'
}

fn word_start(line: &[u8]) -> Option<usize>
    ensures { result ≡ position (λ b. not (is_blank b)) line.now }
{
    line.iter().position(|b| !is_blank(*b))
}

fn word_end(line: &[u8]) -> Option<usize>
    ensures { result ≡ position is_blank line.now }
{
    memchr2(b' ', b'\t', line)
}

/// The first word of a line and what stands behind it, where there is a word.
#[tactic(auto, using(crate::proofs::WordLemmas::words_of_blanks))]
pub fn next_word(line: &[u8]) -> Option<(&[u8], &[u8])>
    ensures words { MatchOption result (words_of line.now ≡ []) (λ split. words_of line.now ≡ split.0.now ∷ words_of split.1.now) }
    ensures shorter { IfSome result (λ split. length split.1.now < length line.now) }
{
    let Some(start) = word_start(line) else {
        return None;
    };
    let word = &line[start..];
    match word_end(word) {
        Some(end) => Some((&word[..end], &word[end..])),
        None => Some((word, &[])),
    }
}

fn is_printable(b: u8) -> bool
    ensures { result ≡ is_printable b }
{
    matches!(b, b' '..=b'~' | b'\t')
}

/// Whether all bytes are printable ASCII or tabs.
pub fn are_printable(line: &[u8]) -> bool
    ensures { result ≡ list_all is_printable line.now }
{
    let mut printable = true;
    for b in line {
        printable &= is_printable(*b);
    }
    printable
}

/// Whether a line with this first word is a comment.
pub fn is_comment(word: &[u8]) -> bool
    ensures { result ≡ is_comment word.now }
{
    word.starts_with(b"#")
}

/// Whether the word names an option.
pub fn is_option(word: &[u8]) -> bool
    ensures { result ≡ is_option word.now }
{
    word.starts_with(b"-")
}
