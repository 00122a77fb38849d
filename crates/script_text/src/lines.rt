ghost use Rattle.std.specs.Prelude.{◌≡◌, ℕ, ◌<◌, ◌==◌, nat_lt, [], ◌∷◌, length, position, IfSome, MatchOption};
ghost use Rattle.std.specs.Str.Lines.{lines, strip_carriage_return};

use memchr::memchr;

/// The place of the first line feed.
fn line_feed(bytes: &[u8]) -> Option<usize>
    ensures { result ≡ position (λ b. b == 10) bytes.now }
{
    memchr(b'\n', bytes)
}

/// A line that ended with a line feed, without the carriage return before it.
fn without_return(line: &[u8]) -> &[u8]
    ensures { result.now ≡ strip_carriage_return line.now }
{
    match line.split_last() {
        Some((b'\r', front)) => front,
        _ => line,
    }
}

/// The first line and the bytes behind it, where there is a line.
#[tactic(auto, using(crate::proofs::LineLemmas::lines_feed, crate::proofs::LineLemmas::lines_no_feed))]
pub fn split_line(bytes: &[u8]) -> Option<(&[u8], &[u8])>
    ensures lines { MatchOption result (lines bytes.now ≡ []) (λ split. lines bytes.now ≡ split.0.now ∷ lines split.1.now) }
    ensures shorter { IfSome result (λ split. length split.1.now < length bytes.now) }
{
    if bytes.is_empty() {
        return None;
    }
    match line_feed(bytes) {
        Some(end) => Some((without_return(&bytes[..end]), &bytes[end + 1..])),
        None => Some((bytes, &[])),
    }
}

/// Whether there are more lines than the limit.
pub fn has_more_lines(bytes: &[u8], limit: u32) -> bool
    ensures { result ≡ nat_lt limit (length (lines bytes.now)) }
{
    let mut rest = bytes;
    for _ in 0..limit {
        match split_line(rest) {
            Some((_, behind)) => rest = behind,
            None => return false,
        }
    }
    split_line(rest).is_some()
}
