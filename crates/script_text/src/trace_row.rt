ghost use Rattle.std.specs.Prelude.{◌≡◌};
ghost use Rattle.script_text.specs.TraceRead.{is_heading, is_way, row_of};
ghost use Rattle.script_text.specs.Words.{parts_of};

use crate::hexadecimal::are_printed_pairs;
use crate::numbers::printed_number;
use crate::parts::{Part, first_part};
use crate::vocabulary::action_of;

/// What a line of the trace says of a packet: its processor, its place from 0 among that processor's packets of the phase, and
/// with how many publications it was carried.
#[derive(Clone, Copy)]
pub struct CountRow {
    pub processor: u32,
    pub place: u32,
    pub count: u32,
}

/// Whether the words say what became of a packet.
#[tactic(auto, unfolding(crate::specs::TraceRead::is_way))]
fn is_way(words: &[u8]) -> bool
    ensures { result ≡ is_way (parts_of 32 words.now) }
{
    let Part {
        part: verdict,
        behind,
    } = first_part(words, b' ');
    let Some(behind) = behind else {
        return false;
    };
    let Part {
        part: target,
        behind,
    } = first_part(behind, b' ');
    let Some(behind) = behind else {
        return false;
    };
    let Part { part: size, behind } = first_part(behind, b' ');
    let Some(behind) = behind else {
        return false;
    };
    let Part {
        part: digits,
        behind,
    } = first_part(behind, b' ');
    behind.is_none()
        && action_of(verdict).is_some()
        && printed_number(target).is_some()
        && printed_number(size).is_some()
        && are_printed_pairs(digits)
}

/// The packet of a line.
#[tactic(auto, unfolding(crate::specs::TraceRead::row_of, crate::specs::TraceRead::is_way))]
pub fn row_of(line: &[u8]) -> Option<CountRow>
    ensures { result ≡ row_of line.now }
{
    let Part {
        part: processor,
        behind,
    } = first_part(line, b' ');
    let Part {
        part: place,
        behind,
    } = first_part(behind?, b' ');
    let Part {
        part: count,
        behind,
    } = first_part(behind?, b' ');
    if !is_way(behind?) {
        return None;
    }
    Some(CountRow {
        processor: printed_number(processor)?,
        place: printed_number(place)?,
        count: printed_number(count)?,
    })
}

/// Whether a line is the heading of the phase of this number.
#[tactic(auto, unfolding(crate::specs::TraceRead::is_heading))]
pub fn is_heading(number: u64, line: &[u8]) -> bool
    ensures { result ≡ is_heading number line.now }
{
    let Part { part: word, behind } = first_part(line, b' ');
    let Some(behind) = behind else {
        return false;
    };
    let Part {
        part: digits,
        behind,
    } = first_part(behind, b' ');
    if behind.is_some() || word != b"phase".as_slice() {
        return false;
    }
    match printed_number(digits) {
        Some(read) => u64::from(read) == number,
        None => false,
    }
}
