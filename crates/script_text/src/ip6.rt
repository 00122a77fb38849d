ghost use Rattle.std.specs.Prelude.{◌≡◌, ◌==◌, ◌&&◌, ◌+◌, ◌^◌, ◌*◌, ◌-◌, ◌<◌, ◌≤◌, length, IfSome, MatchOption, None, Some};
ghost use Rattle.script_text.specs.Addresses.{groups_of, gap_of, sides_of, ip6_of};

use crate::hexadecimal::group_of;
use crate::parts::first_part;

/// Groups of 16 bits: how many, at most eight, and their number.
#[derive(Clone, Copy)]
struct Groups {
    count: u32,
    number: u128,
}

/// Groups with colons between, or none.
#[tactic(auto, unfolding(crate::specs::Addresses::groups_of))]
fn groups_of(text: &[u8]) -> Option<Groups>
    ensures groups { MatchOption result (groups_of text.now ≡ None)
        (λ groups. groups_of text.now ≡ Some (record { count = groups.count; number = groups.number })) }
    ensures few { IfSome result (λ groups. groups.count ≤ 8) }
    ensures small { IfSome result (λ groups. groups.number < 65536 ^ groups.count) }
{
    let mut groups = Groups {
        count: 0,
        number: 0,
    };
    if text.is_empty() {
        return Some(groups);
    }
    let mut rest = text;
    while groups.count < 8 {
        let part = first_part(rest, b':');
        let group = group_of(part.part)?;
        groups.count += 1;
        groups.number = groups.number * 65_536 + u128::from(group);
        match part.behind {
            Some(behind) => rest = behind,
            None => return Some(groups),
        }
    }
    None
}

fn are_colons(a: u8, b: u8) -> bool
    ensures { result ≡ ((a == 58) && (b == 58)) }
{
    a == b':' && b == b':'
}

/// The place of the first `::`.
fn gap_of(text: &[u8]) -> Option<usize>
    ensures value { result ≡ gap_of text.now }
    ensures within { IfSome result (λ place. place + 2 ≤ length text.now) }
{
    for behind in 1..text.len() {
        if are_colons(text[behind - 1], text[behind]) {
            return Some(behind - 1);
        }
    }
    None
}

/// The number of the groups before `::`, with groups of zero behind them up to the eighth.
fn raised(groups: &Groups) -> u128
    requires few { groups.now.count ≤ 8 }
    requires small { groups.now.number < 65536 ^ groups.now.count }
    ensures { result ≡ groups.now.number * 65536 ^ (8 - groups.now.count) }
{
    let mut number = groups.number;
    let mut count = groups.count;
    while count < 8 {
        number *= 65_536;
        count += 1;
    }
    number
}

fn sides_of(high: &Groups, low: &Groups) -> Option<u128>
    requires few { high.now.count ≤ 8 }
    requires fewer { low.now.count ≤ 8 }
    requires high { high.now.number < 65536 ^ high.now.count }
    requires low { low.now.number < 65536 ^ low.now.count }
    ensures { result ≡ sides_of (record { count = high.now.count; number = high.now.number })
        (record { count = low.now.count; number = low.now.number }) }
{
    if high.count + low.count >= 8 {
        return None;
    }
    Some(raised(high) + low.number)
}

/// The number of an IPv6 address; its first byte is the highest.
#[tactic(auto, unfolding(crate::specs::Addresses::ip6_of))]
pub fn ip6_of(word: &[u8]) -> Option<u128>
    ensures { result ≡ ip6_of word.now }
{
    let Some(place) = gap_of(word) else {
        let groups = groups_of(word)?;
        return (groups.count == 8).then_some(groups.number);
    };
    let high = groups_of(&word[..place])?;
    let low = groups_of(&word[place + 2..])?;
    sides_of(&high, &low)
}
