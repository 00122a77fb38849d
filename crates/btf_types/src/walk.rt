//! The types of a section, one behind the other, and the rules B7 to B11 on them.

ghost use Rattle.std.specs.Prelude.{◌≡◌, ◌+◌, ◌<◌, ◌≤◌, ◌^◌, length, IfNone, IfOk, OnOk};
ghost use Rattle.std.specs.List.{AllByRecursion};
ghost use Rattle.btf_types.specs.Breaks.{first_broken, name_rules, reference_rules, type_rules, walk_rules, RefusesAs};
ghost use Rattle.btf_types.specs.Sections.{types_in};
ghost use Rattle.btf_types.specs.TypeBytes.{IsWhole};

use crate::bad_btf::BadBtf;
use crate::kind;
use crate::type_bytes::{bytes_behind, kind_of, names_below, references_below, type_len};

/// The first of the rules B7 to B9 that a type breaks.
#[tactic(auto, unfolding(crate::specs::Breaks::type_rules))]
fn type_break(head: &[u8], place: u64) -> Option<BadBtf>
    ensures rules { result ≡ first_broken (type_rules place head.now) }
    ensures whole { IfNone result (IsWhole head.now) }
{
    if head.len() < 12 {
        return Some(BadBtf {
            offset: place,
            rule: 7,
        });
    }
    if !kind::is_known(kind_of(head)) {
        return Some(BadBtf {
            offset: place,
            rule: 8,
        });
    }
    if head.len() < type_len(head) {
        return Some(BadBtf {
            offset: place,
            rule: 9,
        });
    }
    None
}

/// How many types there are, or what the first bad one of the walk breaks: B7 to B9.
#[tactic(auto, using(crate::proofs::TypesIn::in_order))]
pub(crate) fn count_types(section: &[u8], end: usize) -> Result<u32, BadBtf>
    requires few { length section.now < 2 ^ 32 }
    requires inside { length section.now ≤ end }
    ensures count { IfOk result (λ count. count ≡ length (types_in section.now)) }
    ensures whole { OnOk result (AllByRecursion IsWhole (types_in section.now)) }
    ensures rules { RefusesAs result (first_broken (walk_rules end (types_in section.now))) }
{
    let mut rest = section;
    let mut count = 0;
    while !rest.is_empty() {
        if let Some(bad) = type_break(rest, (end - rest.len()) as u64) {
            return Err(bad);
        }
        rest = bytes_behind(rest);
        count += 1;
    }
    Ok(count)
}

/// The first type of which a name is outside the strings: B10.
#[tactic(auto, using(crate::proofs::TypesIn::in_order))]
pub(crate) fn name_break(section: &[u8], end: usize, strings: usize) -> Option<BadBtf>
    requires whole { AllByRecursion IsWhole (types_in section.now) }
    requires inside { length section.now ≤ end }
    ensures { result ≡ first_broken (name_rules strings end (types_in section.now)) }
{
    let mut rest = section;
    while !rest.is_empty() {
        if !names_below(rest, strings as u64) {
            return Some(BadBtf {
                offset: (end - rest.len()) as u64,
                rule: 10,
            });
        }
        rest = bytes_behind(rest);
    }
    None
}

/// The first type that refers to a number above the number of types: B11.
#[tactic(auto, using(crate::proofs::TypesIn::in_order))]
pub(crate) fn reference_break(section: &[u8], end: usize, types: u32) -> Option<BadBtf>
    requires whole { AllByRecursion IsWhole (types_in section.now) }
    requires inside { length section.now ≤ end }
    ensures { result ≡ first_broken (reference_rules types end (types_in section.now)) }
{
    let mut rest = section;
    while !rest.is_empty() {
        if !references_below(rest, types as u64 + 1) {
            return Some(BadBtf {
                offset: (end - rest.len()) as u64,
                rule: 11,
            });
        }
        rest = bytes_behind(rest);
    }
    None
}
