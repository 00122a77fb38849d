//! The header, and the two sections that it names.

ghost use Rattle.std.specs.Prelude.{◌≡◌, ◌<◌, ◌≤◌, ◌^◌, length, IfOk};
ghost use Rattle.btf_types.specs.Breaks.{are_bounded, first_broken, header_rules, RefusesAs};
ghost use Rattle.btf_types.specs.Sections.{strings_of, type_section, types_end};

use crate::bad_btf::BadBtf;
use crate::type_bytes::word_at;
use byteorder::{ByteOrder, LittleEndian};

const MAGIC: u16 = 0xeb9f;

const HEADER_LEN: usize = 24;

/// The types and the strings.
#[derive(Clone, Copy)]
pub(crate) struct Sections<'a> {
    pub types: &'a [u8],
    /// The place right behind the types.
    pub types_end: usize,
    pub strings: &'a [u8],
}

/// Whether strings aren't empty, and begin and end with a zero byte.
#[tactic(auto, unfolding(crate::specs::Breaks::are_bounded))]
fn are_bounded(strings: &[u8]) -> bool
    ensures { result ≡ are_bounded strings.now }
{
    !strings.is_empty() && strings[0] == 0 && strings[strings.len() - 1] == 0
}

/// The sections, or the first of the rules B1 to B6 that is broken.
#[tactic(auto, using(crate::proofs::Headers::some_string), unfolding(crate::specs::Breaks::header_rules, crate::specs::Sections::strings_of, crate::specs::Sections::type_section))]
pub(crate) fn sections_of(bytes: &[u8]) -> Result<Sections<'_>, BadBtf>
    ensures types { IfOk result (λ sections. sections.types.now ≡ type_section bytes.now) }
    ensures few { IfOk result (λ sections. length sections.types.now < 2 ^ 32) }
    ensures inside { IfOk result (λ sections. length sections.types.now ≤ sections.types_end) }
    ensures types_end { IfOk result (λ sections. sections.types_end ≡ types_end bytes.now) }
    ensures strings { IfOk result (λ sections. sections.strings.now ≡ strings_of bytes.now) }
    ensures some { IfOk result (λ sections. 0 < length sections.strings.now) }
    ensures rules { RefusesAs result (first_broken (header_rules bytes.now)) }
{
    if bytes.len() < HEADER_LEN {
        return Err(BadBtf { offset: 0, rule: 1 });
    }
    if LittleEndian::read_u16(bytes) != MAGIC {
        return Err(BadBtf { offset: 0, rule: 2 });
    }
    if bytes[2] != 1 {
        return Err(BadBtf { offset: 2, rule: 3 });
    }
    let header_end = word_at(bytes, 4) as usize;
    if header_end < HEADER_LEN || bytes.len() < header_end {
        return Err(BadBtf { offset: 4, rule: 4 });
    }
    let types_start = header_end + word_at(bytes, 8) as usize;
    let types_end = types_start + word_at(bytes, 12) as usize;
    if bytes.len() < types_end || word_at(bytes, 8) % 4 != 0 {
        return Err(BadBtf { offset: 8, rule: 5 });
    }
    let strings_start = header_end + word_at(bytes, 16) as usize;
    let strings_end = strings_start + word_at(bytes, 20) as usize;
    if bytes.len() < strings_end || !are_bounded(&bytes[strings_start..strings_end]) {
        return Err(BadBtf {
            offset: 16,
            rule: 6,
        });
    }
    Ok(Sections {
        types: &bytes[types_start..types_end],
        types_end,
        strings: &bytes[strings_start..strings_end],
    })
}
