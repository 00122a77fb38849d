//! How a block begins: its type, its length, and the byte order that a section header sets.

ghost use Rattle.std.specs.Prelude.{◌≡◌, ◌%◌, ◌≤◌, [], ◌∷◌, IfOk, length};
ghost use Rattle.pcapng_text.specs.Endian.{u32_at};
ghost use Rattle.pcapng_text.specs.Rule.{first_broken, RefusesAs};
ghost use Rattle.pcapng_text.specs.Start.{is_bad_size, is_section, magic_order, order_of, size_of, start_rules};

use crate::endian::Endian;
use crate::rule::Rule;

pub(crate) const SECTION_HEADER: u32 = 0x0a0d_0d0a;

const BYTE_ORDER_MAGIC: u32 = 0x1a2b_3c4d;

/// A block's type and length, and for a section header its magic.
pub(crate) const START_SIZE: usize = 12;

const MAX_BLOCK_SIZE: u32 = 16_777_216;

#[derive(Clone, Copy)]
pub(crate) struct Start {
    pub endian: Endian,
    /// The length of the whole block.
    pub size: u32,
}

#[tactic(auto, unfolding(crate::specs::Start::is_section))]
fn is_section(head: &[u8]) -> bool
    requires { 12 ≤ length head.now }
    ensures { result ≡ is_section head.now }
{
    Endian::Little.u32_at(head, 0) == SECTION_HEADER
}

#[tactic(auto, unfolding(crate::specs::Start::magic_order))]
fn magic_order(head: &[u8]) -> Option<Endian>
    requires { 12 ≤ length head.now }
    ensures { result ≡ magic_order head.now }
{
    if Endian::Little.u32_at(head, 8) == BYTE_ORDER_MAGIC {
        return Some(Endian::Little);
    }
    if Endian::Big.u32_at(head, 8) == BYTE_ORDER_MAGIC {
        return Some(Endian::Big);
    }
    None
}

/// Tests a length, where the byte order is known.
#[tactic(auto, unfolding(crate::specs::Start::is_bad_size))]
fn sized(endian: Endian, head: &[u8]) -> Result<Start, Rule>
    requires { 12 ≤ length head.now }
    ensures rules { RefusesAs result (first_broken ((is_bad_size (u32_at endian head.now 4), Rule.BadLength) ∷ [])) }
    ensures order { IfOk result (λ start. start.endian ≡ endian) }
    ensures size { IfOk result (λ start. start.size ≡ u32_at endian head.now 4) }
    ensures some { IfOk result (λ start. 12 ≤ start.size) }
    ensures even { IfOk result (λ start. start.size % 4 ≡ 0) }
    ensures bounded { IfOk result (λ start. start.size ≤ 16777216) }
{
    let size = endian.u32_at(head, 4);
    if size < 12 || size % 4 != 0 || size > MAX_BLOCK_SIZE {
        return Err(Rule::BadLength);
    }
    Ok(Start { endian, size })
}

/// How the block at a place begins, where the section before it has this byte order.
#[tactic(auto, unfolding(crate::specs::Start::start_rules, crate::specs::Start::order_of, crate::specs::Start::size_of))]
pub(crate) fn read_start(place: u64, endian: Endian, head: &[u8]) -> Result<Start, Rule>
    ensures rules { RefusesAs result (first_broken (start_rules place endian head.now)) }
    ensures order { IfOk result (λ start. start.endian ≡ order_of endian head.now) }
    ensures size { IfOk result (λ start. start.size ≡ size_of endian head.now) }
    ensures some { IfOk result (λ start. 12 ≤ start.size) }
    ensures even { IfOk result (λ start. start.size % 4 ≡ 0) }
    ensures bounded { IfOk result (λ start. start.size ≤ 16777216) }
{
    if head.len() < START_SIZE {
        return Err(Rule::ShortRest);
    }
    if !is_section(head) {
        if place == 0 {
            return Err(Rule::NoSection);
        }
        return sized(endian, head);
    }
    match magic_order(head) {
        Some(own) => sized(own, head),
        None => Err(Rule::BadMagic),
    }
}
