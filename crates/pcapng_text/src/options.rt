//! The options at a block's end.

ghost use Rattle.std.specs.Prelude.{◌≡◌, ◌+◌, ◌%◌, ◌^◌, ◌<◌, ◌≤◌, length, IsTrue, IfSome};
ghost use Rattle.std.specs.Option.{option_map};
ghost use Rattle.pcapng_text.specs.Options as option;

use crate::endian::Endian;

const END_OF_OPTIONS: u16 = 0;

/// The length of a value with the bytes that pad it to 32 bits.
#[tactic(auto, unfolding(crate::specs::Options::padded))]
pub(crate) fn padded(size: usize) -> usize
    requires { size < 2 ^ 32 }
    ensures value { result ≡ option.padded size }
    ensures enough { size ≤ result }
    ensures near { result ≤ size + 3 }
    ensures even { result % 4 ≡ 0 }
{
    (size + 3) / 4 * 4
}

#[tactic(auto, unfolding(crate::specs::Options::option_code))]
fn option_code(endian: Endian, rest: &[u8]) -> u16
    requires { 4 ≤ length rest.now }
    ensures { result ≡ option.option_code endian rest.now }
{
    endian.u16_at(rest, 0)
}

/// The length of an option's value.
#[tactic(auto, unfolding(crate::specs::Options::option_size))]
pub(crate) fn option_size(endian: Endian, rest: &[u8]) -> u16
    requires { 4 ≤ length rest.now }
    ensures { result ≡ option.option_size endian rest.now }
{
    endian.u16_at(rest, 2)
}

/// All bytes of an option.
#[tactic(auto, unfolding(crate::specs::Options::option_length))]
fn option_length(endian: Endian, rest: &[u8]) -> usize
    requires { 4 ≤ length rest.now }
    ensures value { result ≡ option.option_length endian rest.now }
    ensures some { 4 ≤ result }
    ensures even { result % 4 ≡ 0 }
{
    4 + padded(option_size(endian, rest) as usize)
}

/// Whether an option stands here.
#[tactic(auto, unfolding(crate::specs::Options::has_option))]
fn has_option(endian: Endian, rest: &[u8]) -> bool
    requires { length rest.now % 4 ≡ 0 }
    ensures value { result ≡ option.has_option endian rest.now }
    ensures some { IsTrue result → 4 ≤ length rest.now }
{
    !rest.is_empty() && option_code(endian, rest) != END_OF_OPTIONS
}

/// Whether no option passes the end.
#[tactic(auto, using(crate::proofs::OptionsIn::in_order))]
pub(crate) fn are_inside(endian: Endian, bytes: &[u8]) -> bool
    requires { length bytes.now % 4 ≡ 0 }
    ensures { result ≡ option.are_inside endian bytes.now }
{
    let mut rest = bytes;
    while has_option(endian, rest) {
        let size = option_length(endian, rest);
        if rest.len() < size {
            return false;
        }
        rest = &rest[size..];
    }
    true
}

/// The first option of a code, from its first byte on.
#[tactic(auto, using(crate::proofs::OptionsIn::in_order))]
pub(crate) fn option_of(endian: Endian, code: u16, bytes: &[u8]) -> Option<&[u8]>
    requires even { length bytes.now % 4 ≡ 0 }
    requires inside { IsTrue (option.are_inside endian bytes.now) }
    ensures value { option_map (λ found. found.now) result ≡ option.option_of endian code bytes.now }
    ensures inside { IfSome result (λ found. 4 + option.option_size endian found.now ≤ length found.now) }
{
    let mut rest = bytes;
    while has_option(endian, rest) {
        if option_code(endian, rest) == code {
            return Some(rest);
        }
        rest = &rest[option_length(endian, rest)..];
    }
    None
}
