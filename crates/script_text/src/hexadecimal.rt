//! Hexadecimal digits, in one place for what reads them and what prints them: letters are read in either case, and printed in
//! the lower one.

ghost use Rattle.std.specs.Prelude.{◌≡◌, ◌≤◌, length, IfOk, option_map};
ghost use Rattle.std.specs.List.{list_all};
ghost use Rattle.std.specs.Result.{result_ok};
ghost use Rattle.hex.specs.Hex.{decode_of, encode_lower};
ghost use Rattle.script_text.specs.Addresses.{octet_of, four_digits, group_of};
ghost use Rattle.script_text.specs.TraceRead.{are_printed_pairs, is_printed_digit};
ghost use Rattle.xio.specs.Printing.{Prints};

use byteorder::{BigEndian, ByteOrder};
use hex::{FromHex, FromHexError};
use std::alloc::Global;
use xio::{OutOfMemory, Printer};

/// How many bytes are turned into digits at once.
const CHUNK: usize = 256;

const CHUNK_DIGITS: usize = 512;

/// The bytes of pairs of digits.
pub fn bytes_of_digits(alloc: Global, word: &[u8]) -> Result<Option<Vec<u8>>, OutOfMemory>
    ensures { IfOk result (λ read. option_map (λ bytes. bytes.items) read ≡ result_ok (decode_of word.now)) }
{
    match hex::decode(alloc, word) {
        Ok(bytes) => Ok(Some(bytes)),
        Err(FromHexError::OutOfMemory) => Err(OutOfMemory),
        Err(_) => Ok(None),
    }
}

/// The byte of two digits, the high one first.
#[tactic(auto, unfolding(crate::specs::Addresses::octet_of))]
pub fn octet_of(high: u8, low: u8) -> Option<u8>
    ensures { result ≡ octet_of high low }
{
    match <[u8; 1]>::from_hex([high, low]) {
        Ok(bytes) => Some(bytes[0]),
        Err(_) => None,
    }
}

/// One to four digits, with zeros in front of them up to the fourth.
fn four_digits(digits: &[u8]) -> Option<[u8; 4]>
    ensures { result ≡ four_digits digits.now }
{
    match digits {
        [d] => Some([b'0', b'0', b'0', *d]),
        [c, d] => Some([b'0', b'0', *c, *d]),
        [b, c, d] => Some([b'0', *b, *c, *d]),
        [a, b, c, d] => Some([*a, *b, *c, *d]),
        _ => None,
    }
}

/// The number of one to four digits.
#[tactic(auto, unfolding(crate::specs::Addresses::group_of))]
pub fn group_of(digits: &[u8]) -> Option<u16>
    ensures { result ≡ group_of digits.now }
{
    match <[u8; 2]>::from_hex(four_digits(digits)?) {
        Ok(bytes) => Some(BigEndian::read_u16(&bytes)),
        Err(_) => None,
    }
}

fn is_printed_digit(b: u8) -> bool
    ensures { result ≡ is_printed_digit b }
{
    matches!(b, b'0'..=b'9' | b'a'..=b'f')
}

/// Whether all bytes are digits as they are printed.
fn are_printed_digits(word: &[u8]) -> bool
    ensures { result ≡ list_all is_printed_digit word.now }
{
    let mut printed = true;
    for b in word {
        printed &= is_printed_digit(*b);
    }
    printed
}

/// Whether a word is what is printed of one or more bytes.
#[tactic(auto, unfolding(crate::specs::TraceRead::are_printed_pairs))]
pub fn are_printed_pairs(word: &[u8]) -> bool
    ensures { result ≡ are_printed_pairs word.now }
{
    word.len() >= 2 && word.len() % 2 == 0 && are_printed_digits(word)
}

/// Prints bytes in digits.
pub fn print_digits<P: Printer>(printer: &mut P, bytes: &[u8]) -> Result<(), P::End>
    ensures { Prints P.tells P.counts (P.state printer.old) (P.state printer.new) (encode_lower bytes.now) result }
{
    let mut rest = bytes;
    while !rest.is_empty() {
        let (front, behind) = rest.split_at(rest.len().min(CHUNK));
        print_chunk(printer, front)?;
        rest = behind;
    }
    Ok(())
}

fn print_chunk<P: Printer>(printer: &mut P, bytes: &[u8]) -> Result<(), P::End>
    requires { length bytes.now ≤ 256 }
    ensures { Prints P.tells P.counts (P.state printer.old) (P.state printer.new) (encode_lower bytes.now) result }
{
    let mut buffer = [0; CHUNK_DIGITS];
    let digits = &mut buffer[..2 * bytes.len()];
    match hex::encode_to_slice(bytes, digits) {
        Ok(()) => printer.print(digits),
        Err(_) => unreachable!(),
    }
}
