//! Decimal numbers, in one place for what reads them and what prints them.

ghost use Rattle.std.specs.Prelude.{◌≡◌, ◌≤◌, length, IfSome};
ghost use Rattle.std.specs.Fmt.{decimal};
ghost use Rattle.script_text.specs.Numbers.{numeral, number_of, number_within, printed_number};
ghost use Rattle.xio.specs.Printing.{Prints};

use xio::Printer;

/// The number of digits.
#[tactic(auto, unfolding(crate::specs::Numbers::are_digits))]
fn numeral(digits: &[u8]) -> Option<u128>
    requires { length digits.now ≤ 20 }
    ensures { result ≡ numeral digits.now }
{
    let mut number = 0;
    for digit in digits {
        let value = char::from(*digit).to_digit(10)?;
        number = number * 10 + u128::from(value);
    }
    Some(number)
}

/// The number of 1 to 20 digits.
pub fn number_of(word: &[u8]) -> Option<u128>
    ensures { result ≡ number_of word.now }
{
    if word.is_empty() || word.len() > 20 {
        return None;
    }
    numeral(word)
}

/// The number of 1 to 20 digits, where it is in the range.
pub fn number_within(low: u32, high: u32, word: &[u8]) -> Option<u32>
    ensures value { result ≡ number_within low high word.now }
    ensures range { IfSome result (λ number. number ≤ high) }
{
    let number = number_of(word)?;
    if number < u128::from(low) || number > u128::from(high) {
        return None;
    }
    Some(number as u32)
}

/// The number below 2^32 that is printed so.
#[tactic(auto, unfolding(crate::specs::Numbers::printed_number))]
pub fn printed_number(word: &[u8]) -> Option<u32>
    ensures { result ≡ printed_number word.now }
{
    if word.len() > 1 && word[0] == b'0' {
        return None;
    }
    number_within(0, u32::MAX, word)
}

/// Prints a number.
pub fn print_number<P: Printer>(printer: &mut P, number: u128) -> Result<(), P::End>
    ensures { Prints P.tells P.counts (P.state printer.old) (P.state printer.new) (decimal number) result }
{
    let mut digits = itoa::Buffer::new();
    printer.print(digits.format(number).as_bytes())
}
