ghost use Rattle.std.specs.Prelude.{◌≡◌, ◌≤◌, length, true, false, MatchOption};
ghost use Rattle.std.specs.Char.{is_ascii_digit};
ghost use Rattle.std.specs.List.{list_all};
ghost use Rattle.vx_spec.specs.Numerals.{is_numeral, value};
ghost use Rattle.vx_text.specs.Numeral.{IsReadAs};

use crate::runs::{Digits, is_made_of};
use thiserror::Error;

/// So many digits are below 2^64, whichever they are.
pub(crate) const MOST_SHORT: usize = 19;

/// Why a text is not read as a number.
#[derive(Clone, Copy, Debug, PartialEq, Eq, Error)]
pub enum NumeralFault {
    /// The text is empty, or holds a byte that is no ASCII digit.
    #[error("NotDigits")]
    NotDigits,
    /// It is digits, and their value passes 2^128-1.
    #[error("TooLarge")]
    TooLarge,
}

/// Whether the text is one or more ASCII digits. It takes no memory.
pub fn is_numeral(text: &[u8]) -> bool
    ensures { result ≡ is_numeral text.now }
{
    is_made_of::<Digits>(text)
}

/// The number that the digits write; leading zeros are accepted. `NotDigits` comes exactly where the text is no
/// numeral, and `TooLarge` exactly where it is one past 2^128-1. It takes no memory.
pub fn numeral(text: &str) -> Result<u128, NumeralFault>
    ensures { IsReadAs text.now result }
{
    if text.is_empty() {
        return Err(NumeralFault::NotDigits);
    }
    if MOST_SHORT < text.len() {
        return long_numeral(text);
    }
    match short_value(text.as_bytes()) {
        Some(number) => Ok(u128::from(number)),
        None => Err(NumeralFault::NotDigits),
    }
}

/// The value of digits, so few that it is below 2^64, and 0 of none. `None` comes exactly where a byte is no digit.
pub(crate) fn short_value(text: &[u8]) -> Option<u64>
    requires { length text.now ≤ 19 }
    ensures { MatchOption result (list_all is_ascii_digit text.now ≡ false) (λ number. (list_all is_ascii_digit text.now ≡ true) × (number ≡ value text.now)) }
{
    let mut number = 0;
    for byte in text {
        if !byte.is_ascii_digit() {
            return None;
        }
        number = number * 10 + u64::from(*byte - b'0');
    }
    Some(number)
}

/// The same as `numeral`, for any number of digits.
fn long_numeral(text: &str) -> Result<u128, NumeralFault>
    ensures { IsReadAs text.now result }
{
    if !is_numeral(text.as_bytes()) {
        return Err(NumeralFault::NotDigits);
    }
    match text.parse::<u128>() {
        Ok(number) => Ok(number),
        Err(_) => Err(NumeralFault::TooLarge),
    }
}
