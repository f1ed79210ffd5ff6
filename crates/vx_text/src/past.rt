ghost use Rattle.std.specs.Prelude.{◌≡◌, ◌+◌, ◌^◌, ◌<◌, ◌≤◌, IsTrue, IfOk, IfErr, length};
ghost use Rattle.std.specs.Char.{is_ascii_digit};
ghost use Rattle.std.specs.List.{list_all};
ghost use Rattle.vx_spec.specs.Numerals.{is_numeral, value};
ghost use Rattle.vx_scheme.specs.Values.{Gives};
ghost use Rattle.vx_text.specs.Past.{is_past, first_past};

use crate::numerals::{MOST_SHORT, NumeralFault, numeral, short_value};
use crate::runs::{Digits, cut_run};
use std::str;
use vx_scheme::VersionFault;

/// The number of a numeral. `Numeral` comes exactly where it passes 2^128-1. It takes no memory.
pub fn numeral_of(text: &str) -> Result<u128, VersionFault>
    requires { IsTrue (is_numeral text.now) }
    ensures gives { Gives (λ n. n < 2 ^ 128) result (value text.now) }
    ensures fault { IfErr result (λ fault. fault ≡ VersionFault.Numeral) }
{
    match numeral(text) {
        Ok(number) => Ok(number),
        Err(_) => Err(VersionFault::Numeral),
    }
}

/// The number of a run of digits, 0 where it is empty. `Numeral` comes exactly where it passes 2^128-1. It takes no
/// memory.
pub fn number_of(digits: &[u8]) -> Result<u128, VersionFault>
    requires { IsTrue (list_all is_ascii_digit digits.now) }
    ensures gives { Gives (λ n. n < 2 ^ 128) result (value digits.now) }
    ensures fault { IfErr result (λ fault. fault ≡ VersionFault.Numeral) }
{
    if MOST_SHORT < digits.len() {
        return long_number(digits);
    }
    match short_value(digits) {
        Some(number) => Ok(u128::from(number)),
        None => unreachable!(),
    }
}

/// The same as `number_of`, for any number of digits but none.
fn long_number(digits: &[u8]) -> Result<u128, VersionFault>
    requires some { 0 < length digits.now }
    requires digits { IsTrue (list_all is_ascii_digit digits.now) }
    ensures gives { Gives (λ n. n < 2 ^ 128) result (value digits.now) }
    ensures fault { IfErr result (λ fault. fault ≡ VersionFault.Numeral) }
{
    match str::from_utf8(digits) {
        Ok(text) => numeral_of(text),
        Err(_) => unreachable!(),
    }
}

/// Whether digits pass 2^128-1. It takes no memory.
pub fn is_past(digits: &[u8]) -> bool
    requires { IsTrue (list_all is_ascii_digit digits.now) }
    ensures { result ≡ is_past digits.now }
{
    match str::from_utf8(digits) {
        Ok(text) => is_too_large(text),
        Err(_) => unreachable!(),
    }
}

fn is_too_large(text: &str) -> bool
    requires { IsTrue (list_all is_ascii_digit text.now) }
    ensures { result ≡ is_past text.now }
{
    match numeral(text) {
        Ok(_) => false,
        Err(NumeralFault::NotDigits) => false,
        Err(NumeralFault::TooLarge) => true,
    }
}

/// Fewer digits are below 2^128.
const LEAST_PAST: usize = 39;

/// Where in a text that begins at this place, and in which each run of digits is a numeral, the first numeral begins that
/// passes 2^128-1. It takes no memory.
pub fn first_past(text: &[u8], at: usize) -> Option<usize>
    requires { at + length text.now < 2 ^ 64 }
    ensures { result ≡ first_past at text.now }
{
    if text.len() < LEAST_PAST {
        return None;
    }
    let mut from = at;
    let mut rest = text;
    'runs: while let [_, more @ ..] = rest {
        let (front, behind) = cut_run::<Digits>(rest);
        if is_past(front) {
            return Some(from);
        }
        if front.is_empty() {
            from += 1;
            rest = more;
        } else {
            from += front.len();
            rest = behind;
        }
    }
    None
}
