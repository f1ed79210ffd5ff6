ghost use Rattle.std.specs.Prelude.{◌≡◌, ◌≢◌, ◌<◌, ◌^◌, ◌++◌, ◌∷◌, [], ℕ, List, IfErr, IfOk, OnOk};
ghost use Rattle.std.specs.Char.{is_ascii_alphabetic, is_ascii_digit};
ghost use Rattle.std.specs.List.{AllByRecursion};
ghost use Rattle.vx_spec.specs.Runs.{past, run};
ghost use Rattle.vx_spec.specs.Numerals.{value};
ghost use Rattle.vx_scheme.specs.Values.{Faults, Gives};
ghost use Rattle.vx_order.specs.Scanning.{behind_token, scanned, token_entries};

use crate::scanning::{Scan, scan_text};
use std::alloc::Global;
use std::marker::PhantomData;
use std::str;
use vx_scheme::{List, NoMemory, VersionFault};
use vx_text::{Alphabetic, Digits, cut_run, number_of};

/// What tokens become: a run of digits by its value, a run of ASCII letters by its bytes, and each other byte.
pub trait Tokens {
    /// What a token becomes.
    type Entry: Drop;

    /// The entry of a number.
    ghost number: { ℕ → Self.Entry };

    /// The entry of a run of letters.
    ghost word: { List ℕ → Self.Entry };

    /// The entries of another byte. Room is made for one.
    ghost other: { ℕ → List Self.Entry };

    /// The entry is within its limit.
    ghost IsWithin: { Self.Entry → Type 0 };

    /// Appends the entry of a number.
    fn push_number(entries: &mut List<Self::Entry>, value: u128) -> Result<(), NoMemory>
        ensures { OnOk result (entries.new ≡ entries.old ++ number value ∷ []) };

    /// Appends the entry of a run of letters.
    fn push_word(entries: &mut List<Self::Entry>, letters: &str) -> Result<(), NoMemory>
        ensures { OnOk result (entries.new ≡ entries.old ++ word letters.now ∷ []) };

    /// Appends the entries of another byte.
    fn push_other(entries: &mut List<Self::Entry>, byte: u8) -> Result<(), NoMemory>
        ensures { OnOk result (entries.new ≡ entries.old ++ other byte) };

    /// A number within 128 bits is within its limit,
    ghost number_within: { (n : ℕ) → n < 2 ^ 128 → IsWithin (number n) };

    /// and no other is.
    ghost within_number: { (n : ℕ) → IsWithin (number n) → n < 2 ^ 128 };

    /// A run of letters has no limit,
    ghost word_within: { (letters : List ℕ) → IsWithin (word letters) };

    /// nor has another byte.
    ghost other_within: { (b : ℕ) → AllByRecursion IsWithin (other b) };
}

// A text that is scanned token by token.
struct ByToken<T> {
    tokens: PhantomData<T>,
}

impl<T: Tokens> Scan for ByToken<T> {
    ghost use Rattle.vx_order.specs.Laws.Scanning.{token_takes_a_byte};
    ghost use Rattle.vx_order.specs.Scanning.{behind_token, token_entries};

    type Entry = T::Entry;

    ghost first = { token_entries T.number T.word T.other };

    ghost behind = { behind_token };

    ghost IsWithin = { T.IsWithin };

    ghost takes_a_byte = { token_takes_a_byte };

    // A token has a byte at least, and one entry at most.
    fn most(len: usize) -> usize {
        len
    }

    fn push_first<'a>(
        entries: &mut List<T::Entry>,
        text: &'a [u8],
    ) -> Result<&'a [u8], VersionFault> {
        push_token::<T>(entries, text)
    }
}

/// The entries of the tokens of a text, in a list with room for one a byte. `Numeral` comes exactly where a run of digits passes
/// 2^128-1, unless memory ends before.
pub fn scan_tokens<T: Tokens>(alloc: Global, text: &[u8]) -> Result<List<T::Entry>, VersionFault>
    ensures { Gives (AllByRecursion T.IsWithin) result (scanned (token_entries T.number T.word T.other) behind_token text.now) }
{
    scan_text::<ByToken<T>>(alloc, text)
}

// Appends the entries of the token at the front of the text, and answers what stands behind it. `Numeral` comes only where
// it is digits past 2^128-1.
fn push_token<'a, T: Tokens>(
    entries: &mut List<T::Entry>,
    text: &'a [u8],
) -> Result<&'a [u8], VersionFault>
    requires { text.now ≢ [] }
    ensures ok { OnOk result (entries.new ≡ entries.old ++ token_entries T.number T.word T.other text.now) }
    ensures within { OnOk result (AllByRecursion T.IsWithin (token_entries T.number T.word T.other text.now)) }
    ensures rest { IfOk result (λ rest. rest.now ≡ behind_token text.now) }
    ensures err { IfErr result (Faults (AllByRecursion T.IsWithin (token_entries T.number T.word T.other text.now))) }
{
    let first = text[0];
    if first.is_ascii_digit() {
        push_digits::<T>(entries, text)
    } else if first.is_ascii_alphabetic() {
        Ok(push_letters::<T>(entries, text)?)
    } else {
        T::push_other(entries, first)?;
        Ok(&text[1..])
    }
}

fn push_digits<'a, T: Tokens>(
    entries: &mut List<T::Entry>,
    text: &'a [u8],
) -> Result<&'a [u8], VersionFault>
    ensures ok { OnOk result (entries.new ≡ entries.old ++ T.number (value (run is_ascii_digit text.now)) ∷ []) }
    ensures within { OnOk result (value (run is_ascii_digit text.now) < 2 ^ 128) }
    ensures rest { IfOk result (λ rest. rest.now ≡ past is_ascii_digit text.now) }
    ensures err { IfErr result (Faults (value (run is_ascii_digit text.now) < 2 ^ 128)) }
{
    let (digits, behind) = cut_run::<Digits>(text);
    let number = number_of(digits)?;
    T::push_number(entries, number)?;
    Ok(behind)
}

fn push_letters<'a, T: Tokens>(
    entries: &mut List<T::Entry>,
    text: &'a [u8],
) -> Result<&'a [u8], NoMemory>
    ensures ok { OnOk result (entries.new ≡ entries.old ++ T.word (run is_ascii_alphabetic text.now) ∷ []) }
    ensures rest { IfOk result (λ rest. rest.now ≡ past is_ascii_alphabetic text.now) }
{
    let (letters, behind) = cut_run::<Alphabetic>(text);
    match str::from_utf8(letters) {
        Ok(letters) => T::push_word(entries, letters)?,
        Err(_) => unreachable!(),
    }
    Ok(behind)
}
