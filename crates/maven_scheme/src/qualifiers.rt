ghost use Rattle.std.specs.Prelude.{◌≡◌, IfOk, bytes_eq};
ghost use Rattle.vx_text.specs.Folding.{lowered};
ghost use Rattle.maven_scheme.specs.Version.{plain_letter};
ghost use Rattle.maven_scheme.specs.Letters.{full_name, qualifier_letter};

use std::alloc::Global;
use vx_order::Letter;
use vx_scheme::{NoMemory, Text};
use vx_text::lower;

// The ranks of qualifiers. The end of a list stands between `SNAPSHOT` and `EMPTY`.
const ALPHA: u32 = 0;

const BETA: u32 = 1;

const MILESTONE: u32 = 2;

const CANDIDATE: u32 = 3;

const SNAPSHOT: u32 = 4;

/// The rank of the empty qualifier.
pub(crate) const EMPTY: u32 = 6;

const SERVICE_PACK: u32 = 7;

const OTHER: u32 = 8;

/// The letter of a qualifier, after the shorthands are written out.
pub(crate) fn qualifier(alloc: Global, word: &str, before_digit: bool) -> Result<Letter, NoMemory>
    ensures { IfOk result (λ letter. letter ≡ qualifier_letter (full_name before_digit (lowered word.now))) }
{
    ranked(alloc, alias(word, before_digit))
}

// What a shorthand stands for, or the word itself.
fn alias(word: &str, before_digit: bool) -> &str
    ensures { lowered result.now ≡ full_name before_digit (lowered word.now) }
{
    if before_digit && is_word(word, "a") {
        "alpha"
    } else if before_digit && is_word(word, "b") {
        "beta"
    } else if before_digit && is_word(word, "m") {
        "milestone"
    } else if is_word(word, "cr") {
        "rc"
    } else if is_word(word, "final") || is_word(word, "ga") || is_word(word, "release") {
        ""
    } else {
        word
    }
}

// Whether the word is the other one, in any case of its letters.
fn is_word(word: &str, name: &str) -> bool
    ensures { result ≡ bytes_eq (lowered word.now) (lowered name.now) }
{
    word.eq_ignore_ascii_case(name)
}

fn ranked(alloc: Global, word: &str) -> Result<Letter, NoMemory>
    ensures { IfOk result (λ letter. letter ≡ qualifier_letter (lowered word.now)) }
{
    if is_word(word, "alpha") {
        Ok(plain_letter(alloc, ALPHA))
    } else if is_word(word, "beta") {
        Ok(plain_letter(alloc, BETA))
    } else if is_word(word, "milestone") {
        Ok(plain_letter(alloc, MILESTONE))
    } else if is_word(word, "rc") {
        Ok(plain_letter(alloc, CANDIDATE))
    } else if is_word(word, "snapshot") {
        Ok(plain_letter(alloc, SNAPSHOT))
    } else if is_word(word, "") {
        Ok(plain_letter(alloc, EMPTY))
    } else if is_word(word, "sp") {
        Ok(plain_letter(alloc, SERVICE_PACK))
    } else {
        other_letter(alloc, word)
    }
}

fn plain_letter(alloc: Global, rank: u32) -> Letter
    ensures { result ≡ plain_letter rank }
{
    Letter {
        rank,
        number: 0,
        text: Text::new(alloc),
    }
}

fn other_letter(alloc: Global, word: &str) -> Result<Letter, NoMemory>
    ensures { IfOk result (λ letter. letter ≡ record { rank = OTHER; number = 0; text = lowered word.now }) }
{
    Ok(Letter {
        rank: OTHER,
        number: 0,
        text: lower(alloc, word)?,
    })
}
