ghost use Rattle.std.specs.Prelude.{◌≡◌, ◌≢◌, [], IfErr, IfOk, OnOk};
ghost use Rattle.std.specs.List.{AllByRecursion};
ghost use Rattle.vx_scheme.specs.Values.{Faults, Gives};
ghost use Rattle.vx_order.specs.Letters.{LetterIsWithin};
ghost use Rattle.maven_scheme.specs.Version.{is_dotted, is_null};
ghost use Rattle.maven_scheme.specs.Tokens.{behind_front, behind_next, front_token, next_token};
ghost use Rattle.maven_scheme.specs.Letters.{letter_of, letters_of};
ghost use Rattle.maven_scheme.specs.Steps.Tokens.{IsToken, token_letter};
ghost use Rattle.maven_scheme.specs.Steps.Nulls.{ends_null, with_letter, without_null_end};

use crate::qualifiers::{EMPTY, qualifier};
use crate::tokens::{Token, cut_separator, cut_token, token_count};
use std::alloc::Global;
use std::str;
use vx_order::{Letter, Letters};
use vx_scheme::{NoMemory, Text, VersionFault};
use vx_text::number_of;

// The ranks of numbers behind `-` and behind `.`.
const HYPHENED: u32 = 9;

const DOTTED: u32 = 10;

/// The letters of a version's text, in a list with room for its tokens. `Numeral` comes exactly where a run of digits
/// passes 2^128-1, unless memory ends before.
pub(crate) fn letters(alloc: Global, text: &[u8]) -> Result<Letters, VersionFault>
    ensures { Gives (AllByRecursion LetterIsWithin) result (letters_of text.now) }
{
    let mut letters = Letters::with_room(alloc, token_count(text))?;
    let mut rest = push_front(&mut letters, text, true)?;
    'tokens: while !rest.is_empty() {
        rest = push_next(&mut letters, rest)?;
    }
    drop_nulls(&mut letters);
    Ok(letters)
}

/// Appends the letter of the token that comes next, and answers what stands behind it.
fn push_next<'a>(letters: &mut Letters, rest: &'a [u8]) -> Result<&'a [u8], VersionFault>
    ensures ok { OnOk result (letters.new ≡ with_letter letters.old (letter_of (next_token rest.now))) }
    ensures within { OnOk result (LetterIsWithin (letter_of (next_token rest.now))) }
    ensures rest { IfOk result (λ behind. behind.now ≡ behind_next rest.now) }
    ensures err { IfErr result (Faults (LetterIsWithin (letter_of (next_token rest.now)))) }
{
    let (is_dotted, text) = cut_separator(rest);
    push_front(letters, text, is_dotted)
}

/// Appends the letter of the token at the front of the text, and answers what stands behind it.
fn push_front<'a>(
    letters: &mut Letters,
    text: &'a [u8],
    is_dotted: bool,
) -> Result<&'a [u8], VersionFault>
    ensures ok { OnOk result (letters.new ≡ with_letter letters.old (letter_of (front_token is_dotted text.now))) }
    ensures within { OnOk result (LetterIsWithin (letter_of (front_token is_dotted text.now))) }
    ensures rest { IfOk result (λ behind. behind.now ≡ behind_front text.now) }
    ensures err { IfErr result (Faults (LetterIsWithin (letter_of (front_token is_dotted text.now)))) }
{
    let (token, behind) = cut_token(text, is_dotted);
    let letter = letter_of(letters.alloc(), token)?;
    push(letters, letter)?;
    Ok(behind)
}

// Appends a letter. Null letters at the end of the list stay only before a number with `.`: before any other letter they
// are dropped, whether that one is kept or not, so that no letter is looked at twice.
fn push(letters: &mut Letters, letter: Letter) -> Result<(), NoMemory>
    ensures { OnOk result (letters.new ≡ with_letter letters.old letter) }
{
    if letter.rank != DOTTED {
        drop_nulls(letters);
    }
    letters.push(letter)
}

// Drops the null letters at the end of the list.
fn drop_nulls(letters: &mut Letters)
    ensures { letters.new ≡ without_null_end letters.old }
{
    'nulls: while ends_null(letters) {
        letters.pop();
    }
}

fn ends_null(letters: &Letters) -> bool
    ensures { result ≡ ends_null letters.now }
{
    match letters.as_slice().last() {
        Some(letter) => is_null(letter),
        None => false,
    }
}

fn is_null(letter: &Letter) -> bool
    ensures { result ≡ is_null letter.now }
{
    (letter.rank == EMPTY || letter.rank == HYPHENED || letter.rank == DOTTED) && letter.number == 0
}

fn letter_of(alloc: Global, token: Token<'_>) -> Result<Letter, VersionFault>
    requires { IsToken token }
    ensures { Gives LetterIsWithin result (token_letter token.entry) }
{
    match token {
        Token::Number(digits, is_dotted) => {
            let number = number_of(digits)?;
            Ok(Letter {
                rank: if is_dotted { DOTTED } else { HYPHENED },
                number,
                text: Text::new(alloc),
            })
        }
        Token::Qualifier(word, before_digit) => match str::from_utf8(word) {
            Ok(word) => Ok(qualifier(alloc, word, before_digit)?),
            Err(_) => unreachable!(),
        },
    }
}
