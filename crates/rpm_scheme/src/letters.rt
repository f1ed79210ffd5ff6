ghost use Rattle.std.specs.List.{AllByRecursion};
ghost use Rattle.std.specs.Prelude.{[], ◌++◌, ◌∷◌, ◌≡◌, OnOk};
ghost use Rattle.vx_scheme.specs.Values.{Gives};
ghost use Rattle.vx_order.specs.Letters.{LetterIsWithin};
ghost use Rattle.rpm_scheme.specs.Version.{letters_of, sign_letter};

use std::alloc::Global;
use vx_order::{Letter, Letters, Tokens, scan_tokens};
use vx_scheme::{NoMemory, Text, VersionFault};

// The ranks of letters.
const TILDE: u32 = 0;

const CARET: u32 = 2;

const WORD: u32 = 3;

const NUMBER: u32 = 4;

// The letters of tokens.
struct TokenLetters;

impl Tokens for TokenLetters {
    ghost use Rattle.rpm_scheme.specs.Laws.Within.{sign_within, word_within};
    ghost use Rattle.vx_order.specs.Letters.{LetterIsWithin};
    ghost use Rattle.rpm_scheme.specs.Version.{count_letter, sign_letters, word_letter};

    type Entry = Letter;

    ghost number = { count_letter };

    ghost word = { word_letter };

    ghost other = { sign_letters };

    ghost IsWithin = { LetterIsWithin };

    ghost number_within = { λ _ small. small };

    ghost within_number = { λ _ small. small };

    ghost word_within = { word_within };

    ghost other_within = { sign_within };

    fn push_number(letters: &mut Letters, value: u128) -> Result<(), NoMemory> {
        let text = Text::new(letters.alloc());
        letters.push(Letter {
            rank: NUMBER,
            number: value,
            text,
        })
    }

    fn push_word(letters: &mut Letters, word: &str) -> Result<(), NoMemory> {
        let text = Text::copy_of(letters.alloc(), word)?;
        letters.push(Letter {
            rank: WORD,
            number: 0,
            text,
        })
    }

    // `~` and `^` are letters; any other byte only parts tokens.
    fn push_other(letters: &mut Letters, byte: u8) -> Result<(), NoMemory> {
        match byte {
            b'~' => push_sign(letters, TILDE),
            b'^' => push_sign(letters, CARET),
            _ => Ok(()),
        }
    }
}

/// The letters of a part, in a list that does not grow. `Numeral` comes exactly where a run of digits passes 2^128-1, unless
/// memory ends before.
pub(crate) fn letters(alloc: Global, part: &[u8]) -> Result<Letters, VersionFault>
    ensures { Gives (AllByRecursion LetterIsWithin) result (letters_of part.now) }
{
    scan_tokens::<TokenLetters>(alloc, part)
}

fn push_sign(letters: &mut Letters, rank: u32) -> Result<(), NoMemory>
    ensures { OnOk result (letters.new ≡ letters.old ++ sign_letter rank ∷ []) }
{
    let text = Text::new(letters.alloc());
    letters.push(Letter {
        rank,
        number: 0,
        text,
    })
}
