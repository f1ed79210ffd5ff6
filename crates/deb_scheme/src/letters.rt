ghost use Rattle.std.specs.Prelude.{◌≡◌, ◌++◌, ◌∷◌, [], IfErr, IfOk, OnOk, map};
ghost use Rattle.std.specs.List.{AllByRecursion};
ghost use Rattle.vx_scheme.specs.Values.{Faults, Gives};
ghost use Rattle.vx_order.specs.Letters.{LetterIsWithin};
ghost use Rattle.deb_scheme.specs.Version.{byte_rank, byte_letter, behind_pair, first_letters, letters_of};

use std::alloc::Global;
use vx_order::{Letter, Letters, Scan, scan_text};
use vx_scheme::{NoMemory, Text, VersionFault};
use vx_text::{ByteClass, Digits, cut_run, number_of};

// The ranks of letters.
const TILDE: u32 = 0;

const RUN_END: u32 = 1;

const ALPHABETIC: u32 = 2;

const OTHER: u32 = 3;

const NUMBER: u32 = 4;

// Every byte but the ASCII digits.
struct Others;

impl ByteClass for Others {
    ghost use Rattle.deb_scheme.specs.Version.{is_other};

    ghost holds = { is_other };

    fn is_one(byte: u8) -> bool {
        !byte.is_ascii_digit()
    }
}

// The letters of pairs.
struct PairLetters;

impl Scan for PairLetters {
    ghost use Rattle.deb_scheme.specs.Laws.Pairs.{behind_less};
    ghost use Rattle.vx_order.specs.Letters.{LetterIsWithin};
    ghost use Rattle.deb_scheme.specs.Version.{behind_pair, first_letters};

    type Entry = Letter;

    ghost first = { first_letters };

    ghost behind = { behind_pair };

    ghost IsWithin = { LetterIsWithin };

    ghost takes_a_byte = { behind_less };

    // One for each byte that is no digit, and two for each pair. Each pair but the last has a digit, so that the letters
    // are no more than the bytes, half as many again, and two.
    fn most(len: usize) -> usize {
        len.saturating_add(len / 2).saturating_add(2)
    }

    fn push_first<'a>(letters: &mut Letters, part: &'a [u8]) -> Result<&'a [u8], VersionFault> {
        push_pair(letters, part)
    }
}

/// The letters of a part, in a list that does not grow. `Numeral` comes exactly where a run of digits passes 2^128-1, unless
/// memory ends before.
pub(crate) fn letters(alloc: Global, part: &[u8]) -> Result<Letters, VersionFault>
    ensures { Gives (AllByRecursion LetterIsWithin) result (letters_of part.now) }
{
    scan_text::<PairLetters>(alloc, part)
}

// Appends the letters of the pair at the front of the part, and answers what stands behind it.
fn push_pair<'a>(letters: &mut Letters, part: &'a [u8]) -> Result<&'a [u8], VersionFault>
    ensures ok { OnOk result (letters.new ≡ letters.old ++ first_letters part.now) }
    ensures within { OnOk result (AllByRecursion LetterIsWithin (first_letters part.now)) }
    ensures rest { IfOk result (λ rest. rest.now ≡ behind_pair part.now) }
    ensures err { IfErr result (Faults (AllByRecursion LetterIsWithin (first_letters part.now))) }
{
    let (others, behind) = cut_run::<Others>(part);
    let (digits, rest) = cut_run::<Digits>(behind);
    let number = number_of(digits)?;
    push_others(letters, others)?;
    push_letter(letters, RUN_END, 0)?;
    push_letter(letters, NUMBER, number)?;
    Ok(rest)
}

fn push_others(letters: &mut Letters, others: &[u8]) -> Result<(), NoMemory>
    ensures { OnOk result (letters.new ≡ letters.old ++ map byte_letter others.now) }
{
    for byte in others {
        push_letter(letters, byte_rank(*byte), u128::from(*byte))?;
    }
    Ok(())
}

fn byte_rank(byte: u8) -> u32
    ensures { result ≡ byte_rank byte }
{
    if byte == b'~' {
        TILDE
    } else if byte.is_ascii_alphabetic() {
        ALPHABETIC
    } else {
        OTHER
    }
}

fn push_letter(letters: &mut Letters, rank: u32, number: u128) -> Result<(), NoMemory>
    ensures { OnOk result (letters.new ≡ letters.old ++ record { rank = rank; number = number; text = [] } ∷ []) }
{
    let text = Text::new(letters.alloc());
    letters.push(Letter { rank, number, text })
}
