ghost use Rattle.std.specs.Prelude.{◌≡◌, ◌↔◌, List};
ghost use Rattle.std.specs.Cmp.{IsTotalOrder};
ghost use Rattle.std.specs.declared.cmp.Ordering.TheVariants.{Equal};
ghost use Rattle.vx_spec.specs.Places.{endless};
ghost use Rattle.vx_order.specs.Letters.{letter_cmp, end_letter, letters_cmp, LettersCompareAs, without_end_letters};
ghost use Rattle.vx_order.specs.declared.letter.Letter.{Letter};

use crate::letter::{Letter, Letters};
use crate::places::compare_places;
use std::cmp::Ordering;

/// How two lists of letters compare, each thought of as continued without end by the letter of the end rank, the
/// number 0 and the empty text: the first place at which they differ decides. It takes no memory.
pub fn compare_letters(a: &Letters, b: &Letters, end_rank: u32) -> Ordering
    ensures value { result ≡ letters_cmp end_rank a.now b.now }
    ensures places { LettersCompareAs end_rank a.now b.now result }
{
    compare_places(a.len().max(b.len()), |i| compare_at(a, b, end_rank, i))
}

// The letters at a place, where one list may have ended.
fn compare_at(a: &Letters, b: &Letters, end_rank: u32, i: usize) -> Ordering
    ensures { result ≡ letter_cmp (endless (end_letter end_rank) a.now i) (endless (end_letter end_rank) b.now i) }
{
    match (a.as_slice().get(i), b.as_slice().get(i)) {
        (Some(x), Some(y)) => compare_letter(x, y),
        (Some(x), None) => compare_with_end(x, end_rank),
        (None, Some(y)) => compare_with_end(y, end_rank).reverse(),
        (None, None) => Ordering::Equal,
    }
}

fn compare_letter(a: &Letter, b: &Letter) -> Ordering
    ensures { result ≡ letter_cmp a.now b.now }
{
    a.rank
        .cmp(&b.rank)
        .then(a.number.cmp(&b.number))
        .then(a.text.as_str().cmp(b.text.as_str()))
}

fn compare_with_end(letter: &Letter, end_rank: u32) -> Ordering
    ensures { result ≡ letter_cmp letter.now (end_letter end_rank) }
{
    letter
        .rank
        .cmp(&end_rank)
        .then(letter.number.cmp(&0))
        .then(letter.text.as_str().cmp(""))
}

/// The order of lists of letters is total and transitive, goes by the first place at which two lists differ, and
/// lists compare as equal exactly where they are equal once the end letters at their ends are dropped.
pub fn order_by_letters(end_rank: u32)
    ensures total { IsTotalOrder (letters_cmp end_rank) }
    ensures places { (a b : List Letter) → LettersCompareAs end_rank a b (letters_cmp end_rank a b) }
    ensures equal { (a b : List Letter) → (letters_cmp end_rank a b ≡ Equal) ↔ (without_end_letters end_rank a ≡ without_end_letters end_rank b) }
{}
