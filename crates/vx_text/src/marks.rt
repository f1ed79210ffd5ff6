ghost use Rattle.std.specs.Prelude.{◌≡◌, ◌==◌, ◌+◌, ◌<◌, ◌≤◌, IfOk, IsTrue, MatchOption, length, map};
ghost use Rattle.std.specs.Option.{option_copied};
ghost use Rattle.std.specs.List.{join_with_byte, slice_split};
ghost use Rattle.vx_spec.specs.Marks.{IsCut, IsFirstCut, IsLastCut};
ghost use Rattle.vx_text.specs.Steps.Places.{IsFirstAt, LacksBefore};

use std::alloc::{AllocError, Global};

/// The text before the first mark, and the text behind it. The mark is an ASCII character. It takes no memory.
pub fn cut(text: &str, mark: char) -> (&str, Option<&str>)
    requires { mark < 128 }
    ensures { IsCut mark text.now result.0.now (option_copied result.1) }
{
    match place_of(text.as_bytes(), mark as u8) {
        Some(at) => (&text[..at], Some(&text[at + 1..])),
        None => (text, None),
    }
}

/// The text before the first mark, where there is one, and the rest. The mark is an ASCII character. It takes no
/// memory.
pub fn first_cut(text: &str, mark: char) -> (Option<&str>, &str)
    requires { mark < 128 }
    ensures { IsFirstCut mark text.now (option_copied result.0) result.1.now }
{
    match cut(text, mark) {
        (front, Some(behind)) => (Some(front), behind),
        (whole, None) => (None, whole),
    }
}

/// The bytes before the first mark, and those behind it. It takes no memory.
pub fn cut_bytes(text: &[u8], mark: u8) -> (&[u8], Option<&[u8]>)
    ensures { IsCut mark text.now result.0.now (option_copied result.1) }
{
    match place_of(text, mark) {
        Some(at) => (&text[..at], Some(&text[at + 1..])),
        None => (text, None),
    }
}

/// The place of the first mark.
fn place_of(text: &[u8], mark: u8) -> Option<usize>
    ensures { MatchOption result (LacksBefore mark text.now (length text.now)) (IsFirstAt mark text.now) }
{
    'bytes: for at in past_eights(text, mark)..text.len() {
        if text[at] == mark {
            return Some(at);
        }
    }
    None
}

/// How many bytes at the front lack the mark, tested by eights.
fn past_eights(text: &[u8], mark: u8) -> usize
    ensures within { result ≤ length text.now }
    ensures before { LacksBefore mark text.now result }
{
    let mut at = 0;
    'eights: while 8 <= text.len() - at && lacks_eight(text, mark, at) {
        at += 8;
    }
    at
}

/// Whether the eight bytes from `at` on lack the mark. None is passed over, so that one instruction compares them all.
fn lacks_eight(text: &[u8], mark: u8, at: usize) -> bool
    requires within { at + 8 ≤ length text.now }
    requires before { LacksBefore mark text.now at }
    ensures { IsTrue result → LacksBefore mark text.now (at + 8) }
{
    let stands = (text[at] == mark)
        | (text[at + 1] == mark)
        | (text[at + 2] == mark)
        | (text[at + 3] == mark)
        | (text[at + 4] == mark)
        | (text[at + 5] == mark)
        | (text[at + 6] == mark)
        | (text[at + 7] == mark);
    !stands
}

/// The bytes before the last mark, and those behind it. It takes no memory.
pub fn last_cut(text: &[u8], mark: u8) -> (&[u8], Option<&[u8]>)
    ensures { IsLastCut mark text.now result.0.now (option_copied result.1) }
{
    match text.iter().rposition(|byte| *byte == mark) {
        Some(at) => (&text[..at], Some(&text[at + 1..])),
        None => (text, None),
    }
}

/// The parts between the separators. The separator is an ASCII character.
pub fn parts(alloc: Global, text: &str, separator: char) -> Result<Vec<&str>, AllocError>
    requires { separator < 128 }
    ensures joined { IfOk result (λ v. join_with_byte separator (map (λ part. part.now) v.items) ≡ text.now) }
    ensures cut { IfOk result (λ v. map (λ part. part.now) v.items ≡ slice_split (λ b. b == separator) text.now) }
{
    text.split(separator).collect(alloc)
}
