ghost use Rattle.std.specs.Prelude.{◌≡◌, ◌≢◌, ◌<◌, ◌≤◌, ◌+◌, ◌^◌, [], ◌∷◌, false, length, map, take, drop, codes, IfOk, IfSome, IsTrue, MatchOption, ◌↔◌};
ghost use Rattle.std.specs.List.{AllByRecursion};
ghost use Rattle.vx_range.specs.Pieces.{as_written, all_as_written, IsInPlace};
ghost use Rattle.npm_range.specs.Cutting.{piece_from, behind_piece, first_piece, ArePieces, IsHyphenRange, place, sides, IsMadeOf, has_bars, IsCutAtBars, IsCut};
ghost use Rattle.npm_range.specs.Steps.Bars.{before_bars};

use std::alloc::{AllocError, Global};
use vx_range::{Few, Groups, Piece, Pieces};
use vx_text::{Blanks, ByteClass, Solids, cut_run, past_run};

/// What a piece is.
#[derive(Debug, Clone, Copy)]
pub enum Kind {
    /// A piece that is no side of a hyphen range: signs, blanks and a word.
    Plain,
    /// The first side of a hyphen range.
    Low,
    /// The second side of a hyphen range.
    High,
}

/// A piece of npm's range language.
pub(crate) type NpmPiece<'a> = Piece<'a, Kind>;

/// The bytes of operators.
pub(crate) struct Signs;

impl ByteClass for Signs {
    ghost use Rattle.npm_range.specs.Cutting.{is_sign};

    ghost holds = { is_sign };

    fn is_one(byte: u8) -> bool {
        byte == b'<' || byte == b'>' || byte == b'=' || byte == b'~' || byte == b'^'
    }
}

fn before_bars(text: &[u8]) -> usize
    ensures { result ≡ before_bars text.now }
{
    let mut at = 0;
    let mut rest = text;
    loop {
        match rest {
            [] => return at,
            [b'|', b'|', ..] => return at,
            [_, more @ ..] => {
                at += 1;
                rest = more;
            }
        }
    }
}

/// Where the first `||` begins.
fn bars(text: &[u8]) -> Option<usize>
    ensures cut { MatchOption result (has_bars text.now ≡ false) (λ n. IsCutAtBars text.now (take n text.now) (drop (n + 2) text.now)) }
    ensures within { IfSome result (λ n. n + 2 ≤ length text.now) }
{
    let at = before_bars(text);
    if at < text.len() { Some(at) } else { None }
}

/// The text before its first `||`, and what stands behind it.
fn cut_at_bars(text: &[u8]) -> Option<(&[u8], &[u8])>
    ensures cut { MatchOption result (has_bars text.now ≡ false) (λ r. IsCutAtBars text.now r.0.now r.1.now) }
    ensures within { IfSome result (λ r. length r.0.now + 2 + length r.1.now ≡ length text.now) }
{
    match bars(text) {
        Some(count) => Some((&text[..count], &text[count + 2..])),
        None => None,
    }
}

/// The first piece, and what stands behind it.
fn first_piece(text: &[u8], at: usize) -> Option<(NpmPiece<'_>, &[u8])>
    requires { at + length text.now < 2 ^ 64 }
    ensures piece { MatchOption result (piece_from text.now ≡ [])
        (λ r. (piece_from text.now ≢ []) × (as_written r.0 ≡ first_piece at text.now) × (r.1.now ≡ behind_piece text.now)) }
    ensures placed { IfSome result (λ r. IsInPlace (as_written r.0)) }
    ensures shorter { IfSome result (λ r. length r.1.now < length text.now) }
{
    let from = past_run::<Blanks>(text);
    if from.is_empty() {
        return None;
    }
    let behind_signs = past_run::<Signs>(from);
    let word = past_run::<Blanks>(behind_signs);
    let rest = past_run::<Solids>(word);
    let piece = Piece {
        kind: Kind::Plain,
        at: at + (text.len() - from.len()),
        bytes: &from[..from.len() - rest.len()],
    };
    Some((piece, rest))
}

/// The pieces of an alternative that is no hyphen range.
fn pieces_of(alloc: Global, text: &[u8], at: usize) -> Result<Pieces<'_, Kind>, AllocError>
    requires { at + length text.now < 2 ^ 64 }
    ensures pieces { IfOk result (λ v. ArePieces at text.now (all_as_written v)) }
    ensures placed { IfOk result (λ v. AllByRecursion IsInPlace (all_as_written v)) }
{
    let mut pieces = Few::new(alloc);
    let mut from = at;
    let mut rest = text;
    while let Some((piece, behind)) = first_piece(rest, from) {
        pieces.push(piece)?;
        from += rest.len() - behind.len();
        rest = behind;
    }
    Ok(pieces)
}

fn is_dash(text: &[u8]) -> bool
    ensures { IsTrue result ↔ (text.now ≡ codes "-") }
{
    match text {
        [b'-'] => true,
        _ => false,
    }
}

/// A side of a hyphen range, which begins in the text where this end of it does.
fn side<'a>(kind: Kind, text: &[u8], from: &[u8], run: &'a [u8], at: usize) -> NpmPiece<'a>
    requires within { length run.now ≤ length from.now }
    requires rest { length from.now ≤ length text.now }
    requires place { at + length text.now < 2 ^ 64 }
    ensures side { as_written result ≡ record { kind = kind; at = place at text.now from.now; bytes = run.now } }
    ensures placed { IsInPlace (as_written result) }
{
    Piece {
        kind,
        at: at + (text.len() - from.len()),
        bytes: run,
    }
}

/// The two sides of a hyphen range.
fn hyphen_range(text: &[u8], at: usize) -> Option<(NpmPiece<'_>, NpmPiece<'_>)>
    requires { at + length text.now < 2 ^ 64 }
    ensures sides { MatchOption result (¬ (IsHyphenRange text.now))
        (λ r. IsHyphenRange text.now × (as_written r.0 ∷ as_written r.1 ∷ [] ≡ sides at text.now)) }
    ensures placed { IfSome result (λ r. IsInPlace (as_written r.0) × IsInPlace (as_written r.1)) }
{
    let first = past_run::<Blanks>(text);
    let (low, behind) = cut_run::<Solids>(first);
    let second = past_run::<Blanks>(behind);
    let (middle, behind) = cut_run::<Solids>(second);
    let third = past_run::<Blanks>(behind);
    let (high, behind) = cut_run::<Solids>(third);
    let rest = past_run::<Blanks>(behind);
    if !low.is_empty() && is_dash(middle) && !high.is_empty() && rest.is_empty() {
        Some((
            side(Kind::Low, text, first, low, at),
            side(Kind::High, text, third, high, at),
        ))
    } else {
        None
    }
}

/// What an alternative is made of.
fn made_of(alloc: Global, text: &[u8], at: usize) -> Result<Pieces<'_, Kind>, AllocError>
    requires { at + length text.now < 2 ^ 64 }
    ensures pieces { IfOk result (λ v. IsMadeOf at text.now (all_as_written v)) }
    ensures placed { IfOk result (λ v. AllByRecursion IsInPlace (all_as_written v)) }
{
    match hyphen_range(text, at) {
        Some((low, high)) => {
            let mut sides = Few::new(alloc);
            sides.push(low)?;
            sides.push(high)?;
            Ok(sides)
        }
        None => pieces_of(alloc, text, at),
    }
}

/// The pieces of each alternative of a range text.
pub(crate) fn cut_text(alloc: Global, text: &[u8]) -> Result<Groups<'_, Kind>, AllocError>
    requires { length text.now < 2 ^ 64 }
    ensures cut { IfOk result (λ groups. IsCut text.now (map all_as_written groups)) }
    ensures placed { IfOk result (λ groups. AllByRecursion (AllByRecursion IsInPlace) (map all_as_written groups)) }
{
    let mut groups = Few::new(alloc);
    let mut at = 0;
    let mut rest = text;
    while let Some((front, behind)) = cut_at_bars(rest) {
        let group = made_of(alloc, front, at)?;
        groups.push(group)?;
        at += front.len() + 2;
        rest = behind;
    }
    let last = made_of(alloc, rest, at)?;
    groups.push(last)?;
    Ok(groups)
}
