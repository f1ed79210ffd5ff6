ghost use Rattle.std.specs.Prelude.{◌≡◌, ◌+◌, ◌++◌, [], ◌∷◌, true, ◌<◌, ◌^◌, None, Some, IfOk, IfSome, MatchOption, length};
ghost use Rattle.std.specs.Option.{option_copied};
ghost use Rattle.vx_range.specs.Pieces.{as_written, IsInPlace};
ghost use Rattle.vx_range.specs.Reading.{Answers, AnswersPiece};
ghost use Rattle.bracket_ranges.specs.Signs.{is_opening, is_closing, is_square};
ghost use Rattle.bracket_ranges.specs.Reading.{Parts, IsBracket, ReadsBound, ReadsInside, ReadsParts, ReadsAs, side_past, inside_past, parts_past, IsPast};
ghost use Rattle.bracket_ranges.specs.Steps.Inside.{both, parts_of, inside_length};

use crate::bracket::{Bound, Bracket};
use crate::cutting::{BracketPiece, Kind, is_closing, is_opening};
use crate::range::BracketRange;
use crate::table::Brackets;
use std::alloc::Global;
use vx_range::{PieceReading, piece_of, read_version};
use vx_scheme::NoMemory;
use vx_text::cut_bytes;

/// The signs of a bracket, and what stands between them: before the comma, and behind it, where there is one.
#[derive(Debug, Clone, Copy)]
pub(crate) struct Inside<'a> {
    opening: u8,
    front: &'a [u8],
    back: Option<&'a [u8]>,
    closing: u8,
}

/// Whether the sign lets its bound in. It takes no memory.
fn is_square(sign: u8) -> bool
    ensures { result ≡ is_square sign }
{
    sign == b'[' || sign == b']'
}

/// What a piece is: a bracket, or none. Each version is read once.
pub(crate) fn read_piece<B: Brackets>(
    alloc: Global,
    piece: &BracketPiece,
) -> Result<PieceReading<Bracket<B::Version>>, NoMemory>
    requires { IsInPlace (as_written piece.now) }
    ensures { IfOk result (AnswersPiece (ReadsAs B.Spells B.alone) (IsPast B.Spells B.first_past) (as_written piece.now)) }
{
    match piece.kind {
        Kind::Alone => match read_version::<BracketRange<B>, B>(alloc, piece.bytes, piece.at)? {
            PieceReading::Construct(version) => Ok(PieceReading::Construct(B::alone(version))),
            PieceReading::Past(at) => Ok(PieceReading::Past(at)),
            PieceReading::NoConstruct => Ok(PieceReading::NoConstruct),
        },
        Kind::Bracket => match parts_of(piece.bytes) {
            Some(parts) => read_inside::<B>(alloc, &parts, piece.at + 1),
            None => Ok(PieceReading::NoConstruct),
        },
        Kind::Other => Ok(PieceReading::NoConstruct),
    }
}

/// The parts of a bracket; `None` exactly where the bytes are none. It takes no memory.
fn parts_of(bytes: &[u8]) -> Option<Inside<'_>>
    ensures parts { MatchOption result
        ((parts : Parts) → ¬ (IsBracket bytes.now parts))
        (λ inside. IsBracket bytes.now (parts_of inside)) }
    ensures within { IfSome result (λ inside. inside_length (parts_of inside) + 2 ≡ length bytes.now) }
{
    match bytes {
        [opening, between @ .., closing] if is_opening(*opening) && is_closing(*closing) => {
            sides(*opening, between, *closing)
        }
        _ => None,
    }
}

/// The parts of a bracket, by its signs and what stands between them; `None` exactly where that has two commas.
fn sides(opening: u8, between: &[u8], closing: u8) -> Option<Inside<'_>>
    requires opens { is_opening opening ≡ true }
    requires closes { is_closing closing ≡ true }
    ensures parts { MatchOption result
        ((parts : Parts) → ¬ (IsBracket (opening ∷ (between.now ++ closing ∷ [])) parts))
        (λ inside. IsBracket (opening ∷ (between.now ++ closing ∷ [])) (parts_of inside)) }
    ensures within { IfSome result (λ inside. inside_length (parts_of inside) ≡ length between.now) }
{
    let (front, behind) = cut_bytes(between, b',');
    let Some(behind) = behind else {
        return Some(Inside {
            opening,
            front,
            back: None,
            closing,
        });
    };
    let (back, more) = cut_bytes(behind, b',');
    match more {
        None => Some(Inside {
            opening,
            front,
            back: Some(back),
            closing,
        }),
        Some(_) => None,
    }
}

/// What stands between the signs of a bracket, from this place on.
fn read_inside<B: Brackets>(
    alloc: Global,
    inside: &Inside,
    at: usize,
) -> Result<PieceReading<Bracket<B::Version>>, NoMemory>
    requires { at + inside_length (parts_of inside.now) < 2 ^ 64 }
    ensures { IfOk result (Answers (ReadsParts B.Spells (parts_of inside.now))
        (inside_past B.first_past at (parts_of inside.now).front (parts_of inside.now).back)) }
{
    let opening = is_square(inside.opening);
    let closing = is_square(inside.closing);
    match inside.back {
        Some(back) => read_between::<B>(alloc, opening, closing, inside.front, back, at),
        None if opening && closing => read_exact::<B>(alloc, inside.front, at),
        None => Ok(PieceReading::NoConstruct),
    }
}

/// `[V]`, of which V begins at this place.
fn read_exact<B: Brackets>(
    alloc: Global,
    text: &[u8],
    at: usize,
) -> Result<PieceReading<Bracket<B::Version>>, NoMemory>
    requires { at + length text.now < 2 ^ 64 }
    ensures { IfOk result (Answers (ReadsInside B.Spells true true text.now None) (B.first_past at text.now)) }
{
    match read_version::<BracketRange<B>, B>(alloc, text, at)? {
        PieceReading::Construct(version) => Ok(PieceReading::Construct(Bracket::Exact(version))),
        PieceReading::Past(at) => Ok(PieceReading::Past(at)),
        PieceReading::NoConstruct => Ok(PieceReading::NoConstruct),
    }
}

/// The two sides of a bracket, the first of which begins at this place.
fn read_between<B: Brackets>(
    alloc: Global,
    opening: bool,
    closing: bool,
    front: &[u8],
    back: &[u8],
    at: usize,
) -> Result<PieceReading<Bracket<B::Version>>, NoMemory>
    requires { at + (length front.now + (length back.now + 1)) < 2 ^ 64 }
    ensures { IfOk result (Answers (ReadsInside B.Spells opening closing front.now (Some back.now))
        (inside_past B.first_past at front.now (Some back.now))) }
{
    let lower = read_bound::<B>(alloc, front, at, opening)?;
    let upper = read_bound::<B>(alloc, back, at + front.len() + 1, closing)?;
    Ok(both(lower, upper))
}

/// What two sides are together: no bracket where one of them is none, and else past the limit where the first one is.
fn both<V: Drop>(
    lower: PieceReading<Option<Bound<V>>>,
    upper: PieceReading<Option<Bound<V>>>,
) -> PieceReading<Bracket<V>>
    ensures { result ≡ both lower upper }
{
    match lower {
        PieceReading::Construct(lower) => match upper {
            PieceReading::Construct(upper) => {
                PieceReading::Construct(Bracket::Between(lower, upper))
            }
            PieceReading::Past(at) => PieceReading::Past(at),
            PieceReading::NoConstruct => PieceReading::NoConstruct,
        },
        PieceReading::Past(at) => match upper {
            PieceReading::Construct(_) | PieceReading::Past(_) => PieceReading::Past(at),
            PieceReading::NoConstruct => PieceReading::NoConstruct,
        },
        PieceReading::NoConstruct => PieceReading::NoConstruct,
    }
}

/// A side of a bracket, which begins at this place.
fn read_bound<B: Brackets>(
    alloc: Global,
    side: &[u8],
    at: usize,
    included: bool,
) -> Result<PieceReading<Option<Bound<B::Version>>>, NoMemory>
    requires { at + length side.now < 2 ^ 64 }
    ensures { IfOk result (Answers (ReadsBound B.Spells included side.now) (side_past B.first_past at side.now)) }
{
    let text = piece_of(side, at);
    if text.bytes.is_empty() {
        return Ok(PieceReading::Construct(None));
    }
    match read_version::<BracketRange<B>, B>(alloc, text.bytes, text.at)? {
        PieceReading::Construct(version) => {
            Ok(PieceReading::Construct(Some(Bound { version, included })))
        }
        PieceReading::Past(at) => Ok(PieceReading::Past(at)),
        PieceReading::NoConstruct => Ok(PieceReading::NoConstruct),
    }
}
