ghost use Rattle.std.specs.Prelude.{◌≡◌, ◌≢◌, ◌+◌, ◌++◌, ◌<◌, ◌≤◌, ◌^◌, [], ◌∷◌, length, map, IfOk, OnOk};
ghost use Rattle.std.specs.List.{AllByRecursion};
ghost use Rattle.vx_spec.specs.Runs.{begins};
ghost use Rattle.vx_range.specs.Pieces.{as_written, all_as_written, IsInPlace};
ghost use Rattle.bracket_ranges.specs.Signs.{is_opening, is_closing, is_comma};
ghost use Rattle.bracket_ranges.specs.Cutting.{bracket_pieces, closed_parts, end_piece, next_from, next_piece, next_pieces, pieces_of, IsCut};

use std::alloc::{AllocError, Global};
use vx_range::{Few, Groups, Piece, Pieces, piece_of};
use vx_text::{Blanks, ByteClass, past_run};

/// What a piece is.
#[derive(Debug, Clone, Copy)]
pub enum Kind {
    /// A version alone.
    Alone,
    /// What stands where a bracket stands.
    Bracket,
    /// What stands where nothing may.
    Other,
}

/// A piece of a language of brackets.
pub(crate) type BracketPiece<'a> = Piece<'a, Kind>;

/// Whether the byte opens a bracket. It takes no memory.
pub(crate) fn is_opening(byte: u8) -> bool
    ensures { result ≡ is_opening byte }
{
    byte == b'(' || byte == b'['
}

/// Whether the byte closes a bracket. It takes no memory.
pub(crate) fn is_closing(byte: u8) -> bool
    ensures { result ≡ is_closing byte }
{
    byte == b')' || byte == b']'
}

/// The bytes that close no bracket.
struct Unclosed;

impl ByteClass for Unclosed {
    ghost use Rattle.bracket_ranges.specs.Steps.Parts.{is_unclosed};

    ghost holds = { is_unclosed };

    fn is_one(byte: u8) -> bool {
        !is_closing(byte)
    }
}

/// The text up to and with its first closing sign, and what stands behind it. It takes no memory.
fn first_part(text: &[u8]) -> (&[u8], &[u8])
    requires { text.now ≢ [] }
    ensures parts { closed_parts text.now ≡ result.0.now ∷ closed_parts result.1.now }
    ensures within { length result.0.now + length result.1.now ≡ length text.now }
    ensures some { length result.1.now < length text.now }
{
    match past_run::<Unclosed>(text) {
        [] => (text, &[]),
        [_, behind @ ..] => (&text[..text.len() - behind.len()], behind),
    }
}

/// The piece that is this end of a part. It takes no memory.
fn end_piece<'a>(kind: Kind, at: usize, part: &[u8], end: &'a [u8]) -> BracketPiece<'a>
    requires place { at + length part.now < 2 ^ 64 }
    requires within { length end.now ≤ length part.now }
    ensures piece { as_written result ≡ end_piece kind at part.now end.now }
    ensures placed { IsInPlace (as_written result) }
{
    Piece {
        kind,
        at: at + (part.len() - end.len()),
        bytes: end,
    }
}

/// The piece of a part behind a bracket. It takes no memory.
fn next_piece(lists: bool, at: usize, part: &[u8]) -> BracketPiece<'_>
    requires { at + length part.now < 2 ^ 64 }
    ensures piece { as_written result ≡ next_piece lists at part.now }
    ensures placed { IsInPlace (as_written result) }
{
    let from = past_run::<Blanks>(part);
    match from {
        [b',', behind @ ..] if lists => {
            end_piece(Kind::Bracket, at, part, past_run::<Blanks>(behind))
        }
        _ => end_piece(Kind::Other, at, part, from),
    }
}

/// The pieces of a text that begins with an opening sign.
fn bracket_pieces(
    alloc: Global,
    lists: bool,
    at: usize,
    text: &[u8],
) -> Result<Pieces<'_, Kind>, AllocError>
    requires some { text.now ≢ [] }
    requires place { at + length text.now < 2 ^ 64 }
    ensures pieces { IfOk result (λ v. all_as_written v ≡ bracket_pieces lists at (closed_parts text.now)) }
    ensures placed { IfOk result (λ v. AllByRecursion IsInPlace (all_as_written v)) }
{
    let mut pieces = Few::new(alloc);
    let (bytes, behind) = first_part(text);
    pieces.push(Piece {
        kind: Kind::Bracket,
        at,
        bytes,
    })?;
    let mut from = at + bytes.len();
    let mut rest = behind;
    while !rest.is_empty() {
        let (part, more) = first_part(rest);
        pieces.push(next_piece(lists, from, part))?;
        from += part.len();
        rest = more;
    }
    Ok(pieces)
}

/// The pieces of a text without blanks at its ends, which begins at this place.
fn pieces_of(
    alloc: Global,
    lists: bool,
    at: usize,
    text: &[u8],
) -> Result<Pieces<'_, Kind>, AllocError>
    requires { at + length text.now < 2 ^ 64 }
    ensures pieces { IfOk result (λ v. all_as_written v ≡ pieces_of lists (record { kind = tt; at = at; bytes = text.now })) }
    ensures placed { IfOk result (λ v. AllByRecursion IsInPlace (all_as_written v)) }
{
    match text {
        [b'(' | b'[', ..] => bracket_pieces(alloc, lists, at, text),
        _ => {
            let mut pieces = Few::new(alloc);
            pieces.push(Piece {
                kind: Kind::Alone,
                at,
                bytes: text,
            })?;
            Ok(pieces)
        }
    }
}

/// The pieces of a text, which are one group.
pub(crate) fn cut_text(
    alloc: Global,
    lists: bool,
    text: &[u8],
) -> Result<Groups<'_, Kind>, AllocError>
    requires { length text.now < 2 ^ 64 }
    ensures cut { IfOk result (λ groups. IsCut lists text.now (map all_as_written groups)) }
    ensures placed { IfOk result (λ groups. AllByRecursion (AllByRecursion IsInPlace) (map all_as_written groups)) }
{
    let piece = piece_of(text, 0);
    let pieces = pieces_of(alloc, lists, piece.at, piece.bytes)?;
    let mut groups = Few::new(alloc);
    groups.push(pieces)?;
    Ok(groups)
}
