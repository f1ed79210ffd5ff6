ghost use Rattle.std.specs.Prelude.{◌≡◌, ◌+◌, ◌<◌, ◌^◌, [], ◌∷◌, MatchOption};
ghost use Rattle.std.specs.List.{list_all};
ghost use Rattle.vx_text.specs.Escapes.{IsWhole};
ghost use Rattle.purl_core.specs.Value.{is_key, is_key_byte};
ghost use Rattle.purl_core.specs.Spelling.{IsPiece};
ghost use Rattle.purl_core.specs.Places.{HasPiece, IsBrokenAt, IsNoneAt, NoPiece, components, value_in, values};
ghost use Rattle.purl_core.specs.Steps.Cutting.{parts};
ghost use Rattle.purl_core.specs.Steps.Placing.{EndsWithin, IsWithin, left, listed_part, part_view, size};
ghost use Rattle.purl_core.specs.Steps.Reads.{FindsFirst};

use crate::cutting::Raw;
use crate::placing::{Part, Walk};
use vx_text::{cut_bytes, first_broken};

/// Where the first broken escape of all parts stands. It takes no memory.
pub(crate) fn first_escape(raw: &Raw) -> Option<usize>
    requires { size (parts raw.now) + 1 < 2 ^ 64 }
    ensures { FindsFirst IsWhole IsBrokenAt (components (parts raw.now)) result }
{
    if let Some(at) = escape_in_parts(raw.path_walk()) {
        return Some(at);
    }
    if let Some(at) = escape_in_part(raw.version_part()) {
        return Some(at);
    }
    if let Some(at) = escape_in_values(raw.pieces_walk()) {
        return Some(at);
    }
    escape_in_parts(raw.subpath_walk())
}

fn escape_in_parts(parts: Walk) -> Option<usize>
    requires { IsWithin parts }
    ensures { FindsFirst IsWhole IsBrokenAt (left parts.entry) result }
{
    let mut walk = parts;
    'parts: while let Some(part) = walk.next_part() {
        if let Some(at) = escape_in_part(Some(part)) {
            return Some(at);
        }
    }
    None
}

/// The same of the values of pieces: of what stands behind the first '=' of each.
fn escape_in_values(pieces: Walk) -> Option<usize>
    requires { IsWithin pieces }
    ensures { FindsFirst IsWhole IsBrokenAt (values (left pieces.entry)) result }
{
    let mut walk = pieces;
    'pieces: while let Some(piece) = walk.next_part() {
        if let Some(at) = escape_in_part(value_of(piece)) {
            return Some(at);
        }
    }
    None
}

fn escape_in_part(part: Option<Part>) -> Option<usize>
    requires { MatchOption part (Unit {0}) (λ p. EndsWithin p) }
    ensures { FindsFirst IsWhole IsBrokenAt (listed_part part.entry) result }
{
    let Some(part) = part else {
        return None;
    };
    match first_broken(part.bytes) {
        Some(k) => Some(part.at + k),
        None => None,
    }
}

/// What stands behind the first '=' of a piece, where there is one.
pub(crate) fn value_of(piece: Part) -> Option<Part>
    requires { EndsWithin piece }
    ensures part { listed_part result ≡ value_in piece.entry.at piece.entry.bytes.now }
    ensures ends { MatchOption result (Unit {0}) (λ part. EndsWithin part) }
{
    let (key, behind) = cut_bytes(piece.bytes, b'=');
    match behind {
        Some(value) => Some(Part {
            at: piece.at + key.len() + 1,
            bytes: value,
        }),
        None => None,
    }
}

/// Where the first piece begins that is no key, '=' and value. It takes no memory.
pub(crate) fn first_bad(pieces: Walk) -> Option<usize>
    requires { IsWithin pieces }
    ensures { FindsFirst HasPiece IsNoneAt (left pieces.entry) result }
{
    let mut walk = pieces;
    'pieces: while let Some(piece) = walk.next_part() {
        if cut_piece(piece.bytes).is_none() {
            return Some(piece.at);
        }
    }
    None
}

/// The key and the value of a piece.
pub(crate) fn cut_piece(piece: &[u8]) -> Option<(&[u8], &[u8])>
    ensures { MatchOption result (NoPiece piece.now) (λ p. IsPiece piece.now (p.0.now, p.1.now)) }
{
    let (key, behind) = cut_bytes(piece, b'=');
    let Some(value) = behind else {
        return None;
    };
    if is_key(key) {
        Some((key, value))
    } else {
        None
    }
}

fn is_key(text: &[u8]) -> bool
    ensures { result ≡ is_key text.now }
{
    match text {
        [first, rest @ ..] => first.is_ascii_alphabetic() && has_key_bytes(rest),
        _ => false,
    }
}

fn has_key_bytes(text: &[u8]) -> bool
    ensures { result ≡ list_all is_key_byte text.now }
{
    text.iter().all(|byte| byte.is_ascii_alphanumeric()
        || *byte == b'.'
        || *byte == b'-'
        || *byte == b'_')
}
