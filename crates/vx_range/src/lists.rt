ghost use Rattle.std.specs.Prelude.{ℕ, List, [], ◌∷◌, ◌≡◌, ◌==◌, ◌+◌, ◌++◌, ◌^◌, ◌<◌, ◌≤◌, length, map, IfOk, OnOk};
ghost use Rattle.std.specs.List.{AllByRecursion, slice_split};
ghost use Rattle.vx_spec.specs.Each.{AreEach};
ghost use Rattle.vx_text.specs.Pieces.{places};
ghost use Rattle.vx_range.specs.Pieces.{as_written, all_as_written, IsInPlace};
ghost use Rattle.vx_range.specs.Lists.{piece_of, pieces_at, group_of, groups_of, not_empty, IsPlaced};

use crate::few::{Few, Groups, Pieces};
use crate::piece::Piece;
use std::alloc::{AllocError, Global};
use vx_text::{Blanks, cut_bytes, past_run, trimmed};

/// A piece of a list, of which there is one kind.
type Plain<'a> = Piece<'a, ()>;

/// The piece of a part that begins at this place: the part without the blanks at its ends, and where that begins; a blank
/// part is an empty piece at its own start. It takes no memory.
pub fn piece_of(part: &[u8], at: usize) -> Piece<'_, ()>
    requires { at + length part.now < 2 ^ 64 }
    ensures piece { as_written result ≡ piece_of at part.now }
    ensures within { result.at + length result.bytes.now ≤ at + length part.now }
{
    let bytes = trimmed(part);
    let before = if bytes.is_empty() {
        0
    } else {
        part.len() - past_run::<Blanks>(part).len()
    };
    Piece {
        kind: (),
        at: at + before,
        bytes,
    }
}

/// The pieces of a text that begins at this place, between its separators.
pub fn pieces_at(
    alloc: Global,
    text: &[u8],
    at: usize,
    separator: u8,
) -> Result<Pieces<'_, ()>, AllocError>
    requires { at + length text.now < 2 ^ 64 }
    ensures pieces { IfOk result (λ v. all_as_written v ≡ pieces_at separator at text.now) }
    ensures placed { IfOk result (λ v. AllByRecursion IsInPlace (all_as_written v)) }
{
    let mut pieces = Few::new(alloc);
    let mut from = at;
    let mut rest = text;
    loop {
        let (part, behind) = cut_bytes(rest, separator);
        pieces.push(piece_of(part, from))?;
        let Some(more) = behind else {
            return Ok(pieces);
        };
        from += part.len() + 1;
        rest = more;
    }
}

/// The pieces of a piece of a comma list: those between its inner separators, or itself where there is none.
fn group_of<'a>(
    alloc: Global,
    piece: Plain<'a>,
    inner: Option<u8>,
) -> Result<Pieces<'a, ()>, AllocError>
    requires { IsInPlace (as_written piece) }
    ensures group { IfOk result (λ v. all_as_written v ≡ group_of inner (as_written piece.entry)) }
    ensures placed { IfOk result (λ v. AllByRecursion IsInPlace (all_as_written v)) }
{
    match inner {
        Some(separator) => pieces_at(alloc, piece.bytes, piece.at, separator),
        None => {
            let mut group = Few::new(alloc);
            group.push(piece)?;
            Ok(group)
        }
    }
}

/// The groups of a comma list: one for each piece that is not empty, of its pieces between the inner separators, or of
/// itself alone where there is none.
pub fn group_list(
    alloc: Global,
    text: &[u8],
    inner: Option<u8>,
) -> Result<Groups<'_, ()>, AllocError>
    requires { length text.now < 2 ^ 64 }
    ensures groups { IfOk result (λ v. map all_as_written v ≡ groups_of inner text.now) }
    ensures placed { IfOk result (λ v. AllByRecursion (AllByRecursion IsInPlace) (map all_as_written v)) }
{
    let mut groups = Few::new(alloc);
    let mut from = 0;
    let mut rest = text;
    loop {
        let (part, behind) = cut_bytes(rest, b',');
        push_group(alloc, &mut groups, piece_of(part, from), inner)?;
        let Some(more) = behind else {
            return Ok(groups);
        };
        from += part.len() + 1;
        rest = more;
    }
}

/// Appends the group of a piece, unless the piece is empty.
fn push_group<'a>(
    alloc: Global,
    groups: &mut Groups<'a, ()>,
    piece: Plain<'a>,
    inner: Option<u8>,
) -> Result<(), AllocError>
    requires piece { IsInPlace (as_written piece) }
    requires placed { AllByRecursion (AllByRecursion IsInPlace) (map all_as_written groups.old) }
    ensures groups { OnOk result (map all_as_written groups.new
        ≡ map all_as_written groups.old ++ map (group_of inner) (not_empty (as_written piece.entry ∷ []))) }
    ensures placed { OnOk result (AllByRecursion (AllByRecursion IsInPlace) (map all_as_written groups.new)) }
{
    if piece.bytes.is_empty() {
        return Ok(());
    }
    let group = group_of(alloc, piece, inner)?;
    groups.push(group)?;
    Ok(())
}

/// The pieces between the separators of a text that begins at any place are, place for place, those that
/// `vx_text::pieces` finds in a text at 0.
pub fn pieces_are_those_of_texts()
    ensures { (separator at : ℕ) (text : List ℕ) →
        AreEach IsPlaced (places at (slice_split (λ b. b == separator) text)) (pieces_at separator at text) }
{}
