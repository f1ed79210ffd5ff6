ghost use Rattle.std.specs.Prelude.{◌≡◌, ◌==◌, ◌≤◌, ◌<◌, ◌+◌, ◌^◌, length, IfOk};
ghost use Rattle.std.specs.List.{prefix_len, slice_split, suffix_len};
ghost use Rattle.vx_spec.specs.Runs.{is_blank};
ghost use Rattle.vx_text.specs.Pieces.{ArePieces, piece_of, places};

use crate::marks::cut;
use crate::runs::{Blanks, past_run, without_end};
use std::alloc::Global;
use vx_scheme::{List, NoMemory};

/// A piece of a text: where it begins, and where it ends, as byte offsets.
#[derive(Clone, Copy, Debug, PartialEq, Eq)]
pub struct Piece {
    /// The offset of its first byte.
    pub start: usize,
    /// The offset behind its last byte.
    pub end: usize,
}

/// A list of pieces.
pub type Pieces = List<Piece>;

/// The parts between the separators, without the blanks at their ends; a blank part is an empty piece at its own start.
/// The separator is an ASCII byte.
pub fn pieces(alloc: Global, text: &str, separator: u8) -> Result<Pieces, NoMemory>
    requires { separator < 128 }
    ensures exact { IfOk result (λ found. found ≡ places 0 (slice_split (λ b. b == separator) text.now)) }
    ensures put_back { IfOk result (λ found. ArePieces separator text.now found) }
{
    let mut found = Pieces::new(alloc);
    let mut at = 0;
    let mut rest = Some(text);
    'parts: while let Some(more) = rest {
        let (part, behind) = cut(more, char::from(separator));
        found.push(piece_in(at, part.as_bytes()))?;
        at += part.len() + 1;
        rest = behind;
    }
    Ok(found)
}

fn piece_in(at: usize, part: &[u8]) -> Piece
    requires { at + length part.now < 2 ^ 64 }
    ensures { result ≡ piece_of at part.now }
{
    let start = part.len() - past_run::<Blanks>(part).len();
    if start == part.len() {
        Piece { start: at, end: at }
    } else {
        Piece {
            start: at + start,
            end: at + without_end::<Blanks>(part).len(),
        }
    }
}
