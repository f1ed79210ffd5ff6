ghost use Rattle.std.specs.Prelude.{ℕ, List, IfOk, ◌<◌, ◌^◌, length, map};
ghost use Rattle.std.specs.List.{AllByRecursion};
ghost use Rattle.vx_range.specs.Pieces.{Written, as_written, all_as_written, IsInPlace};
ghost use Rattle.vx_range.specs.Reading.{AnswersPiece, PieceLaws, CutLaws};

use crate::few::Groups;
use crate::making::Making;
use crate::piece::{Piece, PieceReading};
use std::alloc::{AllocError, Global};
use vx_scheme::NoMemory;

/// How the texts of a range language are cut, and what their pieces are.
pub trait Language: Making {
    /// What its place among the others makes of a piece.
    type Kind: Copy;

    /// The text is cut into these groups of pieces.
    ghost IsCut: { List ℕ → List (List (Written Self.Kind)) → Type 0 };

    /// The piece is the construct, with numerals of any length.
    ghost ReadsAs: { Written Self.Kind → Self.Construct → Type 0 };

    /// The first numeral of the piece that is past its limit begins at this place of the range text.
    ghost IsPast: { Written Self.Kind → ℕ → Type 0 };

    /// The groups of pieces of a text.
    fn cut_text(alloc: Global, text: &[u8]) -> Result<Groups<'_, Self::Kind>, AllocError>
        requires { length text.now < 2 ^ 64 }
        ensures cut { IfOk result (λ groups. IsCut text.now (map all_as_written groups)) }
        ensures placed { IfOk result (λ groups. AllByRecursion (AllByRecursion IsInPlace) (map all_as_written groups)) };

    /// What a piece is.
    fn read_piece(
        alloc: Global,
        piece: &Piece<Self::Kind>,
    ) -> Result<PieceReading<Self::Construct>, NoMemory>
        requires { IsInPlace (as_written piece.now) }
        ensures { IfOk result (AnswersPiece ReadsAs IsPast (as_written piece.now)) };

    /// A text is cut in one way.
    ghost cuts: { CutLaws IsCut };

    /// A piece is one thing.
    ghost pieces: { PieceLaws ReadsAs IsPast };
}
