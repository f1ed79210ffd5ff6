ghost use Rattle.std.specs.Prelude.{IfOk};
ghost use Rattle.vx_range.specs.Pieces.{as_written, IsInPlace};
ghost use Rattle.vx_range.specs.Reading.{AnswersPiece};
ghost use Rattle.relation_ranges.specs.Reading.{ReadsAs, IsPast};

use crate::range::RelationRange;
use crate::relations::{Relation, Relations};
use std::alloc::Global;
use vx_range::{Piece, PieceReading, read_version};
use vx_scheme::NoMemory;
use vx_text::{Blanks, cut_run, past_run};

/// What a piece is: a relation, or none. Its version is read once.
pub fn read_relation<R: Relations>(
    alloc: Global,
    piece: &Piece<'_, ()>,
) -> Result<PieceReading<Relation<R::Operator, R::Version>>, NoMemory>
    requires { IsInPlace (as_written piece.now) }
    ensures { IfOk result (AnswersPiece (ReadsAs R.Signs.holds R.HasSigns R.Spells)
        (IsPast R.Signs.holds R.HasSigns R.Spells R.first_past) (as_written piece.now)) }
{
    let (signs, rest) = cut_run::<R::Signs>(piece.bytes);
    let Some(operator) = R::operator(signs) else {
        return Ok(PieceReading::NoConstruct);
    };
    let text = past_run::<Blanks>(rest);
    let at = piece.at + (piece.bytes.len() - text.len());
    match read_version::<RelationRange<R>, R>(alloc, text, at)? {
        PieceReading::Construct(version) => {
            Ok(PieceReading::Construct(Relation { operator, version }))
        }
        PieceReading::Past(at) => Ok(PieceReading::Past(at)),
        PieceReading::NoConstruct => Ok(PieceReading::NoConstruct),
    }
}
