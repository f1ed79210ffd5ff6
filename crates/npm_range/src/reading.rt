ghost use Rattle.std.specs.Prelude.{◌≡◌, ◌≤◌, length, IfOk, IfSome, MatchOption};
ghost use Rattle.vx_range.specs.Pieces.{as_written, IsInPlace};
ghost use Rattle.vx_range.specs.Reading.{AnswersPiece};
ghost use Rattle.npm_range.specs.Reading.{IsOperator, HasOperator, without, partial_text, ReadsAs};
ghost use Rattle.npm_range.specs.Refusals.{IsPast};
ghost use Rattle.npm_range.specs.Steps.Partials.{NoOperator, HasNoOperator};

use crate::construct::{Construct, Operator};
use crate::cutting::{Kind, NpmPiece, Signs};
use crate::partials::read_partial;
use std::alloc::Global;
use std::str;
use vx_range::PieceReading;
use vx_scheme::NoMemory;
use vx_text::{Blanks, cut_run, past_run};

/// The operator that signs write. It takes no memory.
fn operator(signs: &[u8]) -> Option<Operator>
    ensures { MatchOption result (NoOperator signs.now) (IsOperator signs.now) }
{
    match signs {
        [] | [b'='] => Some(Operator::Equal),
        [b'<'] => Some(Operator::Less),
        [b'<', b'='] => Some(Operator::LessEqual),
        [b'>'] => Some(Operator::Greater),
        [b'>', b'='] => Some(Operator::GreaterEqual),
        [b'~'] | [b'~', b'>'] => Some(Operator::Tilde),
        [b'^'] => Some(Operator::Caret),
        _ => None,
    }
}

/// The text without this byte at its front, where it begins with one.
fn without(text: &[u8], sign: u8) -> &[u8]
    ensures is { result.now ≡ without sign text.now }
    ensures within { length result.now ≤ length text.now }
{
    match text {
        [first, rest @ ..] if *first == sign => rest,
        _ => text,
    }
}

/// The operator of a piece, and the text of its partial. It takes no memory.
fn operator_and_partial<'a>(piece: &NpmPiece<'a>) -> Option<(Operator, &'a [u8])>
    ensures is { MatchOption result (HasNoOperator (as_written piece.now))
        (λ r. HasOperator (as_written piece.now).kind (as_written piece.now).bytes r.0 × (r.1.now ≡ partial_text (as_written piece.now))) }
    ensures within { IfSome result (λ r. length r.1.now ≤ length piece.now.bytes.now) }
{
    match piece.kind {
        Kind::Plain => {
            let (signs, behind) = cut_run::<Signs>(piece.bytes);
            let word = past_run::<Blanks>(behind);
            match operator(signs) {
                Some(operator) => Some((operator, without(word, b'v'))),
                None => None,
            }
        }
        Kind::Low => {
            let text = without(without(piece.bytes, b'='), b'v');
            Some((Operator::GreaterEqual, text))
        }
        Kind::High => {
            let text = without(without(piece.bytes, b'='), b'v');
            Some((Operator::LessEqual, text))
        }
    }
}

/// What a piece is: a construct, one with a numeral past the limit, or none.
pub(crate) fn read_piece(
    alloc: Global,
    piece: &NpmPiece,
) -> Result<PieceReading<Construct>, NoMemory>
    requires { IsInPlace (as_written piece.now) }
    ensures { IfOk result (AnswersPiece ReadsAs IsPast (as_written piece.now)) }
{
    let Some((operator, bytes)) = operator_and_partial(piece) else {
        return Ok(PieceReading::NoConstruct);
    };
    let Ok(text) = str::from_utf8(bytes) else {
        return Ok(PieceReading::NoConstruct);
    };
    let at = piece.at + (piece.bytes.len() - bytes.len());
    match read_partial(alloc, text, at)? {
        PieceReading::Construct(partial) => Ok(PieceReading::Construct(Construct {
            operator,
            partial,
        })),
        PieceReading::Past(at) => Ok(PieceReading::Past(at)),
        PieceReading::NoConstruct => Ok(PieceReading::NoConstruct),
    }
}
