ghost use Rattle.std.specs.Prelude.{◌≡◌, ◌≢◌, ◌+◌, ◌<◌, ◌≤◌, ◌^◌, None, Some, IfOk, IfSome, MatchOption, length};
ghost use Rattle.std.specs.List.{list_all};
ghost use Rattle.std.specs.Option.{option_copied};
ghost use Rattle.vx_spec.specs.Runs.{is_solid};
ghost use Rattle.vx_range.specs.Pieces.{as_written, IsInPlace};
ghost use Rattle.vx_range.specs.Reading.{AnswersPiece};
ghost use Rattle.pep440_scheme.specs.Past.{past_numeral_of};
ghost use Rattle.pep440_range.specs.Reading.{before_star, operator_at, ReadsAs};
ghost use Rattle.pep440_range.specs.Refusals.{IsPast};
ghost use Rattle.pep440_range.specs.Steps.Operands.{AnswersEither, AnswersOperand, AnswersText, AnswersVersion};

use crate::construct::{Comparison, Construct, Operator};
use crate::operands::{Asked, Form, asked_by, construct_of, is_met};
use pep440_scheme::{Pypi, past_numeral, shape_of_text, shape_of_version};
use std::alloc::Global;
use std::str;
use vx_range::{Piece, PieceReading};
use vx_scheme::{NoMemory, Scheme, Text, VersionFault};
use vx_text::{Blanks, ByteClass, Solids, past_run, without_end};

/// The longest operator with which the text begins, and what stands behind it. It takes no memory.
fn operator_at(text: &[u8]) -> Option<(Operator, &[u8])>
    ensures begun { MatchOption result (operator_at text.now ≡ None)
        (λ r. operator_at text.now ≡ Some (record { operator = r.0; rest = r.1.now })) }
    ensures within { IfSome result (λ r. length r.1.now ≤ length text.now) }
{
    match text {
        [b'=', b'=', b'=', rest @ ..] => Some((Operator::Identical, rest)),
        [b'~', b'=', rest @ ..] => Some((Operator::Compares(Comparison::Compatible), rest)),
        [b'=', b'=', rest @ ..] => Some((Operator::Equal, rest)),
        [b'!', b'=', rest @ ..] => Some((Operator::NotEqual, rest)),
        [b'<', b'=', rest @ ..] => Some((Operator::Compares(Comparison::LessOrEqual), rest)),
        [b'>', b'=', rest @ ..] => Some((Operator::Compares(Comparison::GreaterOrEqual), rest)),
        [b'<', rest @ ..] => Some((Operator::Compares(Comparison::Less), rest)),
        [b'>', rest @ ..] => Some((Operator::Compares(Comparison::Greater), rest)),
        _ => None,
    }
}

/// What stands before `.*` at the end of the text, where it ends so. It takes no memory.
fn before_star(text: &[u8]) -> Option<&[u8]>
    ensures is { option_copied result ≡ before_star text.now }
    ensures within { IfSome result (λ front. length front.now ≤ length text.now) }
{
    text.strip_suffix(b".*")
}

/// Where the first numeral past the limit begins, of which there is one.
fn past_place(text: &[u8], at: usize) -> usize
    requires place { at + length text.now < 2 ^ 64 }
    requires past { past_numeral_of at text.now ≢ None }
    ensures { past_numeral_of at text.now ≡ Some result }
{
    match past_numeral(text, at) {
        Some(place) => place,
        None => unreachable!(),
    }
}

/// The construct of this form that is made of the version that the text spells, which begins at this place, if the version is as
/// it is asked for.
fn read_version(
    alloc: Global,
    bytes: &[u8],
    at: usize,
    asked: Asked,
    form: Form,
) -> Result<PieceReading<Construct>, NoMemory>
    requires { at + length bytes.now < 2 ^ 64 }
    ensures { IfOk result (AnswersVersion asked form at bytes.now) }
{
    let Ok(text) = str::from_utf8(bytes) else {
        return Ok(PieceReading::NoConstruct);
    };
    match Pypi::read(alloc, text) {
        Ok(version) => {
            if !is_met(asked, shape_of_version(&version)) {
                return Ok(PieceReading::NoConstruct);
            }
            Ok(PieceReading::Construct(construct_of(form, version)))
        }
        Err(VersionFault::NotAVersion) => Ok(PieceReading::NoConstruct),
        Err(VersionFault::Numeral) => {
            if !is_met(asked, shape_of_text(bytes)) {
                return Ok(PieceReading::NoConstruct);
            }
            Ok(PieceReading::Past(past_place(bytes, at)))
        }
        Err(VersionFault::NoMemory) => Err(NoMemory),
    }
}

/// The construct of the first form that is made of a version, or of the second that is made of a release followed by `.*`.
fn read_either(
    alloc: Global,
    bytes: &[u8],
    at: usize,
    of_version: Form,
    of_release: Form,
) -> Result<PieceReading<Construct>, NoMemory>
    requires { at + length bytes.now < 2 ^ 64 }
    ensures { IfOk result (AnswersEither of_version of_release at bytes.now (before_star bytes.now)) }
{
    let Some(front) = before_star(bytes) else {
        return read_version(alloc, bytes, at, Asked::Any, of_version);
    };
    if without_end::<Blanks>(front).len() < front.len() {
        return Ok(PieceReading::NoConstruct);
    }
    read_version(alloc, front, at, Asked::Release, of_release)
}

/// Whether there is no blank. It takes no memory.
fn is_solid(bytes: &[u8]) -> bool
    ensures { result ≡ list_all is_solid bytes.now }
{
    bytes.iter().all(|byte| Solids::is_one(*byte))
}

/// What stands behind `===`.
fn read_text(alloc: Global, bytes: &[u8]) -> Result<PieceReading<Construct>, NoMemory>
    ensures { IfOk result (AnswersText bytes.now) }
{
    if bytes.is_empty() || !is_solid(bytes) {
        return Ok(PieceReading::NoConstruct);
    }
    match str::from_utf8(bytes) {
        Ok(text) => {
            let text = Text::copy_of(alloc, text)?;
            Ok(PieceReading::Construct(Construct::Identical(text)))
        }
        Err(_) => Ok(PieceReading::NoConstruct),
    }
}

/// What the operator makes of what stands behind it.
fn read_operand(
    alloc: Global,
    operator: Operator,
    bytes: &[u8],
    at: usize,
) -> Result<PieceReading<Construct>, NoMemory>
    requires { at + length bytes.now < 2 ^ 64 }
    ensures { IfOk result (AnswersOperand operator at bytes.now) }
{
    match operator {
        Operator::Identical => read_text(alloc, bytes),
        Operator::Equal => read_either(alloc, bytes, at, Form::Equal, Form::Within),
        Operator::NotEqual => read_either(alloc, bytes, at, Form::NotEqual, Form::NotWithin),
        Operator::Compares(how) => {
            read_version(alloc, bytes, at, asked_by(how), Form::Compares(how))
        }
    }
}

/// What a piece is: a construct, one with a numeral past the limit, or none.
pub(crate) fn read_piece(
    alloc: Global,
    piece: &Piece<'_, ()>,
) -> Result<PieceReading<Construct>, NoMemory>
    requires { IsInPlace (as_written piece.now) }
    ensures { IfOk result (AnswersPiece ReadsAs IsPast (as_written piece.now)) }
{
    let Some((operator, rest)) = operator_at(piece.bytes) else {
        return Ok(PieceReading::NoConstruct);
    };
    let operand = past_run::<Blanks>(rest);
    let at = piece.at + (piece.bytes.len() - operand.len());
    read_operand(alloc, operator, operand, at)
}
