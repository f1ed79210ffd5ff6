ghost use Rattle.std.specs.Prelude.{◌≡◌, ◌==◌, ◌<◌, ◌+◌, ◌^◌, true, length, Some, IfOk, IfErr};
ghost use Rattle.std.specs.List.{list_all};
ghost use Rattle.npm_scheme.specs.Spelling.{AreVersionParts, whole};
ghost use Rattle.npm_scheme.specs.Written.{parts};
ghost use Rattle.npm_range.specs.Reading.{is_any, is_number, is_short, numbers, values};
ghost use Rattle.npm_range.specs.Steps.Numbers.{AreNumbers, values_in, past_of, past_in, LeadsTo, AnswersShort};
ghost use Rattle.npm_range.specs.Steps.Partials.{AnswersWhole, AnswersPartial};

use crate::construct::Partial;
use crate::making::release;
use npm_scheme::{Written, is_plain_numeral, past_numeral, plain_version_of_parts, take_apart};
use std::alloc::Global;
use vx_range::PieceReading;
use vx_scheme::{NoMemory, VersionFault};
use vx_text::{NumeralFault, cut, cut_bytes, numeral};

fn is_any(text: &[u8]) -> bool
    ensures { result ≡ is_any text.now }
{
    match text {
        [byte] => *byte == b'x' || *byte == b'X' || *byte == b'*',
        _ => false,
    }
}

fn is_number(text: &[u8]) -> bool
    ensures { result ≡ is_number text.now }
{
    is_any(text) || is_plain_numeral(text)
}

/// Whether the text is one to three numbers.
fn is_short(text: &[u8]) -> bool
    ensures { result ≡ is_short text.now }
{
    let mut rest = text;
    for i in 0..3_usize {
        let (number, behind) = cut_bytes(rest, b'.');
        if !is_number(number) {
            return false;
        }
        let Some(more) = behind else {
            return true;
        };
        rest = more;
    }
    false
}

/// Numbers with dots between them.
#[derive(Clone, Copy)]
pub(crate) struct Numbers<'a> {
    /// Their text.
    pub(crate) text: &'a str,
    /// Where it begins in the range text.
    pub(crate) at: usize,
}

/// The first number of a text that begins at this place, and those behind it, unless any may stand for it. `Err` says
/// where the first of the numbers begins, which is past the limit.
fn first_number(text: &str, at: usize) -> Result<Option<(u128, Option<Numbers<'_>>)>, usize>
    requires numbers { list_all is_number (numbers text.now) ≡ true }
    requires place { at + length text.now < 2 ^ 64 }
    ensures { LeadsTo (values text.now) (past_of at text.now) result }
{
    let (first, behind) = cut(text, '.');
    if is_any(first.as_bytes()) {
        return Ok(None);
    }
    let number = match numeral(first) {
        Ok(number) => number,
        Err(NumeralFault::TooLarge) => return Err(at),
        Err(NumeralFault::NotDigits) => unreachable!(),
    };
    match behind {
        Some(text) => Ok(Some((
            number,
            Some(Numbers {
                text,
                at: at + first.len() + 1,
            }),
        ))),
        None => Ok(Some((number, None))),
    }
}

/// The same of numbers that may be left out.
fn leading(numbers: Option<Numbers<'_>>) -> Result<Option<(u128, Option<Numbers<'_>>)>, usize>
    requires { AreNumbers numbers }
    ensures { LeadsTo (values_in numbers.entry) (past_in numbers.entry) result }
{
    match numbers {
        Some(numbers) => first_number(numbers.text, numbers.at),
        None => Ok(None),
    }
}

/// The partial of one to three numbers. `Err` says where the first of them begins that is past the limit.
fn short_partial(alloc: Global, text: &str, at: usize) -> Result<Partial, usize>
    requires short { is_short text.now ≡ true }
    requires place { at + length text.now < 2 ^ 64 }
    ensures { AnswersShort at text.now result }
{
    let Some((major, behind)) = first_number(text, at)? else {
        return Ok(Partial::Any);
    };
    let Some((minor, behind)) = leading(behind)? else {
        return Ok(Partial::Major(major));
    };
    let Some((patch, _)) = leading(behind)? else {
        return Ok(Partial::Minor(major, minor));
    };
    Ok(Partial::Full(release(alloc, major, minor, patch)))
}

/// The partial of a whole version, without its build.
fn whole_partial(
    alloc: Global,
    written: &Written,
    at: usize,
) -> Result<PieceReading<Partial>, NoMemory>
    requires form { AreVersionParts (parts written.now) }
    requires place { at + length (whole (parts written.now)) < 2 ^ 64 }
    ensures { IfOk result (AnswersWhole at (parts written.now)) }
{
    match plain_version_of_parts(alloc, written) {
        Ok(version) => Ok(PieceReading::Construct(Partial::Full(version))),
        Err(VersionFault::Numeral) => match past_numeral(written, at) {
            Some(at) => Ok(PieceReading::Past(at)),
            None => unreachable!(),
        },
        Err(VersionFault::NotAVersion) => unreachable!(),
        Err(VersionFault::NoMemory) => Err(NoMemory),
    }
}

/// The partial that a text stands for, which begins at this place: one to three numbers, or a whole version.
pub(crate) fn read_partial(
    alloc: Global,
    text: &str,
    at: usize,
) -> Result<PieceReading<Partial>, NoMemory>
    requires { at + length text.now < 2 ^ 64 }
    ensures { IfOk result (AnswersPartial at text.now) }
{
    if is_short(text.as_bytes()) {
        return match short_partial(alloc, text, at) {
            Ok(partial) => Ok(PieceReading::Construct(partial)),
            Err(at) => Ok(PieceReading::Past(at)),
        };
    }
    match take_apart(text) {
        Some(written) => whole_partial(alloc, &written, at),
        None => Ok(PieceReading::NoConstruct),
    }
}
