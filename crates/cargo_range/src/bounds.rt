ghost use Rattle.std.specs.Prelude.{◌≡◌, IfOk, IfErr};
ghost use Rattle.vx_scheme.specs.Native.{Refused};
ghost use Rattle.cargo_range.specs.Range.{MakesBounds};
ghost use Rattle.cargo_range.specs.Refusals.{RefusesText, place_of};
ghost use Rattle.cargo_range.specs.Steps.Terms.{AreTerms, IsFirstTooHigh};

use crate::comparators::read_requirement;
use crate::construct::Construct;
use crate::making::push_spans;
use crate::version::CargoVersion;
use std::alloc::Global;
use vx_scheme::{Alternative, Bounds, NoMemory, RangeFault, Spans, StepFault};
use vx_text::pieces;

/// Where the i-th piece of the text between its commas begins, or the length of the text where there are fewer.
fn place_of(alloc: Global, text: &str, i: usize) -> Result<usize, NoMemory>
    ensures { IfOk result (λ at. at ≡ place_of text.now i) }
{
    let pieces = pieces(alloc, text, b',')?;
    if i < pieces.len() {
        Ok(pieces.get(i).start)
    } else {
        Ok(text.len())
    }
}

/// The terms of the comparators of a text, one for each. `Numeral` comes exactly where a number cannot be raised, at the
/// first comparator of which that is so.
fn terms_of(
    alloc: Global,
    text: &str,
    all: Vec<Construct>,
) -> Result<Alternative<CargoVersion>, RangeFault>
    ensures ok { IfOk result (AreTerms all.items) }
    ensures err { IfErr result (IsFirstTooHigh text.now all.items) }
{
    let mut terms = Alternative::with_room(alloc, all.len())?;
    let mut marks = 0;
    for construct in all {
        let mut spans = Spans::with_room(alloc, 1)?;
        match push_spans(alloc, construct, &mut marks, &mut spans) {
            Ok(()) => terms.push(spans)?,
            Err(StepFault::TooLarge) => {
                let at = place_of(alloc, text, terms.len())?;
                return Err(RangeFault::Numeral(at));
            }
            Err(StepFault::NoMemory) => return Err(RangeFault::NoMemory),
        }
    }
    Ok(terms)
}

/// The bounds that a requirement makes, of one alternative, or its first refusal.
pub(crate) fn bounds_of(alloc: Global, text: &str) -> Result<Bounds<CargoVersion>, RangeFault>
    ensures ok { IfOk result (MakesBounds text.now) }
    ensures err { IfErr result (Refused (RefusesText text.now)) }
{
    let all = read_requirement(alloc, text)?;
    let terms = terms_of(alloc, text, all)?;
    let bounds = Bounds::one(alloc, terms)?;
    Ok(bounds)
}
