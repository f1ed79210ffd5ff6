ghost use Rattle.std.specs.Prelude.{◌≡◌, ◌+◌, ◌++◌, ◌∷◌, [], None, Some, IfOk, OnOk, length};
ghost use Rattle.vx_scheme.specs.Cuts.{cuts_of};
ghost use Rattle.bracket_ranges.specs.Spans.{lower_cut, upper_cut, next_mark, is_empty, spans_of};

use crate::bracket::{Bound, Bracket};
use std::alloc::Global;
use std::cmp::Ordering;
use vx_range::{next_mark, push_point};
use vx_scheme::{Cut, NoMemory, Scheme, Span, Spans};

/// Appends the span of a bracket, if it has one.
pub(crate) fn push_bracket<S: Scheme>(
    alloc: Global,
    bracket: Bracket<S::Version>,
    marks: &mut u64,
    out: &mut Spans<S::Version>,
) -> Result<(), NoMemory>
    ensures span { OnOk result (out.new ≡ out.old ++ spans_of S.order marks.old bracket) }
    ensures marks { OnOk result (marks.new ≡ marks.old + length (cuts_of (spans_of S.order marks.old bracket))) }
{
    match bracket {
        Bracket::Exact(version) => push_point::<S>(alloc, marks, version, out),
        Bracket::Between(lower, upper) => {
            if is_empty::<S>(&lower, &upper) {
                return Ok(());
            }
            let lower = lower_cut(marks, lower)?;
            let upper = upper_cut(marks, upper)?;
            out.push(Span { lower, upper })
        }
    }
}

/// Whether no version lies between the bounds: the upper is below the lower, or they are order-equal and a sign is round.
/// It takes no memory.
fn is_empty<S: Scheme>(lower: &Option<Bound<S::Version>>, upper: &Option<Bound<S::Version>>) -> bool
    ensures { result ≡ is_empty S.order lower.now upper.now }
{
    let (Some(lower), Some(upper)) = (lower, upper) else {
        return false;
    };
    match S::compare(&lower.version, &upper.version) {
        Ordering::Less => false,
        Ordering::Equal => !(lower.included && upper.included),
        Ordering::Greater => true,
    }
}

/// The cut of a lower bound, if there is one.
fn lower_cut<V: Drop>(marks: &mut u64, bound: Option<Bound<V>>) -> Result<Option<Cut<V>>, NoMemory>
    ensures cut { IfOk result (λ cut. cut ≡ lower_cut marks.old bound) }
    ensures marks { OnOk result (marks.new ≡ next_mark marks.old bound) }
{
    let Some(Bound { version, included }) = bound else {
        return Ok(None);
    };
    let mark = next_mark(marks)?;
    Ok(Some(Cut {
        version,
        after: !included,
        mark,
    }))
}

/// The cut of an upper bound, if there is one.
fn upper_cut<V: Drop>(marks: &mut u64, bound: Option<Bound<V>>) -> Result<Option<Cut<V>>, NoMemory>
    ensures cut { IfOk result (λ cut. cut ≡ upper_cut marks.old bound) }
    ensures marks { OnOk result (marks.new ≡ next_mark marks.old bound) }
{
    let Some(Bound { version, included }) = bound else {
        return Ok(None);
    };
    let mark = next_mark(marks)?;
    Ok(Some(Cut {
        version,
        after: included,
        mark,
    }))
}
