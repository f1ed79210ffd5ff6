ghost use Rattle.std.specs.Prelude.{◌≡◌, ◌++◌, Some, Ok, Err, IfOk, IfErr, OnOk, codes, if◌then◌else◌};
ghost use Rattle.vx_scheme.specs.declared.domain.Domain.TheVariants as domain_of;
ghost use Rattle.vx_scheme.specs.Native.{BackRefused};
ghost use Rattle.bracket_ranges.specs.Back.{lower_text, upper_text, bounds_text, point_text, sides_text, span_text, text_behind, others_text, spans_text, back};

use std::alloc::Global;
use vx_range::{gap_fault, is_point};
use vx_scheme::{BackFault, Cut, NoMemory, Scheme, Span, Text};

/// The room for a span's text, which two versions of usual length take.
const USUAL_LENGTH: usize = 24;

/// The range text of spans, the same in each domain. Where a text may not list brackets, `PointHole` comes exactly where the
/// first gap is a hole of one order class, and `NotOneInterval` exactly where there is another first gap.
pub(crate) fn text_of<S: Scheme>(
    alloc: Global,
    lists: bool,
    spans: &[Span<S::Version>],
) -> Result<Text, BackFault>
    ensures ok { IfOk result (λ text. back S.order S.normal lists domain_of.All spans.now ≡ Ok text) }
    ensures err { IfErr result (BackRefused (back S.order S.normal lists domain_of.All spans.now)) }
{
    if !lists && let [span, next, ..] = spans {
        return Err(gap_fault::<S>(&span.upper, &next.lower));
    }
    let text = text_of_spans::<S>(alloc, spans)?;
    Ok(text)
}

/// The brackets of spans.
fn text_of_spans<S: Scheme>(alloc: Global, spans: &[Span<S::Version>]) -> Result<Text, NoMemory>
    ensures { IfOk result (λ text. text ≡ spans_text S.order S.normal spans.now) }
{
    let mut out = Text::with_room(alloc, spans.len().saturating_mul(USUAL_LENGTH))?;
    if let [first, others @ ..] = spans {
        push_sides::<S>(&mut out, &first.lower, &first.upper)?;
        push_others::<S>(&mut out, first, others)?;
    }
    Ok(out)
}

/// The brackets of the spans behind one.
fn push_others<S: Scheme>(
    out: &mut Text,
    first: &Span<S::Version>,
    spans: &[Span<S::Version>],
) -> Result<(), NoMemory>
    ensures { OnOk result (out.new ≡ out.old ++ others_text S.order S.normal first.now.upper spans.now) }
{
    let mut before = first;
    for span in spans {
        out.push_str(",")?;
        push_behind::<S>(out, &before.upper, &span.lower, &span.upper)?;
        before = span;
    }
    Ok(())
}

/// The bracket of a span behind a gap, which begins at this cut. Behind a hole of one order class it is written with the
/// version of the hole's first cut.
fn push_behind<S: Scheme>(
    out: &mut Text,
    start: &Option<Cut<S::Version>>,
    lower: &Option<Cut<S::Version>>,
    upper: &Option<Cut<S::Version>>,
) -> Result<(), NoMemory>
    ensures { OnOk result (out.new ≡ out.old ++ text_behind S.order S.normal start.now lower.now upper.now) }
{
    match (start, lower) {
        (Some(start), Some(lower)) if is_point::<S>(start, lower) => {
            push_lower_at::<S>(out, lower.after, &start.version)?;
            push_end::<S>(out, upper)
        }
        _ => push_sides::<S>(out, lower, upper),
    }
}

fn push_sides<S: Scheme>(
    out: &mut Text,
    lower: &Option<Cut<S::Version>>,
    upper: &Option<Cut<S::Version>>,
) -> Result<(), NoMemory>
    ensures { OnOk result (out.new ≡ out.old ++ sides_text S.order S.normal lower.now upper.now) }
{
    match (lower, upper) {
        (Some(lower), Some(upper)) if is_point::<S>(lower, upper) => {
            push_point::<S>(out, &lower.version)
        }
        (lower, upper) => push_bounds::<S>(out, lower, upper),
    }
}

fn push_point<S: Scheme>(out: &mut Text, version: &S::Version) -> Result<(), NoMemory>
    ensures { OnOk result (out.new ≡ out.old ++ point_text S.order S.normal version.now) }
{
    out.push_str("[")?;
    S::write(version, out)?;
    out.push_str("]")
}

fn push_bounds<S: Scheme>(
    out: &mut Text,
    lower: &Option<Cut<S::Version>>,
    upper: &Option<Cut<S::Version>>,
) -> Result<(), NoMemory>
    ensures { OnOk result (out.new ≡ out.old ++ bounds_text S.order S.normal lower.now upper.now) }
{
    push_lower::<S>(out, lower)?;
    push_end::<S>(out, upper)
}

fn push_end<S: Scheme>(out: &mut Text, upper: &Option<Cut<S::Version>>) -> Result<(), NoMemory>
    ensures { OnOk result (out.new ≡ out.old ++ (codes "," ++ upper_text S.order S.normal upper.now)) }
{
    out.push_str(",")?;
    push_upper::<S>(out, upper)
}

fn push_lower<S: Scheme>(out: &mut Text, lower: &Option<Cut<S::Version>>) -> Result<(), NoMemory>
    ensures { OnOk result (out.new ≡ out.old ++ lower_text S.order S.normal lower.now) }
{
    match lower {
        Some(cut) => push_lower_at::<S>(out, cut.after, &cut.version),
        None => out.push_str("("),
    }
}

fn push_lower_at<S: Scheme>(
    out: &mut Text,
    after: bool,
    version: &S::Version,
) -> Result<(), NoMemory>
    ensures { OnOk result (out.new ≡ out.old ++ ((if after then codes "(" else codes "[") ++ S.normal version.now)) }
{
    out.push_str(if after { "(" } else { "[" })?;
    S::write(version, out)
}

fn push_upper<S: Scheme>(out: &mut Text, upper: &Option<Cut<S::Version>>) -> Result<(), NoMemory>
    ensures { OnOk result (out.new ≡ out.old ++ upper_text S.order S.normal upper.now) }
{
    let Some(cut) = upper else {
        return out.push_str(")");
    };
    S::write(&cut.version, out)?;
    out.push_str(if cut.after { "]" } else { ")" })
}
