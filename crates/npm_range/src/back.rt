ghost use Rattle.std.specs.Prelude.{◌≡◌, ◌++◌, OnOk, IfOk, codes, flat_map};
ghost use Rattle.npm_range.specs.Back.{lower_text, upper_text, between_text, span_text, spans_text};

use npm_scheme::{Npm, NpmVersion};
use std::alloc::Global;
use vx_range::is_point;
use vx_scheme::{Cut, NoMemory, Scheme, Span, Text};

fn push_lower(out: &mut Text, cut: &Cut<NpmVersion>) -> Result<(), NoMemory>
    ensures { OnOk result (out.new ≡ out.old ++ lower_text cut.now) }
{
    out.push_str(if cut.after { ">" } else { ">=" })?;
    Npm::write(&cut.version, out)
}

fn push_upper(out: &mut Text, cut: &Cut<NpmVersion>) -> Result<(), NoMemory>
    ensures { OnOk result (out.new ≡ out.old ++ upper_text cut.now) }
{
    out.push_str(if cut.after { "<=" } else { "<" })?;
    Npm::write(&cut.version, out)
}

fn push_between(
    out: &mut Text,
    lower: &Cut<NpmVersion>,
    upper: &Cut<NpmVersion>,
) -> Result<(), NoMemory>
    ensures { OnOk result (out.new ≡ out.old ++ between_text lower.now upper.now) }
{
    if is_point::<Npm>(lower, upper) {
        return Npm::write(&lower.version, out);
    }
    push_lower(out, lower)?;
    out.push_str(" ")?;
    push_upper(out, upper)
}

fn push_span(out: &mut Text, span: &Span<NpmVersion>) -> Result<(), NoMemory>
    ensures { OnOk result (out.new ≡ out.old ++ span_text span.now) }
{
    match (&span.lower, &span.upper) {
        (None, None) => out.push_str("*"),
        (None, Some(upper)) => push_upper(out, upper),
        (Some(lower), None) => push_lower(out, lower),
        (Some(lower), Some(upper)) => push_between(out, lower, upper),
    }
}

fn push_others(out: &mut Text, spans: &[Span<NpmVersion>]) -> Result<(), NoMemory>
    ensures { OnOk result (out.new ≡ out.old ++ flat_map (λ span. codes " || " ++ span_text span) spans.now) }
{
    for span in spans {
        out.push_str(" || ")?;
        push_span(out, span)?;
    }
    Ok(())
}

/// The room for a span's text, which two versions of usual length take.
const USUAL_LENGTH: usize = 24;

/// The range text of spans, the same in each domain.
pub(crate) fn text_of_spans(alloc: Global, spans: &[Span<NpmVersion>]) -> Result<Text, NoMemory>
    ensures { IfOk result (λ text. text ≡ spans_text spans.now) }
{
    let mut out = Text::with_room(alloc, spans.len().saturating_mul(USUAL_LENGTH))?;
    if let [first, others @ ..] = spans {
        push_span(&mut out, first)?;
        push_others(&mut out, others)?;
    }
    Ok(out)
}
