ghost use Rattle.std.specs.Prelude.{◌≡◌, ◌++◌, ◌∷◌, [], Ok, IfOk, IfErr, OnOk};
ghost use Rattle.vx_scheme.specs.declared.domain.Domain.TheVariants as domain_of;
ghost use Rattle.vx_scheme.specs.Native.{BackRefused};
ghost use Rattle.gem_scheme.specs.Order.{order_of};
ghost use Rattle.gem_scheme.specs.Writing.{normal};
ghost use Rattle.relation_ranges.specs.declared.gem.operators.Operator.TheVariants.{Compares, NotEqual};
ghost use Rattle.relation_ranges.specs.Written.{term_text};
ghost use Rattle.vx_range.specs.Gaps.{is_hole, mark_of};
ghost use Rattle.relation_ranges.specs.Bounds.{bound_terms};
ghost use Rattle.relation_ranges.specs.Gem.Operators.{signs_of};
ghost use Rattle.relation_ranges.specs.Gem.Back.{back, back_terms, first_gap, hole_terms, range_text};
ghost use Rattle.relation_ranges.specs.Steps.Terms.{appended, comma, is_any};

use crate::bounds::{push_bounds, push_comma, push_relation, push_span};
use crate::comparison::Strict;
use gem_scheme::{Gem, GemVersion};
use std::alloc::Global;
use vx_range::is_point;
use vx_scheme::{BackFault, Cut, NoMemory, Span, Text};

/// The range text of spans. `NotOneInterval` comes exactly where a gap is no hole, with the mark behind the first such gap.
pub(crate) fn text_of(alloc: Global, spans: &[Span<GemVersion>]) -> Result<Text, BackFault>
    ensures ok { IfOk result (λ text. back domain_of.All spans.now ≡ Ok text) }
    ensures err { IfErr result (BackRefused (back domain_of.All spans.now)) }
{
    if let Some(mark) = first_gap(spans) {
        return Err(BackFault::NotOneInterval(mark));
    }
    let mut text = Text::new(alloc);
    push_all(&mut text, spans)?;
    Ok(text)
}

/// The mark behind the first gap that is no hole.
fn first_gap(spans: &[Span<GemVersion>]) -> Option<u64>
    ensures { result ≡ first_gap spans.now }
{
    let mut rest = spans;
    'gaps: while let [span, next, ..] = rest {
        if !is_hole(&span.upper, &next.lower) {
            return Some(mark_of(&next.lower));
        }
        rest = &rest[1..];
    }
    None
}

fn is_hole(upper: &Option<Cut<GemVersion>>, lower: &Option<Cut<GemVersion>>) -> bool
    ensures { result ≡ is_hole order_of upper.now lower.now }
{
    match (upper, lower) {
        (Some(upper), Some(lower)) => is_point::<Gem>(upper, lower),
        _ => false,
    }
}

fn mark_of(cut: &Option<Cut<GemVersion>>) -> u64
    ensures { result ≡ mark_of cut.now }
{
    match cut {
        Some(cut) => cut.mark,
        None => 0,
    }
}

fn push_all(out: &mut Text, spans: &[Span<GemVersion>]) -> Result<(), NoMemory>
    ensures { OnOk result (out.new ≡ out.old ++ range_text (back_terms spans.now)) }
{
    match spans {
        [] => Ok(()),
        [single] => push_span::<Gem>(out, Strict::Single, &single.lower, &single.upper),
        [first, .., last] => {
            push_bounds::<Gem>(out, Strict::Single, &first.lower, &last.upper)?;
            push_holes(out, has_bound(&first.lower, &last.upper), spans)
        }
    }
}

fn has_bound(lower: &Option<Cut<GemVersion>>, upper: &Option<Cut<GemVersion>>) -> bool
    ensures { result ≡ is_any (bound_terms Compares lower.now upper.now) }
{
    lower.is_some() || upper.is_some()
}

/// A term for each gap. `some` says that a term stands before them.
fn push_holes(out: &mut Text, some: bool, spans: &[Span<GemVersion>]) -> Result<(), NoMemory>
    ensures { OnOk result (out.new ≡ out.old ++ appended signs_of normal some (hole_terms spans.now)) }
{
    let mut some = some;
    let mut rest = spans;
    'gaps: while let [span, _, ..] = rest {
        if let Some(upper) = &span.upper {
            push_hole(out, some, upper)?;
            some = true;
        }
        rest = &rest[1..];
    }
    Ok(())
}

fn push_hole(out: &mut Text, some: bool, upper: &Cut<GemVersion>) -> Result<(), NoMemory>
    ensures { OnOk result (out.new ≡ (out.old ++ comma some)
        ++ term_text signs_of normal (record { operator = NotEqual; version = upper.now.version } ∷ [])) }
{
    push_comma(out, some)?;
    push_relation::<Gem>(out, "!=", &upper.version)
}
