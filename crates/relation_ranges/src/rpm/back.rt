ghost use Rattle.std.specs.Prelude.{◌≡◌, ◌∷◌, [], true, false, List, map, Ok, Err, IfOk, IfErr};
ghost use Rattle.std.specs.Ordering.{is_lt};
ghost use Rattle.vx_scheme.specs.declared.span.Span.{Span};
ghost use Rattle.vx_scheme.specs.Cuts.{cut_cmp};
ghost use Rattle.vx_scheme.specs.Native.{BackRefused};
ghost use Rattle.rpm_scheme.specs.Version.{Fields};
ghost use Rattle.rpm_scheme.specs.Order.{order_of};
ghost use Rattle.vx_range.specs.Gaps.{gap_fault, is_hole, mark_of};
ghost use Rattle.relation_ranges.specs.Rpm.Spans.{named_in};
ghost use Rattle.relation_ranges.specs.Rpm.Back.{back, joined_spans, kept, meets, moved, moved_bound, moved_span, text_of};
ghost use Rattle.relation_ranges.specs.Steps.RpmBack.{bound_of, cut_of, joined_with, span_of};

use crate::bounds::push_span;
use crate::comparison::Strict;
use crate::rpm::table::{has_release, named_in};
use rpm_scheme::{Rpm, RpmVersion, compare_without_release};
use std::alloc::Global;
use std::cmp::Ordering;
use vx_scheme::{BackFault, Cut, Domain, NoMemory, Scheme, Span, Text};

// A moved cut. Its version stands for another in the domain, so that none is made before the text is sure.
#[derive(Clone, Copy)]
struct Edge<'a> {
    version: &'a RpmVersion,
    after: bool,
    mark: u64,
}

// What stands between two moved cuts.
#[derive(Clone, Copy)]
struct Interval<'a> {
    lower: Option<Edge<'a>>,
    upper: Option<Edge<'a>>,
}

/// The range text of spans in the domain, or its refusal.
pub(crate) fn text_of(
    alloc: Global,
    spans: &[Span<RpmVersion>],
    domain: Domain,
) -> Result<Text, BackFault>
    ensures ok { IfOk result (λ text. back domain spans.now ≡ Ok text) }
    ensures err { IfErr result (BackRefused (back domain spans.now)) }
{
    let interval = one_interval(spans, domain)?;
    let lower = cut_of(alloc, interval.lower, domain)?;
    let upper = cut_of(alloc, interval.upper, domain)?;
    let mut text = Text::new(alloc);
    push_span::<Rpm>(&mut text, Strict::Single, &lower, &upper)?;
    Ok(text)
}

/// The one interval that is left of the spans in the domain, or the refusal.
fn one_interval(spans: &[Span<RpmVersion>], domain: Domain) -> Result<Interval<'_>, BackFault>
    ensures ok { IfOk result (λ interval. joined_spans (kept (map (moved_span domain) spans.now)) ≡ span_of domain interval ∷ []) }
    ensures err { IfErr result (λ fault. back domain spans.now ≡ Err fault) }
{
    let mut so_far = None;
    for span in spans {
        so_far = open_behind(so_far, moved_span(span, domain), domain)?;
    }
    match so_far {
        Some(interval) => Ok(interval),
        None => Err(BackFault::NothingInDomain(1)),
    }
}

/// What is open behind one more moved span, or the refusal of the gap before it.
fn open_behind<'a>(
    start: Option<Interval<'a>>,
    next: Interval<'a>,
    domain: Domain,
) -> Result<Option<Interval<'a>>, BackFault>
    ensures ok { IfOk result (λ behind. (spans : List (Span Fields)) →
        joined_with domain behind (kept spans) ≡ joined_with domain start.entry (kept (span_of domain next.entry ∷ spans))) }
    ensures err { IfErr result (λ fault. (spans : List (Span Fields)) →
        text_of (joined_with domain start.entry (kept (span_of domain next.entry ∷ spans))) ≡ Err fault) }
{
    if meets(next.lower, next.upper, domain) {
        return Ok(start);
    }
    match start {
        None => Ok(Some(next)),
        Some(before) => Ok(Some(joined(before, next, domain)?)),
    }
}

/// Two intervals that touch, as one; else the refusal of the gap between them.
fn joined<'a>(
    before: Interval<'a>,
    next: Interval<'a>,
    domain: Domain,
) -> Result<Interval<'a>, BackFault>
    ensures ok { IfOk result (λ both. (meets (bound_of domain before.entry.upper) (bound_of domain next.entry.lower) ≡ true)
        × (span_of domain both ≡ record { lower = bound_of domain before.entry.lower; upper = bound_of domain next.entry.upper })) }
    ensures err { IfErr result (λ fault. (meets (bound_of domain before.entry.upper) (bound_of domain next.entry.lower) ≡ false)
        × (fault ≡ gap_fault order_of (bound_of domain before.entry.upper) (bound_of domain next.entry.lower))) }
{
    if meets(before.upper, next.lower, domain) {
        Ok(Interval {
            lower: before.lower,
            upper: next.upper,
        })
    } else {
        Err(gap_fault(before.upper, next.lower, domain))
    }
}

fn gap_fault(upper: Option<Edge<'_>>, lower: Option<Edge<'_>>, domain: Domain) -> BackFault
    ensures { result ≡ gap_fault order_of (bound_of domain upper.entry) (bound_of domain lower.entry) }
{
    if is_hole(upper, lower, domain) {
        BackFault::PointHole(mark_of(lower, domain))
    } else {
        BackFault::NotOneInterval(mark_of(lower, domain))
    }
}

fn is_hole(upper: Option<Edge<'_>>, lower: Option<Edge<'_>>, domain: Domain) -> bool
    ensures { result ≡ is_hole order_of (bound_of domain upper.entry) (bound_of domain lower.entry) }
{
    match (upper, lower) {
        (Some(upper), Some(lower)) => {
            !upper.after
                && lower.after
                && compare_named(upper.version, lower.version, domain).is_eq()
        }
        _ => false,
    }
}

fn mark_of(edge: Option<Edge<'_>>, domain: Domain) -> u64
    ensures { result ≡ mark_of (bound_of domain edge.entry) }
{
    match edge {
        Some(edge) => edge.mark,
        None => 0,
    }
}

/// Whether both are there, and the first is not below the second.
fn meets(a: Option<Edge<'_>>, b: Option<Edge<'_>>, domain: Domain) -> bool
    ensures { result ≡ meets (bound_of domain a.entry) (bound_of domain b.entry) }
{
    match (a, b) {
        (Some(a), Some(b)) => !is_below(a, b, domain),
        _ => false,
    }
}

fn is_below(a: Edge<'_>, b: Edge<'_>, domain: Domain) -> bool
    ensures { result ≡ is_lt (cut_cmp order_of (cut_of domain a.entry) (cut_of domain b.entry)) }
{
    compare_named(a.version, b.version, domain)
        .then(a.after.cmp(&b.after))
        .is_lt()
}

/// How the versions compare that stand for these in the domain.
fn compare_named(a: &RpmVersion, b: &RpmVersion, domain: Domain) -> Ordering
    ensures { result ≡ order_of (named_in domain a.now) (named_in domain b.now) }
{
    match domain {
        Domain::All => Rpm::compare(a, b),
        Domain::Releases => compare_without_release(a, b),
    }
}

fn moved_span(span: &Span<RpmVersion>, domain: Domain) -> Interval<'_>
    ensures { span_of domain result ≡ moved_span domain span.now }
{
    Interval {
        lower: moved_bound(&span.lower, domain),
        upper: moved_bound(&span.upper, domain),
    }
}

fn moved_bound(cut: &Option<Cut<RpmVersion>>, domain: Domain) -> Option<Edge<'_>>
    ensures { bound_of domain result ≡ moved_bound domain cut.now }
{
    match cut {
        Some(cut) => Some(moved(cut, domain)),
        None => None,
    }
}

fn moved(cut: &Cut<RpmVersion>, domain: Domain) -> Edge<'_>
    ensures { cut_of domain result ≡ moved domain cut.now }
{
    let after = match domain {
        Domain::All => cut.after && has_release(&cut.version),
        Domain::Releases => cut.after || has_release(&cut.version),
    };
    Edge {
        version: &cut.version,
        after,
        mark: cut.mark,
    }
}

/// The cut of an edge, with a version of its own.
fn cut_of(
    alloc: Global,
    edge: Option<Edge<'_>>,
    domain: Domain,
) -> Result<Option<Cut<RpmVersion>>, NoMemory>
    ensures { IfOk result (λ cut. cut ≡ bound_of domain edge.entry) }
{
    let Some(edge) = edge else {
        return Ok(None);
    };
    let version = named_in(Rpm::copy(alloc, edge.version)?, domain);
    Ok(Some(Cut {
        version,
        after: edge.after,
        mark: edge.mark,
    }))
}
