ghost use Rattle.std.specs.Prelude.{◌≡◌, ◌++◌, ◌∷◌, [], Some, Ok, Err, IfOk, IfErr, OnOk, MatchOption};
ghost use Rattle.vx_scheme.specs.Cuts.{cut_cmp};
ghost use Rattle.vx_scheme.specs.Native.{BackRefused};
ghost use Rattle.cargo_range.specs.Order.{precedence};
ghost use Rattle.cargo_range.specs.Back.{sign_text, bound_text, lower_bound, upper_bound, requirement_text, bounds_of, interval_text, move_cut, move_bound, move_span, is_proper, touch, among_releases, back_of};
ghost use Rattle.cargo_range.specs.Steps.Intervals.{join_next, extend};

use crate::scheme::Cargo;
use crate::version::{CargoVersion, release};
use std::alloc::Global;
use std::cmp::Ordering;
use vx_range::{gap_fault, is_point};
use vx_scheme::{BackFault, Cut, NoMemory, Scheme, Span, Text};

/// The sign of a comparator that is printed.
#[derive(Debug, Clone, Copy, PartialEq, Eq)]
pub enum Sign {
    /// `=`
    Exact,
    /// `>`
    Greater,
    /// `>=`
    GreaterEqual,
    /// `<`
    Less,
    /// `<=`
    LessEqual,
}

/// The text of a sign. It takes no memory.
fn sign_text(sign: Sign) -> &'static str
    ensures { result.now ≡ sign_text sign }
{
    match sign {
        Sign::Exact => "=",
        Sign::Greater => ">",
        Sign::GreaterEqual => ">=",
        Sign::Less => "<",
        Sign::LessEqual => "<=",
    }
}

/// The cut that parts the same releases: one at a pre-release stands before the release of its numbers. It takes no memory.
fn move_cut(cut: &Cut<CargoVersion>) -> Cut<CargoVersion>
    ensures { result ≡ move_cut cut.now }
{
    let version = &cut.version.inner;
    Cut {
        version: release(version.major, version.minor, version.patch),
        after: cut.after && version.pre.is_empty(),
        mark: cut.mark,
    }
}

fn move_bound(cut: &Option<Cut<CargoVersion>>) -> Option<Cut<CargoVersion>>
    ensures { result ≡ move_bound cut.now }
{
    match cut {
        Some(cut) => Some(move_cut(cut)),
        None => None,
    }
}

fn move_span(span: &Span<CargoVersion>) -> Span<CargoVersion>
    ensures { result ≡ move_span span.now }
{
    Span {
        lower: move_bound(&span.lower),
        upper: move_bound(&span.upper),
    }
}

fn compare_cuts(a: &Cut<CargoVersion>, b: &Cut<CargoVersion>) -> Ordering
    ensures { result ≡ cut_cmp precedence a.now b.now }
{
    Cargo::compare(&a.version, &b.version).then(a.after.cmp(&b.after))
}

/// Whether the lower cut is below the upper one, where both are there. It takes no memory.
fn is_proper(span: &Span<CargoVersion>) -> bool
    ensures { result ≡ is_proper span.now }
{
    match (&span.lower, &span.upper) {
        (Some(lower), Some(upper)) => compare_cuts(lower, upper).is_lt(),
        _ => true,
    }
}

/// Whether a span ends where the next one begins. It takes no memory.
fn touch(upper: &Option<Cut<CargoVersion>>, lower: &Option<Cut<CargoVersion>>) -> bool
    ensures { result ≡ touch upper.now lower.now }
{
    match (upper, lower) {
        (Some(upper), Some(lower)) => compare_cuts(upper, lower).is_eq(),
        _ => false,
    }
}

/// The interval so far with the next span, which it has to touch.
fn join_next(
    before: Option<Span<CargoVersion>>,
    span: Span<CargoVersion>,
) -> Result<Span<CargoVersion>, BackFault>
    ensures { result ≡ join_next before span }
{
    let Some(before) = before else {
        return Ok(span);
    };
    if !touch(&before.upper, &span.lower) {
        return Err(gap_fault::<Cargo>(&before.upper, &span.lower));
    }
    Ok(Span {
        lower: before.lower,
        upper: span.upper,
    })
}

/// The interval so far with the next span, unless that holds no release.
fn extend(
    before: Option<Span<CargoVersion>>,
    span: &Span<CargoVersion>,
) -> Result<Option<Span<CargoVersion>>, BackFault>
    ensures { result ≡ extend before (move_span span.now) }
{
    let span = move_span(span);
    if is_proper(&span) {
        let next = join_next(before, span)?;
        Ok(Some(next))
    } else {
        Ok(before)
    }
}

/// The one span that is left of these among releases, if any is. Where more are left, the first gap is refused. It takes no
/// memory.
fn interval(spans: &[Span<CargoVersion>]) -> Result<Option<Span<CargoVersion>>, BackFault>
    ensures ok { IfOk result (λ found. MatchOption found (among_releases spans.now ≡ []) (λ span. among_releases spans.now ≡ span ∷ [])) }
    ensures err { IfErr result (λ fault. back_of (among_releases spans.now) ≡ Err fault) }
{
    let mut found = None;
    for span in spans {
        found = extend(found, span)?;
    }
    Ok(found)
}

fn push_bound(out: &mut Text, sign: Sign, version: &CargoVersion) -> Result<(), NoMemory>
    ensures { OnOk result (out.new ≡ out.old ++ bound_text (record { sign = sign; version = version.now })) }
{
    out.push_str(sign_text(sign))?;
    Cargo::write(version, out)
}

fn push_lower(out: &mut Text, cut: &Cut<CargoVersion>) -> Result<(), NoMemory>
    ensures { OnOk result (out.new ≡ out.old ++ bound_text (lower_bound cut.now)) }
{
    if cut.after {
        push_bound(out, Sign::Greater, &cut.version)
    } else {
        push_bound(out, Sign::GreaterEqual, &cut.version)
    }
}

fn push_upper(out: &mut Text, cut: &Cut<CargoVersion>) -> Result<(), NoMemory>
    ensures { OnOk result (out.new ≡ out.old ++ bound_text (upper_bound cut.now)) }
{
    if cut.after {
        push_bound(out, Sign::LessEqual, &cut.version)
    } else {
        push_bound(out, Sign::Less, &cut.version)
    }
}

fn push_between(
    out: &mut Text,
    lower: &Cut<CargoVersion>,
    upper: &Cut<CargoVersion>,
) -> Result<(), NoMemory>
    ensures { OnOk result (out.new ≡ out.old ++ interval_text (record { lower = Some lower.now; upper = Some upper.now })) }
{
    if is_point::<Cargo>(lower, upper) {
        return push_bound(out, Sign::Exact, &lower.version);
    }
    push_lower(out, lower)?;
    out.push_str(", ")?;
    push_upper(out, upper)
}

fn push_interval(out: &mut Text, span: &Span<CargoVersion>) -> Result<(), NoMemory>
    ensures { OnOk result (out.new ≡ out.old ++ interval_text span.now) }
{
    match (&span.lower, &span.upper) {
        (None, None) => out.push_str("*"),
        (Some(lower), None) => push_lower(out, lower),
        (None, Some(upper)) => push_upper(out, upper),
        (Some(lower), Some(upper)) => push_between(out, lower, upper),
    }
}

/// The room for a requirement, which two comparators of usual length take.
const USUAL_LENGTH: usize = 24;

/// The requirement of spans. `NothingInDomain(1)` comes exactly where no span is left among releases, and `PointHole` or
/// `NotOneInterval` exactly where more than one is left, by the first gap.
pub(crate) fn text_of_spans(alloc: Global, spans: &[Span<CargoVersion>]) -> Result<Text, BackFault>
    ensures ok { IfOk result (λ text. back_of (among_releases spans.now) ≡ Ok text) }
    ensures err { IfErr result (BackRefused (back_of (among_releases spans.now))) }
{
    let Some(span) = interval(spans)? else {
        return Err(BackFault::NothingInDomain(1));
    };
    let mut out = Text::with_room(alloc, USUAL_LENGTH)?;
    push_interval(&mut out, &span)?;
    Ok(out)
}
