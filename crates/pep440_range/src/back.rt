ghost use Rattle.std.specs.List.{AllByRecursion, suffix_len};
ghost use Rattle.std.specs.Prelude.{◌≡◌, ◌≢◌, ◌≤◌, ◌++◌, [], length, None, Some, Ok, IfOk, IfErr, OnOk, MatchOption, true, false};
ghost use Rattle.vx_scheme.specs.Native.{BackRefused};
ghost use Rattle.vx_scheme.specs.declared.back_fault.BackFault.TheVariants as back_fault_of;
ghost use Rattle.vx_range.specs.Spans.{is_point};
ghost use Rattle.pep440_scheme.specs.Order.{order_of};
ghost use Rattle.pep440_scheme.specs.Version.{IsRelease, IsSmall};
ghost use Rattle.pep440_scheme.specs.Next.{IsAtLimit, last_number};
ghost use Rattle.pep440_scheme.specs.Writing.{normal};
ghost use Rattle.pep440_range.specs.Holds.{release_of};
ghost use Rattle.pep440_range.specs.Back.{all_gaps, back, bound_fault, construct_text, constructs_of, first_fault, gap_construct, gap_fault, gaps_fault, holds_locals, is_local, is_one_version, is_series, is_zero, lower_constructs, lowered_last, other_gap, range_text, series_before, single_by, single_of, upper_constructs, without_zeros};
ghost use Rattle.pep440_range.specs.Spans.{lowest_in};
ghost use Rattle.pep440_range.specs.Steps.BackTexts.{comma, listed, parts_fault, parts_of};

use pep440_scheme::{Locals, Numbers, Pep440Version, Pypi, bump, succ};
use std::alloc::Global;
use vx_range::is_point;
use vx_scheme::{BackFault, Cut, Domain, NoMemory, Scheme, Span, StepFault, Text};

/// The range text of spans in a domain, or its first refusal: `LocalBound`, `LocalsApart` or `NotOneInterval`, of the lower
/// bound, of a gap or of the upper bound.
pub(crate) fn text_of(
    alloc: Global,
    spans: &[Span<Pep440Version>],
    domain: Domain,
) -> Result<Text, BackFault>
    ensures ok { IfOk result (λ text. back domain spans.now ≡ Ok text) }
    ensures err { IfErr result (BackRefused (back domain spans.now)) }
{
    let mut text = Text::new(alloc);
    match single_of(alloc, spans, domain)? {
        Some(version) => push_construct(&mut text, "==", version)?,
        None => push_all(alloc, &mut text, spans, domain)?,
    }
    Ok(text)
}

/// The version of a single span that holds what `==V` holds of.
fn single_of<'a>(
    alloc: Global,
    spans: &'a [Span<Pep440Version>],
    domain: Domain,
) -> Result<Option<&'a Pep440Version>, NoMemory>
    ensures { IfOk result (λ found. MatchOption found (single_of domain spans.now ≡ None) (λ v. single_of domain spans.now ≡ Some v.now)) }
{
    match spans {
        [span] => single_between(alloc, &span.lower, &span.upper, domain),
        _ => Ok(None),
    }
}

fn single_between<'a>(
    alloc: Global,
    lower: &'a Option<Cut<Pep440Version>>,
    upper: &'a Option<Cut<Pep440Version>>,
    domain: Domain,
) -> Result<Option<&'a Pep440Version>, NoMemory>
    ensures { IfOk result (λ found. MatchOption found (single_by domain lower.now upper.now ≡ None) (λ v. single_by domain lower.now upper.now ≡ Some v.now)) }
{
    match (lower, upper) {
        (Some(lower), Some(upper)) => {
            if is_one_version(alloc, lower, upper, domain)? {
                Ok(Some(&lower.version))
            } else {
                Ok(None)
            }
        }
        _ => Ok(None),
    }
}

// ---- what lies between two cuts

/// Whether what lies between the cuts is what `==V` holds of, V being the version of the first.
#[tactic(auto, using(crate::proofs::BackLaws::public_one))]
fn is_one_version(
    alloc: Global,
    lower: &Cut<Pep440Version>,
    upper: &Cut<Pep440Version>,
    domain: Domain,
) -> Result<bool, NoMemory>
    ensures { IfOk result (λ told. told ≡ is_one_version domain lower.now upper.now) }
{
    match domain {
        Domain::Releases => Ok(is_point::<Pypi>(lower, upper)),
        Domain::All => {
            if is_local(&lower.version) {
                return Ok(is_point::<Pypi>(lower, upper));
            }
            holds_locals(alloc, lower, upper)
        }
    }
}

fn is_local(version: &Pep440Version) -> bool
    ensures { result ≡ is_local version.now }
{
    !version.local.is_empty()
}

/// Whether the cuts stand before a public version and before the next one.
fn holds_locals(
    alloc: Global,
    lower: &Cut<Pep440Version>,
    upper: &Cut<Pep440Version>,
) -> Result<bool, NoMemory>
    ensures { IfOk result (λ told. told ≡ holds_locals lower.now upper.now) }
{
    if lower.after || upper.after || is_local(&lower.version) {
        return Ok(false);
    }
    let _within = upper.version.epoch;
    match succ(alloc, &lower.version) {
        Ok(next) => Ok(Pypi::compare(&upper.version, &next).is_eq()),
        // A version within the limit is none with a greater numeral.
        Err(StepFault::TooLarge) => Ok(false),
        Err(StepFault::NoMemory) => Err(NoMemory),
    }
}

/// The R such that what lies between the cuts is what `==R.*` holds of in the domain.
fn series_between(
    alloc: Global,
    lower: &Cut<Pep440Version>,
    upper: &Cut<Pep440Version>,
    domain: Domain,
) -> Result<Option<Pep440Version>, NoMemory>
    ensures { IfOk result (λ found. MatchOption found (is_series domain lower.now upper.now ≡ false)
        (λ r. (is_series domain lower.now upper.now ≡ true) × (r ≡ series_before upper.now.version))) }
{
    if lower.after || upper.after {
        return Ok(None);
    }
    let Some(series) = series_before(alloc, &upper.version)? else {
        return Ok(None);
    };
    let behind = match bump(alloc, &series) {
        Ok(behind) => lowest_in(alloc, behind, domain),
        // The number that is raised was lowered before.
        Err(StepFault::TooLarge) => unreachable!(),
        Err(StepFault::NoMemory) => return Err(NoMemory),
    };
    if !Pypi::compare(&upper.version, &behind).is_eq() {
        return Ok(None);
    }
    let lowest = lowest_in(alloc, series, domain);
    if !Pypi::compare(&lower.version, &lowest).is_eq() {
        return Ok(None);
    }
    Ok(Some(release_alone(alloc, lowest)))
}

/// The release of which `==R.*` could end before the version. `None` exactly where all its numbers are 0.
fn series_before(alloc: Global, version: &Pep440Version) -> Result<Option<Pep440Version>, NoMemory>
    ensures { IfOk result (λ found. MatchOption found (without_zeros version.now.release ≡ [])
        (λ r. ((without_zeros version.now.release ≢ []) × (r ≡ series_before version.now)) × ¬ (IsAtLimit (last_number r.release)))) }
{
    let numbers = without_zeros(version.release.as_slice());
    let Some(release) = lowered_last(alloc, numbers)? else {
        return Ok(None);
    };
    Ok(Some(Pep440Version {
        epoch: version.epoch,
        release,
        pre: None,
        post: None,
        dev: None,
        local: Locals::new(alloc),
    }))
}

/// The numbers, the last one lowered by one. `None` exactly where there is none.
fn lowered_last(alloc: Global, numbers: &[u128]) -> Result<Option<Numbers>, NoMemory>
    requires { AllByRecursion IsSmall numbers.now }
    ensures { IfOk result (λ found. MatchOption found (numbers.now ≡ [])
        (λ r. ((numbers.now ≢ []) × (r ≡ lowered_last numbers.now)) × (AllByRecursion IsSmall r × ¬ (IsAtLimit (last_number r))))) }
{
    let mut lowered = Numbers::with_room(alloc, numbers.len())?;
    for number in numbers {
        lowered.push(*number)?;
    }
    let Some(last) = lowered.pop() else {
        return Ok(None);
    };
    lowered.push(last.saturating_sub(1))?;
    Ok(Some(lowered))
}

fn without_zeros(numbers: &[u128]) -> &[u128]
    ensures { result.now ≡ without_zeros numbers.now }
{
    &numbers[..numbers.len() - zero_count(numbers)]
}

fn zero_count(numbers: &[u128]) -> usize
    ensures count { result ≡ suffix_len is_zero numbers.now }
    ensures within { result ≤ length numbers.now }
{
    numbers
        .iter()
        .rev()
        .take_while(|number| **number == 0)
        .count()
}

/// The lowest version of the domain whose release begins with this one.
fn lowest_in(alloc: Global, release: Pep440Version, domain: Domain) -> Pep440Version
    requires alone { IsRelease release }
    ensures { result ≡ lowest_in domain release }
{
    match domain {
        Domain::All => Pep440Version {
            epoch: release.epoch,
            release: release.release,
            pre: None,
            post: None,
            dev: Some(0),
            local: Locals::new(alloc),
        },
        Domain::Releases => release,
    }
}

/// The epoch and the release alone.
fn release_alone(alloc: Global, version: Pep440Version) -> Pep440Version
    ensures { result ≡ release_of version.epoch version.release }
{
    Pep440Version {
        epoch: version.epoch,
        release: version.release,
        pre: None,
        post: None,
        dev: None,
        local: Locals::new(alloc),
    }
}

// ---- what is written

/// Appends the bounds of all spans together and a construct for each gap, or answers the first refusal.
fn push_all(
    alloc: Global,
    out: &mut Text,
    spans: &[Span<Pep440Version>],
    domain: Domain,
) -> Result<(), BackFault>
    ensures ok { OnOk result ((first_fault domain spans.now ≡ None) × (out.new ≡ out.old ++ range_text (constructs_of domain spans.now))) }
    ensures err { IfErr result (λ fault. fault ≢ back_fault_of.NoMemory → first_fault domain spans.now ≡ Some fault) }
{
    match spans {
        [] => Ok(()),
        [single] => push_parts(alloc, out, &single.lower, &single.upper, spans, domain),
        [first, .., last] => push_parts(alloc, out, &first.lower, &last.upper, spans, domain),
    }
}

/// Appends a lower bound, an upper bound, and a construct for each gap of the spans, or answers the first refusal of the
/// lower bound, the gaps and the upper bound.
fn push_parts(
    alloc: Global,
    out: &mut Text,
    lower: &Option<Cut<Pep440Version>>,
    upper: &Option<Cut<Pep440Version>>,
    spans: &[Span<Pep440Version>],
    domain: Domain,
) -> Result<(), BackFault>
    ensures ok { OnOk result ((parts_fault domain lower.now upper.now spans.now ≡ None)
        × (out.new ≡ out.old ++ listed false (parts_of domain lower.now upper.now spans.now))) }
    ensures err { IfErr result (λ fault. fault ≢ back_fault_of.NoMemory → parts_fault domain lower.now upper.now spans.now ≡ Some fault) }
{
    refuse(bound_fault(lower, domain))?;
    push_lower(out, lower)?;
    push_upper(out, lower.is_some(), upper, domain)?;
    let some = lower.is_some() || upper.is_some();
    push_gaps(alloc, out, some, spans, domain)?;
    refuse(bound_fault(upper, domain))
}

fn refuse(fault: Option<BackFault>) -> Result<(), BackFault>
    ensures ok { OnOk result (fault ≡ None) }
    ensures err { IfErr result (λ found. fault ≡ Some found) }
{
    match fault {
        Some(fault) => Err(fault),
        None => Ok(()),
    }
}

/// Why a bound is not written, where it is not.
fn bound_fault(cut: &Option<Cut<Pep440Version>>, domain: Domain) -> Option<BackFault>
    ensures { result ≡ bound_fault domain cut.now }
{
    let Some(cut) = cut else {
        return None;
    };
    if is_local(&cut.version) {
        return Some(BackFault::LocalBound(cut.mark));
    }
    match domain {
        Domain::All if cut.after => Some(BackFault::LocalsApart(cut.mark)),
        _ => None,
    }
}

fn push_lower(out: &mut Text, cut: &Option<Cut<Pep440Version>>) -> Result<(), NoMemory>
    ensures { OnOk result (out.new ≡ out.old ++ listed false (lower_constructs cut.now)) }
{
    match cut {
        Some(cut) if cut.after => push_construct(out, ">", &cut.version),
        Some(cut) => push_construct(out, ">=", &cut.version),
        None => Ok(()),
    }
}

/// Appends an upper bound. `some` says that a construct stands before it.
fn push_upper(
    out: &mut Text,
    some: bool,
    cut: &Option<Cut<Pep440Version>>,
    domain: Domain,
) -> Result<(), NoMemory>
    ensures { OnOk result (out.new ≡ out.old ++ listed some (upper_constructs domain cut.now)) }
{
    let Some(cut) = cut else {
        return Ok(());
    };
    push_comma(out, some)?;
    match domain {
        Domain::Releases if cut.after => push_construct(out, "<=", &cut.version),
        Domain::All if cut.version.pre.is_none() && cut.version.dev.is_none() => {
            push_construct(out, "<=", &cut.version)?;
            push_construct(out, ",!=", &cut.version)
        }
        _ => push_construct(out, "<", &cut.version),
    }
}

/// Appends a construct for each gap, or answers the first refusal of one. `some` says that a construct stands before them.
fn push_gaps(
    alloc: Global,
    out: &mut Text,
    some: bool,
    spans: &[Span<Pep440Version>],
    domain: Domain,
) -> Result<(), BackFault>
    ensures ok { OnOk result ((gaps_fault domain spans.now ≡ None) × (out.new ≡ out.old ++ listed some (all_gaps domain spans.now))) }
    ensures err { IfErr result (λ fault. fault ≢ back_fault_of.NoMemory → gaps_fault domain spans.now ≡ Some fault) }
{
    let mut some = some;
    let mut rest = spans;
    'gaps: while let [span, next, ..] = rest {
        if let (Some(lower), Some(upper)) = (&span.upper, &next.lower) {
            push_gap(alloc, out, some, lower, upper, domain)?;
            some = true;
        }
        rest = &rest[1..];
    }
    Ok(())
}

fn push_gap(
    alloc: Global,
    out: &mut Text,
    some: bool,
    lower: &Cut<Pep440Version>,
    upper: &Cut<Pep440Version>,
    domain: Domain,
) -> Result<(), BackFault>
    ensures ok { OnOk result ((gap_fault domain (Some lower.now) (Some upper.now) ≡ None)
        × (out.new ≡ (out.old ++ comma some) ++ construct_text (gap_construct domain lower.now upper.now))) }
    ensures err { IfErr result (λ fault. fault ≢ back_fault_of.NoMemory → gap_fault domain (Some lower.now) (Some upper.now) ≡ Some fault) }
{
    if is_one_version(alloc, lower, upper, domain)? {
        push_comma(out, some)?;
        push_construct(out, "!=", &lower.version)?;
        return Ok(());
    }
    let Some(series) = series_between(alloc, lower, upper, domain)? else {
        return Err(other_gap(lower, upper, domain));
    };
    push_comma(out, some)?;
    push_construct(out, "!=", &series)?;
    out.push_str(".*")?;
    Ok(())
}

/// Why a gap is not written.
fn other_gap(lower: &Cut<Pep440Version>, upper: &Cut<Pep440Version>, domain: Domain) -> BackFault
    ensures { result ≡ other_gap domain (is_point order_of lower.now upper.now) upper.now.mark }
{
    match domain {
        Domain::All if is_point::<Pypi>(lower, upper) => BackFault::LocalsApart(upper.mark),
        _ => BackFault::NotOneInterval(upper.mark),
    }
}

fn push_comma(out: &mut Text, some: bool) -> Result<(), NoMemory>
    ensures { OnOk result (out.new ≡ out.old ++ comma some) }
{
    if some {
        out.push_str(",")?;
    }
    Ok(())
}

/// Appends an operator and the normal text of a version.
fn push_construct(out: &mut Text, signs: &str, version: &Pep440Version) -> Result<(), NoMemory>
    ensures { OnOk result (out.new ≡ out.old ++ (signs.now ++ normal version.now)) }
{
    out.push_str(signs)?;
    Pypi::write(version, out)
}
