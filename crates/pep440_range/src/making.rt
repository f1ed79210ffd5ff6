ghost use Rattle.std.specs.Prelude.{◌≡◌, ◌≢◌, None, IfOk};
ghost use Rattle.vx_scheme.specs.declared.domain.Domain.TheVariants as domain_of;
ghost use Rattle.pep440_scheme.specs.Version.{IsPublic, public_of};
ghost use Rattle.pep440_scheme.specs.Next.{last_number, next_pre_of, pre_number, raised_of, succ_of};
ghost use Rattle.pep440_range.specs.declared.construct.Comparison.TheVariants as comparison_of;
ghost use Rattle.pep440_range.specs.declared.construct.Construct.TheVariants as construct_of;
ghost use Rattle.pep440_range.specs.Holds.{release_of, without_last};
ghost use Rattle.pep440_range.specs.Refusals.{bumped, compared_outcome, raised};
ghost use Rattle.pep440_range.specs.Spans.{compared_spans, end_of, lowest_in};
ghost use Rattle.pep440_range.specs.Steps.Pushed.{IsPrefix, IsPushed, IsPushedFor, IsStep};

use crate::construct::{Comparison, Construct};
use pep440_scheme::{
    Locals, Numbers, Pep440Version, Pypi, bump, copy_numbers, dev0, next_pre, succ,
};
use std::alloc::Global;
use vx_range::{Outcome, push_above, push_below, push_between, push_from, push_point, push_up_to};
use vx_scheme::{Domain, EndKind, NoMemory, Scheme, Spans, StepFault};

/// The public part of a version. It takes no memory.
fn public_part(alloc: Global, version: Pep440Version) -> Pep440Version
    ensures { result ≡ public_of version }
{
    Pep440Version {
        epoch: version.epoch,
        release: version.release,
        pre: version.pre,
        post: version.post,
        dev: version.dev,
        local: Locals::new(alloc),
    }
}

/// The epoch and the release of a version, and nothing else. It takes no memory.
fn release_part(alloc: Global, version: Pep440Version) -> Pep440Version
    ensures { result ≡ release_of version.epoch version.release }
{
    Pep440Version {
        epoch: version.epoch,
        release: version.release,
        pre: None,
        post: None,
        dev: None,
        local: Locals::new(alloc),
    }
}

/// The next public version, unless its numeral cannot be raised within the limit.
fn next_public(alloc: Global, version: &Pep440Version) -> Result<Option<Pep440Version>, NoMemory>
    requires { IsPublic version.now }
    ensures { IfOk result (IsStep (raised (raised_of version.now)) (succ_of version.now)) }
{
    match succ(alloc, version) {
        Ok(next) => Ok(Some(next)),
        Err(StepFault::TooLarge) => Ok(None),
        Err(StepFault::NoMemory) => Err(NoMemory),
    }
}

/// The next pre-release, unless its numeral cannot be raised within the limit.
fn next_pre_release(
    alloc: Global,
    version: &Pep440Version,
) -> Result<Option<Pep440Version>, NoMemory>
    requires public { IsPublic version.now }
    requires pre { version.now.pre ≢ None }
    requires post { version.now.post ≡ None }
    requires dev { version.now.dev ≡ None }
    ensures { IfOk result (IsStep (raised (pre_number version.now.pre)) (next_pre_of version.now)) }
{
    match next_pre(alloc, version) {
        Ok(next) => Ok(Some(next)),
        Err(StepFault::TooLarge) => Ok(None),
        Err(StepFault::NoMemory) => Err(NoMemory),
    }
}

/// The version itself, with `.dev0` unless releases alone are meant.
fn lowest_in(
    alloc: Global,
    domain: Domain,
    release: Pep440Version,
) -> Result<Pep440Version, NoMemory>
    requires public { IsPublic release }
    requires dev { release.dev ≡ None }
    ensures { IfOk result (λ lowest. lowest ≡ lowest_in domain release) }
{
    match domain {
        Domain::All => dev0(alloc, &release),
        Domain::Releases => Ok(release),
    }
}

/// Where the versions end whose release begins with that of this version, unless its last number cannot be raised.
fn end_of(
    alloc: Global,
    domain: Domain,
    release: &Pep440Version,
) -> Result<Option<Pep440Version>, NoMemory>
    requires { IsPublic release.now }
    ensures { IfOk result (IsStep (bumped (last_number release.now.release)) (end_of domain release.now)) }
{
    match bump(alloc, release) {
        Ok(next) => {
            let end = lowest_in(alloc, domain, next)?;
            Ok(Some(end))
        }
        Err(StepFault::TooLarge) => Ok(None),
        Err(StepFault::NoMemory) => Err(NoMemory),
    }
}

/// The numbers without the last.
fn without_last(alloc: Global, numbers: &[u128]) -> Result<Numbers, NoMemory>
    ensures { IfOk result (λ front. front ≡ without_last numbers.now) }
{
    let mut front = copy_numbers(alloc, numbers)?;
    let _last = front.pop();
    Ok(front)
}

/// The epoch and the release of a version without its last number, unless it has no other.
fn prefix_of(alloc: Global, version: &Pep440Version) -> Result<Option<Pep440Version>, NoMemory>
    ensures { IfOk result (IsPrefix version.now) }
{
    let release = without_last(alloc, version.release.as_slice())?;
    if release.is_empty() {
        return Ok(None);
    }
    Ok(Some(Pep440Version {
        epoch: version.epoch,
        release,
        pre: None,
        post: None,
        dev: None,
        local: Locals::new(alloc),
    }))
}

/// `==V`
fn push_equal(
    alloc: Global,
    domain: Domain,
    marks: &mut u64,
    bound: Pep440Version,
    out: &mut Spans<Pep440Version>,
) -> Result<Outcome, NoMemory>
    ensures { IfOk result (IsPushedFor domain (construct_of.Equal bound) marks.old marks.new out.old out.new) }
{
    if domain.is_releases() || !bound.local.is_empty() {
        push_point::<Pypi>(alloc, marks, bound, out)?;
        return Ok(Outcome::Spans);
    }
    let Some(next) = next_public(alloc, &bound)? else {
        return Ok(Outcome::TooHigh);
    };
    push_between(marks, bound, next, out)?;
    Ok(Outcome::Spans)
}

/// `!=V`
fn push_not_equal(
    alloc: Global,
    domain: Domain,
    marks: &mut u64,
    bound: Pep440Version,
    out: &mut Spans<Pep440Version>,
) -> Result<Outcome, NoMemory>
    ensures { IfOk result (IsPushedFor domain (construct_of.NotEqual bound) marks.old marks.new out.old out.new) }
{
    if !bound.local.is_empty() || domain.is_releases() {
        let copied = Pypi::copy(alloc, &bound)?;
        push_below(marks, bound, out)?;
        push_above(marks, copied, out)?;
        return Ok(Outcome::Spans);
    }
    let Some(next) = next_public(alloc, &bound)? else {
        return Ok(Outcome::TooHigh);
    };
    push_below(marks, bound, out)?;
    push_from(marks, next, out)?;
    Ok(Outcome::Spans)
}

/// `==R.*`
fn push_within(
    alloc: Global,
    domain: Domain,
    marks: &mut u64,
    release: Pep440Version,
    out: &mut Spans<Pep440Version>,
) -> Result<Outcome, NoMemory>
    ensures { IfOk result (IsPushedFor domain (construct_of.Within release) marks.old marks.new out.old out.new) }
{
    let release = release_part(alloc, release);
    let Some(end) = end_of(alloc, domain, &release)? else {
        return Ok(Outcome::TooHigh);
    };
    let low = lowest_in(alloc, domain, release)?;
    push_between(marks, low, end, out)?;
    Ok(Outcome::Spans)
}

/// `!=R.*`
fn push_not_within(
    alloc: Global,
    domain: Domain,
    marks: &mut u64,
    release: Pep440Version,
    out: &mut Spans<Pep440Version>,
) -> Result<Outcome, NoMemory>
    ensures { IfOk result (IsPushedFor domain (construct_of.NotWithin release) marks.old marks.new out.old out.new) }
{
    let release = release_part(alloc, release);
    let Some(end) = end_of(alloc, domain, &release)? else {
        return Ok(Outcome::TooHigh);
    };
    let low = lowest_in(alloc, domain, release)?;
    push_below(marks, low, out)?;
    push_from(marks, end, out)?;
    Ok(Outcome::Spans)
}

/// `~=V`
fn push_compatible(
    alloc: Global,
    domain: Domain,
    marks: &mut u64,
    bound: Pep440Version,
    out: &mut Spans<Pep440Version>,
) -> Result<Outcome, NoMemory>
    ensures { IfOk result (IsPushed (compared_outcome comparison_of.Compatible domain bound)
        (compared_spans comparison_of.Compatible domain marks.old bound) marks.old marks.new out.old out.new) }
{
    let Some(prefix) = prefix_of(alloc, &bound)? else {
        return Ok(Outcome::TooHigh);
    };
    let Some(end) = end_of(alloc, domain, &prefix)? else {
        return Ok(Outcome::TooHigh);
    };
    push_between(marks, bound, end, out)?;
    Ok(Outcome::Spans)
}

/// `<=V`
fn push_less_or_equal(
    alloc: Global,
    domain: Domain,
    marks: &mut u64,
    bound: Pep440Version,
    out: &mut Spans<Pep440Version>,
) -> Result<Outcome, NoMemory>
    requires { IsPublic bound }
    ensures { IfOk result (IsPushed (compared_outcome comparison_of.LessOrEqual domain bound)
        (compared_spans comparison_of.LessOrEqual domain marks.old bound) marks.old marks.new out.old out.new) }
{
    match domain {
        Domain::All => {
            let Some(next) = next_public(alloc, &bound)? else {
                return Ok(Outcome::TooHigh);
            };
            push_below(marks, next, out)?;
        }
        Domain::Releases => push_up_to(marks, bound, out)?,
    }
    Ok(Outcome::Spans)
}

/// `<V`
fn push_less(
    alloc: Global,
    domain: Domain,
    marks: &mut u64,
    bound: Pep440Version,
    out: &mut Spans<Pep440Version>,
) -> Result<Outcome, NoMemory>
    requires { IsPublic bound }
    ensures { IfOk result (IsPushed (compared_outcome comparison_of.Less domain bound)
        (compared_spans comparison_of.Less domain marks.old bound) marks.old marks.new out.old out.new) }
{
    let end = match (domain, bound.pre, bound.dev) {
        (Domain::All, None, None) => dev0(alloc, &bound)?,
        _ => bound,
    };
    push_below(marks, end, out)?;
    Ok(Outcome::Spans)
}

/// `>V` in the domain of all.
fn push_greater_of_all(
    alloc: Global,
    marks: &mut u64,
    bound: Pep440Version,
    out: &mut Spans<Pep440Version>,
) -> Result<Outcome, NoMemory>
    requires { IsPublic bound }
    ensures { IfOk result (IsPushed (compared_outcome comparison_of.Greater domain_of.All bound)
        (compared_spans comparison_of.Greater domain_of.All marks.old bound) marks.old marks.new out.old out.new) }
{
    let step = match (bound.pre, bound.post, bound.dev) {
        (None, None, None) => return Ok(Outcome::NoEnd(EndKind::GreaterThanFinal)),
        (Some(_), None, None) => next_pre_release(alloc, &bound)?,
        _ => next_public(alloc, &bound)?,
    };
    let Some(next) = step else {
        return Ok(Outcome::TooHigh);
    };
    push_from(marks, next, out)?;
    Ok(Outcome::Spans)
}

/// An operator that takes a public version.
fn push_compared(
    alloc: Global,
    how: Comparison,
    domain: Domain,
    marks: &mut u64,
    bound: Pep440Version,
    out: &mut Spans<Pep440Version>,
) -> Result<Outcome, NoMemory>
    requires { IsPublic bound }
    ensures { IfOk result (IsPushed (compared_outcome how domain bound)
        (compared_spans how domain marks.old bound) marks.old marks.new out.old out.new) }
{
    match (how, domain) {
        (Comparison::Compatible, _) => push_compatible(alloc, domain, marks, bound, out),
        (Comparison::LessOrEqual, _) => push_less_or_equal(alloc, domain, marks, bound, out),
        (Comparison::Less, _) => push_less(alloc, domain, marks, bound, out),
        (Comparison::Greater, Domain::All) => push_greater_of_all(alloc, marks, bound, out),
        (Comparison::GreaterOrEqual, _) => {
            push_from(marks, bound, out)?;
            Ok(Outcome::Spans)
        }
        (Comparison::Greater, Domain::Releases) => {
            push_above(marks, bound, out)?;
            Ok(Outcome::Spans)
        }
    }
}

/// Appends the spans of a construct in the domain, if it makes any, and says what becomes of it.
pub(crate) fn push_spans(
    alloc: Global,
    construct: Construct,
    domain: Domain,
    marks: &mut u64,
    out: &mut Spans<Pep440Version>,
) -> Result<Outcome, NoMemory>
    ensures { IfOk result (IsPushedFor domain construct marks.old marks.new out.old out.new) }
{
    match construct {
        Construct::Compares(how, bound) => {
            let bound = public_part(alloc, bound);
            push_compared(alloc, how, domain, marks, bound, out)
        }
        Construct::Equal(bound) => push_equal(alloc, domain, marks, bound, out),
        Construct::NotEqual(bound) => push_not_equal(alloc, domain, marks, bound, out),
        Construct::Within(release) => push_within(alloc, domain, marks, release, out),
        Construct::NotWithin(release) => push_not_within(alloc, domain, marks, release, out),
        Construct::Identical(_text) => Ok(Outcome::NoEnd(EndKind::ArbitraryEquality)),
    }
}
