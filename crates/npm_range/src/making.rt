ghost use Rattle.std.specs.Prelude.{◌≡◌, ◌+◌, false, Some, IfOk, IfErr};
ghost use Rattle.vx_scheme.specs.declared.domain.Domain.TheVariants.{All};
ghost use Rattle.vx_range.specs.Steps.Raised.{IsRaised, IsTooLarge};
ghost use Rattle.npm_scheme.specs.Version.{release_of};
ghost use Rattle.npm_range.specs.declared.construct.Partial.TheVariants.{Full};
ghost use Rattle.npm_range.specs.declared.construct.Operator.TheVariants as operator_of;
ghost use Rattle.npm_range.specs.Refusals.{is_raisable};
ghost use Rattle.npm_range.specs.Spans.{end_of, to_next_major, to_next_minor, to_next_patch, greater_equal_extent, less_extent};
ghost use Rattle.npm_range.specs.Steps.Pushed.{IsRow, IsRefused, IsPushedFor};

use crate::construct::{Construct, Operator, Partial};
use npm_scheme::{Npm, NpmVersion, lowest};
use std::alloc::Global;
use vx_range::{Extent, Outcome, push_extent};
use vx_scheme::{Domain, Idents, NoMemory, Spans, StepFault, Text};

/// One more than a numeral, unless that is past the limit.
fn raise(numeral: u128) -> Result<u128, StepFault>
    ensures ok { IfOk result (IsRaised (is_raisable (Some numeral)) (numeral + 1)) }
    ensures err { IfErr result (λ _. is_raisable (Some numeral) ≡ false) }
{
    match numeral.checked_add(1) {
        Some(next) => Ok(next),
        None => Err(StepFault::TooLarge),
    }
}

/// `M.m.p`
pub(crate) fn release(alloc: Global, major: u128, minor: u128, patch: u128) -> NpmVersion
    ensures { result ≡ release_of major minor patch }
{
    NpmVersion {
        major,
        minor,
        patch,
        pre: Idents::new(alloc),
        build: Text::new(alloc),
    }
}

/// `M.m.p-0`, whose `-0` is left out among releases.
fn end_of(
    alloc: Global,
    domain: Domain,
    major: u128,
    minor: u128,
    patch: u128,
) -> Result<NpmVersion, NoMemory>
    ensures { IfOk result (λ version. version ≡ end_of domain major minor patch) }
{
    match domain {
        Domain::All => lowest(alloc, major, minor, patch),
        Domain::Releases => Ok(release(alloc, major, minor, patch)),
    }
}

/// The end of the versions with this first number.
fn next_major(alloc: Global, domain: Domain, major: u128) -> Result<NpmVersion, StepFault>
    ensures ok { IfOk result (IsRaised (is_raisable (Some major)) (end_of domain (major + 1) 0 0)) }
    ensures err { IfErr result (IsTooLarge (is_raisable (Some major))) }
{
    let major = raise(major)?;
    Ok(end_of(alloc, domain, major, 0, 0)?)
}

/// The end of the versions with these first two numbers.
fn next_minor(
    alloc: Global,
    domain: Domain,
    major: u128,
    minor: u128,
) -> Result<NpmVersion, StepFault>
    ensures ok { IfOk result (IsRaised (is_raisable (Some minor)) (end_of domain major (minor + 1) 0)) }
    ensures err { IfErr result (IsTooLarge (is_raisable (Some minor))) }
{
    let minor = raise(minor)?;
    Ok(end_of(alloc, domain, major, minor, 0)?)
}

/// From a version to the end of those with its first number.
fn to_next_major(
    alloc: Global,
    domain: Domain,
    low: NpmVersion,
) -> Result<Extent<NpmVersion>, StepFault>
    ensures ok { IfOk result (IsRaised (is_raisable (Some low.major)) (to_next_major domain low)) }
    ensures err { IfErr result (IsTooLarge (is_raisable (Some low.major))) }
{
    let end = next_major(alloc, domain, low.major)?;
    Ok(Extent::Between(low, end))
}

/// From a version to the end of those with its first two numbers.
fn to_next_minor(
    alloc: Global,
    domain: Domain,
    low: NpmVersion,
) -> Result<Extent<NpmVersion>, StepFault>
    ensures ok { IfOk result (IsRaised (is_raisable (Some low.minor)) (to_next_minor domain low)) }
    ensures err { IfErr result (IsTooLarge (is_raisable (Some low.minor))) }
{
    let end = next_minor(alloc, domain, low.major, low.minor)?;
    Ok(Extent::Between(low, end))
}

/// From a version to the end of those with its three numbers.
fn to_next_patch(
    alloc: Global,
    domain: Domain,
    low: NpmVersion,
) -> Result<Extent<NpmVersion>, StepFault>
    ensures ok { IfOk result (IsRaised (is_raisable (Some low.patch)) (to_next_patch domain low)) }
    ensures err { IfErr result (IsTooLarge (is_raisable (Some low.patch))) }
{
    let patch = raise(low.patch)?;
    let end = end_of(alloc, domain, low.major, low.minor, patch)?;
    Ok(Extent::Between(low, end))
}

/// Nothing, `=`. Of one number or two, or none, it is `~`.
fn equal(alloc: Global, domain: Domain, partial: Partial) -> Result<Extent<NpmVersion>, StepFault>
    ensures ok { IfOk result (IsRow operator_of.Equal domain partial) }
    ensures err { IfErr result (IsRefused operator_of.Equal partial) }
{
    match partial {
        Partial::Full(version) => Ok(Extent::Point(version)),
        shorter => tilde(alloc, domain, shorter),
    }
}

/// `>`
fn greater(alloc: Global, partial: Partial) -> Result<Extent<NpmVersion>, StepFault>
    ensures ok { IfOk result (IsRow operator_of.Greater All partial) }
    ensures err { IfErr result (IsRefused operator_of.Greater partial) }
{
    let domain = Domain::Releases;
    match partial {
        Partial::Full(version) => Ok(Extent::Above(version)),
        Partial::Minor(major, minor) => Ok(Extent::From(next_minor(alloc, domain, major, minor)?)),
        Partial::Major(major) => Ok(Extent::From(next_major(alloc, domain, major)?)),
        Partial::Any => Ok(Extent::Nothing),
    }
}

/// `>=`. It takes no memory.
fn greater_equal(alloc: Global, partial: Partial) -> Extent<NpmVersion>
    ensures { result ≡ greater_equal_extent partial }
{
    match partial {
        Partial::Full(version) => Extent::From(version),
        Partial::Minor(major, minor) => Extent::From(release(alloc, major, minor, 0)),
        Partial::Major(major) => Extent::From(release(alloc, major, 0, 0)),
        Partial::Any => Extent::Every,
    }
}

/// `<`
fn less(alloc: Global, domain: Domain, partial: Partial) -> Result<Extent<NpmVersion>, NoMemory>
    ensures { IfOk result (λ extent. extent ≡ less_extent domain partial) }
{
    match partial {
        Partial::Full(version) => Ok(Extent::Below(version)),
        Partial::Minor(major, minor) => Ok(Extent::Below(end_of(alloc, domain, major, minor, 0)?)),
        Partial::Major(major) => Ok(Extent::Below(end_of(alloc, domain, major, 0, 0)?)),
        Partial::Any => Ok(Extent::Nothing),
    }
}

/// `<=`
fn less_equal(
    alloc: Global,
    domain: Domain,
    partial: Partial,
) -> Result<Extent<NpmVersion>, StepFault>
    ensures ok { IfOk result (IsRow operator_of.LessEqual domain partial) }
    ensures err { IfErr result (IsRefused operator_of.LessEqual partial) }
{
    match partial {
        Partial::Full(version) => Ok(Extent::UpTo(version)),
        Partial::Minor(major, minor) => Ok(Extent::Below(next_minor(alloc, domain, major, minor)?)),
        Partial::Major(major) => Ok(Extent::Below(next_major(alloc, domain, major)?)),
        Partial::Any => Ok(Extent::Every),
    }
}

/// `~`, `~>`
fn tilde(alloc: Global, domain: Domain, partial: Partial) -> Result<Extent<NpmVersion>, StepFault>
    ensures ok { IfOk result (IsRow operator_of.Tilde domain partial) }
    ensures err { IfErr result (IsRefused operator_of.Tilde partial) }
{
    match partial {
        Partial::Full(version) => to_next_minor(alloc, domain, version),
        Partial::Minor(major, minor) => {
            to_next_minor(alloc, domain, release(alloc, major, minor, 0))
        }
        Partial::Major(major) => to_next_major(alloc, domain, release(alloc, major, 0, 0)),
        Partial::Any => Ok(Extent::Every),
    }
}

/// `^` of a full version: its first number that is not 0 is raised, or the third where all are 0.
fn caret_of_full(
    alloc: Global,
    domain: Domain,
    version: NpmVersion,
) -> Result<Extent<NpmVersion>, StepFault>
    ensures ok { IfOk result (IsRow operator_of.Caret domain (Full version)) }
    ensures err { IfErr result (IsRefused operator_of.Caret (Full version)) }
{
    if version.major != 0 {
        to_next_major(alloc, domain, version)
    } else if version.minor != 0 {
        to_next_minor(alloc, domain, version)
    } else {
        to_next_patch(alloc, domain, version)
    }
}

/// `^`. Of `0.m`, of one number or none, it is `~`.
fn caret(alloc: Global, domain: Domain, partial: Partial) -> Result<Extent<NpmVersion>, StepFault>
    ensures ok { IfOk result (IsRow operator_of.Caret domain partial) }
    ensures err { IfErr result (IsRefused operator_of.Caret partial) }
{
    match partial {
        Partial::Full(version) => caret_of_full(alloc, domain, version),
        Partial::Minor(major, minor) if major != 0 => {
            to_next_major(alloc, domain, release(alloc, major, minor, 0))
        }
        shorter => tilde(alloc, domain, shorter),
    }
}

/// The extent of a construct in the domain, unless a numeral would be raised past the limit.
fn extent_of(
    alloc: Global,
    construct: Construct,
    domain: Domain,
) -> Result<Extent<NpmVersion>, StepFault>
    ensures ok { IfOk result (IsRow construct.operator domain construct.partial) }
    ensures err { IfErr result (IsRefused construct.operator construct.partial) }
{
    let Construct { operator, partial } = construct;
    match operator {
        Operator::Equal => equal(alloc, domain, partial),
        Operator::Less => Ok(less(alloc, domain, partial)?),
        Operator::LessEqual => less_equal(alloc, domain, partial),
        Operator::Greater => greater(alloc, partial),
        Operator::GreaterEqual => Ok(greater_equal(alloc, partial)),
        Operator::Tilde => tilde(alloc, domain, partial),
        Operator::Caret => caret(alloc, domain, partial),
    }
}

/// Appends the span of a construct in the domain, unless a numeral would be raised past the limit.
pub(crate) fn push_spans(
    alloc: Global,
    construct: Construct,
    domain: Domain,
    marks: &mut u64,
    out: &mut Spans<NpmVersion>,
) -> Result<Outcome, NoMemory>
    ensures { IfOk result (IsPushedFor construct.operator domain construct.partial marks.old marks.new out.old out.new) }
{
    match extent_of(alloc, construct, domain) {
        Ok(extent) => {
            push_extent::<Npm>(alloc, extent, marks, out)?;
            Ok(Outcome::Spans)
        }
        Err(StepFault::TooLarge) => Ok(Outcome::TooHigh),
        Err(StepFault::NoMemory) => Err(NoMemory),
    }
}
