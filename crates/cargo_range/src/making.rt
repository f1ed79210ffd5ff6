ghost use Rattle.std.specs.Prelude.{◌≡◌, ◌+◌, false, Some, IfOk, IfErr, OnOk};
ghost use Rattle.semver.specs.declared.Op.TheVariants as op;
ghost use Rattle.vx_range.specs.Steps.Raised.{IsRaised, IsTooLarge};
ghost use Rattle.cargo_range.specs.declared.construct.Partial.TheVariants.{Full};
ghost use Rattle.cargo_range.specs.Version.{release_of};
ghost use Rattle.cargo_range.specs.Refusals.{is_raisable};
ghost use Rattle.cargo_range.specs.Spans.{lowest_of, to_next_major, to_next_minor};
ghost use Rattle.cargo_range.specs.Steps.Pushed.{IsRow, IsRefused, IsPushed};

use crate::construct::{Construct, Partial};
use crate::scheme::Cargo;
use crate::version::{CargoVersion, release};
use semver::Op;
use std::alloc::Global;
use vx_range::{Extent, push_extent};
use vx_scheme::{Spans, StepFault};

/// One more than a number, unless that is past the limit.
fn raise(number: u64) -> Result<u64, StepFault>
    ensures ok { IfOk result (IsRaised (is_raisable (Some number)) (number + 1)) }
    ensures err { IfErr result (λ _. is_raisable (Some number) ≡ false) }
{
    match number.checked_add(1) {
        Some(next) => Ok(next),
        None => Err(StepFault::TooLarge),
    }
}

/// `(M+1).0.0`
fn next_major(major: u64) -> Result<CargoVersion, StepFault>
    ensures ok { IfOk result (IsRaised (is_raisable (Some major)) (release_of (major + 1) 0 0)) }
    ensures err { IfErr result (IsTooLarge (is_raisable (Some major))) }
{
    let major = raise(major)?;
    Ok(release(major, 0, 0))
}

/// `M.(m+1).0`
fn next_minor(major: u64, minor: u64) -> Result<CargoVersion, StepFault>
    ensures ok { IfOk result (IsRaised (is_raisable (Some minor)) (release_of major (minor + 1) 0)) }
    ensures err { IfErr result (IsTooLarge (is_raisable (Some minor))) }
{
    let minor = raise(minor)?;
    Ok(release(major, minor, 0))
}

/// From a version to the end of those with its first number.
fn to_next_major(low: CargoVersion) -> Result<Extent<CargoVersion>, StepFault>
    ensures ok { IfOk result (IsRaised (is_raisable (Some low.0)) (to_next_major low)) }
    ensures err { IfErr result (IsTooLarge (is_raisable (Some low.0))) }
{
    let end = next_major(low.inner.major)?;
    Ok(Extent::Between(low, end))
}

/// From a version to the end of those with its first two numbers.
fn to_next_minor(low: CargoVersion) -> Result<Extent<CargoVersion>, StepFault>
    ensures ok { IfOk result (IsRaised (is_raisable (Some low.1)) (to_next_minor low)) }
    ensures err { IfErr result (IsTooLarge (is_raisable (Some low.1))) }
{
    let end = next_minor(low.inner.major, low.inner.minor)?;
    Ok(Extent::Between(low, end))
}

/// `>`
fn greater(partial: Partial) -> Result<Extent<CargoVersion>, StepFault>
    ensures ok { IfOk result (IsRow op.Greater partial) }
    ensures err { IfErr result (IsRefused op.Greater partial) }
{
    match partial {
        Partial::Full(version) => Ok(Extent::Above(version)),
        Partial::Minor(major, minor) => Ok(Extent::From(next_minor(major, minor)?)),
        Partial::Major(major) => Ok(Extent::From(next_major(major)?)),
    }
}

/// The version that a partial names, or the lowest release of those that it names. It takes no memory.
fn lowest(partial: Partial) -> CargoVersion
    ensures { result ≡ lowest_of partial }
{
    match partial {
        Partial::Full(version) => version,
        Partial::Minor(major, minor) => release(major, minor, 0),
        Partial::Major(major) => release(major, 0, 0),
    }
}

/// `<=`
fn less_equal(partial: Partial) -> Result<Extent<CargoVersion>, StepFault>
    ensures ok { IfOk result (IsRow op.LessEq partial) }
    ensures err { IfErr result (IsRefused op.LessEq partial) }
{
    match partial {
        Partial::Full(version) => Ok(Extent::UpTo(version)),
        Partial::Minor(major, minor) => Ok(Extent::Below(next_minor(major, minor)?)),
        Partial::Major(major) => Ok(Extent::Below(next_major(major)?)),
    }
}

/// `~`
fn tilde(partial: Partial) -> Result<Extent<CargoVersion>, StepFault>
    ensures ok { IfOk result (IsRow op.Tilde partial) }
    ensures err { IfErr result (IsRefused op.Tilde partial) }
{
    match partial {
        Partial::Full(version) => to_next_minor(version),
        Partial::Minor(major, minor) => to_next_minor(release(major, minor, 0)),
        Partial::Major(major) => to_next_major(release(major, 0, 0)),
    }
}

/// `=`, or a wildcard. Of one number or two it is `~`.
fn exact(partial: Partial) -> Result<Extent<CargoVersion>, StepFault>
    ensures ok { IfOk result (IsRow op.Exact partial) }
    ensures err { IfErr result (IsRefused op.Exact partial) }
{
    match partial {
        Partial::Full(version) => Ok(Extent::Point(version)),
        shorter => tilde(shorter),
    }
}

/// `^` of three numbers: the first that is not 0 is raised; where the first two are 0, nothing is.
fn caret_of_full(version: CargoVersion) -> Result<Extent<CargoVersion>, StepFault>
    ensures ok { IfOk result (IsRow op.Caret (Full version)) }
    ensures err { IfErr result (IsRefused op.Caret (Full version)) }
{
    if version.inner.major != 0 {
        return to_next_major(version);
    }
    if version.inner.minor != 0 {
        return to_next_minor(version);
    }
    let end = release(0, 0, version.inner.patch);
    Ok(Extent::Closed(version, end))
}

/// `^`, or no operator.
fn caret(partial: Partial) -> Result<Extent<CargoVersion>, StepFault>
    ensures ok { IfOk result (IsRow op.Caret partial) }
    ensures err { IfErr result (IsRefused op.Caret partial) }
{
    match partial {
        Partial::Full(version) => caret_of_full(version),
        Partial::Minor(0, minor) => to_next_minor(release(0, minor, 0)),
        Partial::Minor(major, minor) => to_next_major(release(major, minor, 0)),
        Partial::Major(major) => to_next_major(release(major, 0, 0)),
    }
}

/// The extent of a comparator, unless a number would be raised past the limit.
fn extent_of(construct: Construct) -> Result<Extent<CargoVersion>, StepFault>
    ensures ok { IfOk result (IsRow construct.operator construct.partial) }
    ensures err { IfErr result (IsRefused construct.operator construct.partial) }
{
    let Construct { operator, partial } = construct;
    match operator {
        Op::Exact | Op::Wildcard => exact(partial),
        Op::Greater => greater(partial),
        Op::GreaterEq => Ok(Extent::From(lowest(partial))),
        Op::Less => Ok(Extent::Below(lowest(partial))),
        Op::LessEq => less_equal(partial),
        Op::Tilde => tilde(partial),
        Op::Caret => caret(partial),
    }
}

/// Appends the span of a comparator, unless a number would be raised past the limit. The marks run on from the given
/// one.
pub(crate) fn push_spans(
    alloc: Global,
    construct: Construct,
    marks: &mut u64,
    out: &mut Spans<CargoVersion>,
) -> Result<(), StepFault>
    ensures ok { OnOk result (IsPushed construct marks.old marks.new out.old out.new) }
    ensures err { IfErr result (IsRefused construct.operator construct.partial) }
{
    let extent = extent_of(construct)?;
    push_extent::<Cargo>(alloc, extent, marks, out)?;
    Ok(())
}
