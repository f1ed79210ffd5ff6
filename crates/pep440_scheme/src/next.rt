ghost use Rattle.std.specs.Prelude.{◌≡◌, ◌≢◌, ◌↔◌, ◌<◌, ◌+◌, ◌-◌, ◌^◌, [], None, IfErr, IfOk, OnOk};
ghost use Rattle.std.specs.List.{AllByRecursion};
ghost use Rattle.std.specs.declared.cmp.Ordering.TheVariants.{Less};
ghost use Rattle.vx_scheme.specs.declared.step_fault.StepFault.TheVariants.{TooLarge};
ghost use Rattle.pep440_scheme.specs.Version.{Fields, IsPublic, IsSmall, IsVersion, IsWithin};
ghost use Rattle.pep440_scheme.specs.Order.{order_of};
ghost use Rattle.pep440_scheme.specs.Next.{IsAtLimit, IsFrom, IsLocalOf, StepRefuses, bump_of, bumped, dev0_of, last_number, next_pre_of, pre_number, raised_of, succ_of, with_ends};

use crate::version::{Locals, Numbers, Pep440Version, PrePart, copy_numbers};
use std::alloc::Global;
use vx_scheme::{NoMemory, StepFault};

/// The next public version after a public one: its developmental release raised by one; where it is none, its post-release
/// raised by one, with `.dev0`; where it is neither, itself with `.post0.dev0`. `TooLarge` comes exactly where the numeral
/// that is raised is 2^128-1, unless memory ends before.
pub fn succ(alloc: Global, version: &Pep440Version) -> Result<Pep440Version, StepFault>
    requires public { IsPublic version.now }
    ensures ok { IfOk result (λ next. next ≡ succ_of version.now) }
    ensures fits { OnOk result (¬ (IsAtLimit (raised_of version.now))) }
    ensures err { IfErr result (StepRefuses (raised_of version.now)) }
    ensures version { IsVersion version.now × IsWithin version.now }
{
    match (version.post, version.dev) {
        (post, Some(dev)) => {
            let dev = raised(dev)?;
            Ok(with_ends(alloc, version, post, Some(dev))?)
        }
        (Some(post), None) => {
            let post = raised(post)?;
            Ok(with_ends(alloc, version, Some(post), Some(0))?)
        }
        (None, None) => Ok(with_ends(alloc, version, Some(0), Some(0))?),
    }
}

fn raised(number: u128) -> Result<u128, StepFault>
    ensures ok { IfOk result (λ next. (next ≡ number + 1) × (next < 2 ^ 128)) }
    ensures err { IfErr result (λ fault. (fault ≡ TooLarge) × (number ≡ 2 ^ 128 - 1)) }
{
    match number.checked_add(1) {
        Some(next) => Ok(next),
        None => Err(StepFault::TooLarge),
    }
}

fn with_ends(
    alloc: Global,
    version: &Pep440Version,
    post: Option<u128>,
    dev: Option<u128>,
) -> Result<Pep440Version, NoMemory>
    ensures { IfOk result (λ made. made ≡ with_ends version.now post dev) }
{
    let release = copy_numbers(alloc, version.release.as_slice())?;
    Ok(Pep440Version {
        epoch: version.epoch,
        release,
        pre: version.pre,
        post,
        dev,
        local: Locals::new(alloc),
    })
}

/// The epoch and the release of a public version, with the last number raised by one, and nothing else. `TooLarge` comes exactly
/// where that number is 2^128-1, unless memory ends before.
pub fn bump(alloc: Global, version: &Pep440Version) -> Result<Pep440Version, StepFault>
    requires public { IsPublic version.now }
    ensures ok { IfOk result (λ next. next ≡ bump_of version.now) }
    ensures fits { OnOk result (¬ (IsAtLimit (last_number version.now.release))) }
    ensures err { IfErr result (StepRefuses (last_number version.now.release)) }
    ensures version { IsVersion version.now × IsWithin version.now }
{
    let release = bumped(copy_numbers(alloc, version.release.as_slice())?)?;
    Ok(Pep440Version {
        epoch: version.epoch,
        release,
        pre: None,
        post: None,
        dev: None,
        local: Locals::new(alloc),
    })
}

// The release with its last number raised by one.
fn bumped(release: Numbers) -> Result<Numbers, StepFault>
    requires some { release ≢ [] }
    requires within { AllByRecursion IsSmall release }
    ensures ok { IfOk result (λ next. next ≡ bumped release) }
    ensures within { IfOk result (AllByRecursion IsSmall) }
    ensures fits { OnOk result (¬ (IsAtLimit (last_number release))) }
    ensures err { IfErr result (StepRefuses (last_number release)) }
{
    let mut numbers = release;
    let Some(last) = numbers.pop() else {
        unreachable!()
    };
    let last = raised(last)?;
    numbers.push(last)?;
    Ok(numbers)
}

/// The pre-release of a public version that is neither a post- nor a dev-release, with its number raised by one and `.dev0`.
/// `TooLarge` comes exactly where that number is 2^128-1, unless memory ends before.
pub fn next_pre(alloc: Global, version: &Pep440Version) -> Result<Pep440Version, StepFault>
    requires public { IsPublic version.now }
    requires pre { version.now.pre ≢ None }
    requires post { version.now.post ≡ None }
    requires dev { version.now.dev ≡ None }
    ensures ok { IfOk result (λ next. next ≡ next_pre_of version.now) }
    ensures fits { OnOk result (¬ (IsAtLimit (pre_number version.now.pre))) }
    ensures err { IfErr result (StepRefuses (pre_number version.now.pre)) }
    ensures version { IsVersion version.now × IsWithin version.now }
{
    let Some(pre) = version.pre else {
        unreachable!()
    };
    let number = raised(pre.number)?;
    let kind = pre.kind;
    let release = copy_numbers(alloc, version.release.as_slice())?;
    Ok(Pep440Version {
        epoch: version.epoch,
        release,
        pre: Some(PrePart { kind, number }),
        post: None,
        dev: Some(0),
        local: Locals::new(alloc),
    })
}

/// A public version that is no developmental release, with `.dev0`.
pub fn dev0(alloc: Global, version: &Pep440Version) -> Result<Pep440Version, NoMemory>
    requires public { IsPublic version.now }
    requires dev { version.now.dev ≡ None }
    ensures ok { IfOk result (λ next. next ≡ dev0_of version.now) }
    ensures version { IsVersion version.now × IsWithin version.now }
{
    with_ends(alloc, version, version.post, Some(0))
}

/// `succ` of a public version is the lowest public version above it, with numerals of any size.
pub fn succ_is_next()
    ensures version { (v : Fields) → IsVersion v → IsVersion (succ_of v) }
    ensures public { (v : Fields) → IsPublic (succ_of v) }
    ensures above { (v : Fields) → IsPublic v → order_of v (succ_of v) ≡ Less }
    ensures lowest { (v w : Fields) → IsPublic v → IsPublic w → order_of v w ≡ Less → order_of w (succ_of v) ≢ Less }
{}

/// What is made of a version by raising its release or its pre-release, or by adding `.dev0`, is a version, with numerals of any
/// size.
pub fn steps_make_versions()
    ensures bump { (v : Fields) → IsVersion v → IsVersion (bump_of v) }
    ensures next_pre { (v : Fields) → IsVersion v → IsVersion (next_pre_of v) }
    ensures dev0 { (v : Fields) → IsVersion v → IsVersion (dev0_of v) }
{}

/// The versions from a public one on, as far as its `succ`, are the version itself and its locals: nothing else lies between.
pub fn locals_alone_lie_between()
    ensures { (v w : Fields) → IsPublic v → IsFrom v (succ_of v) w ↔ IsLocalOf v w }
{}
