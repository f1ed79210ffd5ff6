ghost use Rattle.std.specs.Prelude.{◌≡◌, Some, IfOk, IfErr, map};
ghost use Rattle.semver.specs.Identifiers.{comparator_view};
ghost use Rattle.cargo_range.specs.Reading.{form_of, forms_of, Reads};
ghost use Rattle.cargo_range.specs.Steps.Forms.{HasForm, HaveForms, IsNoReading};

use crate::construct::{Construct, Partial};
use crate::spelling::is_memory;
use crate::version::CargoVersion;
use semver::{BuildMetadata, Comparator, Version, VersionReq};
use std::alloc::Global;
use vx_scheme::{NoMemory, RangeFault};

/// The form of a comparator that has one. It takes no memory.
fn construct_of(comparator: Comparator) -> Construct
    requires { HasForm (comparator_view comparator) }
    ensures { form_of (comparator_view comparator) ≡ Some result }
{
    let Comparator {
        op: operator,
        major,
        minor,
        patch,
        pre,
    } = comparator;
    let partial = match (minor, patch) {
        (Some(minor), Some(patch)) => Partial::Full(CargoVersion {
            inner: Version {
                major,
                minor,
                patch,
                pre,
                build: BuildMetadata::empty(),
            },
        }),
        (Some(minor), None) => Partial::Minor(major, minor),
        (None, _) => Partial::Major(major),
    };
    Construct { operator, partial }
}

/// The forms of comparators that have each one.
fn constructs_of(alloc: Global, comparators: Vec<Comparator>) -> Result<Vec<Construct>, NoMemory>
    requires { HaveForms (map comparator_view comparators.items) }
    ensures { IfOk result (λ all. forms_of (map comparator_view comparators.items) ≡ Some all.items) }
{
    let Ok(mut all) = Vec::with_capacity(alloc, comparators.len()) else {
        return Err(NoMemory);
    };
    for comparator in comparators {
        let Ok(()) = all.push(construct_of(comparator)) else {
            return Err(NoMemory);
        };
    }
    Ok(all)
}

/// The comparators of a text. `Syntax(0)` comes exactly where `semver` refuses it, since each comparator that it reads has
/// a form.
pub(crate) fn read_requirement(alloc: Global, text: &str) -> Result<Vec<Construct>, RangeFault>
    ensures ok { IfOk result (λ all. Reads text.now all.items) }
    ensures err { IfErr result (IsNoReading text.now) }
{
    match VersionReq::parse(alloc, text) {
        Ok(requirement) => Ok(constructs_of(alloc, requirement.comparators)?),
        Err(error) => {
            if is_memory(error) {
                Err(RangeFault::NoMemory)
            } else {
                Err(RangeFault::Syntax(0))
            }
        }
    }
}
