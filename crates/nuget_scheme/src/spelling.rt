ghost use Rattle.std.specs.Prelude.{◌≡◌, ◌<◌, ◌^◌, nat_lt, MatchOption, IsTrue, IfOk, IfErr, length};
ghost use Rattle.std.specs.Option.{option_copied};
ghost use Rattle.std.specs.List.{list_all};
ghost use Rattle.vx_spec.specs.Numerals.{is_numeral};
ghost use Rattle.vx_scheme.specs.Scheme.{Refuses};
ghost use Rattle.vx_scheme.specs.Values.{Faults, Gives};
ghost use Rattle.vx_order.specs.Dotted.{dotted, pieces};
ghost use Rattle.nuget_scheme.specs.Version.{IsWithin};
ghost use Rattle.nuget_scheme.specs.Spelling.{AreVersionParts, Spells, version_of};
ghost use Rattle.nuget_scheme.specs.Steps.Written.{IsNext, IsVersionWritten, NoVersionWritten, first_value, has_form, parts};

use crate::version::NugetVersion;
use std::alloc::Global;
use vx_order::{Identifiers, MadeOf, all_parts, cut_apart, read_idents};
use vx_scheme::VersionFault;
use vx_text::{Digits, cut, numeral_of};

// A version has no more numbers.
const MOST_NUMBERS: usize = 4;

/// The parts of a version's text, as they are written.
#[derive(Clone, Copy)]
pub(crate) struct Written<'a> {
    /// The numbers, with a `.` between each two.
    pub(crate) numbers: &'a str,
    /// What stands behind the `-`, where there is one.
    pub(crate) labels: Option<&'a str>,
    /// What stands behind the `+`, where there is one.
    pub(crate) build: Option<&'a str>,
}

/// The version that the text spells. The forms of the parts are tested before a value is made, so that `NotAVersion`
/// comes before `Numeral`.
pub(crate) fn read(alloc: Global, text: &str) -> Result<NugetVersion, VersionFault>
    ensures ok { IfOk result (λ v. Spells text.now v × IsWithin v) }
    ensures err { IfErr result (Refuses Spells IsWithin text.now) }
{
    let Some(written) = take_apart(text) else {
        return Err(VersionFault::NotAVersion);
    };
    version_of_parts(alloc, &written)
}

// The parts of a version's text, each of which has its form; `None` exactly where the text has no such parts.
fn take_apart(text: &str) -> Option<Written<'_>>
    ensures { MatchOption result (NoVersionWritten text.now) (λ w. IsVersionWritten text.now (parts w)) }
{
    let (numbers, labels, build) = cut_apart(text);
    let written = Written {
        numbers,
        labels,
        build,
    };
    if has_form(&written) {
        Some(written)
    } else {
        None
    }
}

fn has_form(written: &Written) -> bool
    ensures { result ≡ has_form (parts written.now) }
{
    are_few(written.numbers)
        && all_parts::<MadeOf<Digits>>(Some(written.numbers))
        && all_parts::<Identifiers>(written.labels)
        && all_parts::<Identifiers>(written.build)
}

fn are_few(text: &str) -> bool
    ensures { result ≡ nat_lt (length (dotted text.now)) 5 }
{
    text.split('.').count() <= MOST_NUMBERS
}

/// The version that the parts stand for. `Numeral` comes exactly where one of their numerals passes 2^128-1, unless
/// memory ends before.
fn version_of_parts(alloc: Global, written: &Written) -> Result<NugetVersion, VersionFault>
    requires { AreVersionParts (parts written.now) }
    ensures { Gives IsWithin result (version_of (parts written.now)) }
{
    let (major, rest) = next_number(Some(written.numbers))?;
    let (minor, rest) = next_number(rest)?;
    let (patch, rest) = next_number(rest)?;
    let (fourth, _rest) = next_number(rest)?;
    let labels = read_idents(alloc, written.labels)?;
    Ok(NugetVersion {
        major,
        minor,
        patch,
        fourth,
        labels,
    })
}

// The number in front, 0 where nothing is left, and what stands behind its dot, where there is one.
fn next_number(rest: Option<&str>) -> Result<(u128, Option<&str>), VersionFault>
    requires { IsTrue (list_all is_numeral (pieces (option_copied rest))) }
    ensures ok { IfOk result (λ next. IsNext (pieces (option_copied rest.entry)) next.0 (pieces (option_copied next.1))) }
    ensures err { IfErr result (Faults (first_value (pieces (option_copied rest.entry)) < 2 ^ 128)) }
{
    match rest {
        Some(text) => {
            let (part, behind) = cut(text, '.');
            let number = numeral_of(part)?;
            Ok((number, behind))
        }
        None => Ok((0, None)),
    }
}
