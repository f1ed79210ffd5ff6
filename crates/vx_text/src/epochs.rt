ghost use Rattle.std.specs.Prelude.{◌≡◌, ◌↔◌, ◌<◌, ◌^◌, ℕ, Bool, List, true, MatchOption, IfErr, IfOk, IsTrue};
ghost use Rattle.std.specs.Option.{option_copied};
ghost use Rattle.vx_spec.specs.Marks.{Lacks};
ghost use Rattle.vx_scheme.specs.Scheme.{Refuses};
ghost use Rattle.vx_scheme.specs.Values.{Gives};
ghost use Rattle.vx_spec.specs.Signs.{colon, hyphen};
ghost use Rattle.vx_text.specs.EpochParts.{epoch_value, is_epoch, is_optional, parts, IsApart, IsMade, IsMadeOf, NotMade, Parts, SpellsByParts};

use crate::marks::{first_cut, last_cut};
use crate::numerals::is_numeral;
use crate::past::numeral_of;
use std::alloc::Global;
use vx_scheme::VersionFault;

/// The parts of a version's text, as they are written.
#[derive(Clone, Copy)]
pub struct EpochParts<'a> {
    /// What stands before the first `:`, where there is one.
    pub epoch: Option<&'a str>,
    /// The main part.
    pub main: &'a [u8],
    /// What stands behind the last `-`, where there is one.
    pub last: Option<&'a [u8]>,
}

/// The versions of a scheme whose texts have such parts: the forms of the main part, and of the last part where it is not
/// left out, and the version that the parts stand for.
pub trait EpochVersions {
    /// A version.
    type Version: Drop;

    /// A main part has its form.
    ghost main_form: { List ℕ → Bool };

    /// A last part has its form.
    ghost last_form: { List ℕ → Bool };

    /// The version of a text with these parts.
    ghost version_of: { List ℕ → Parts → Self.Version };

    /// The numerals of a version are within their limits.
    ghost IsWithin: { Self.Version → Type 0 };

    /// Whether the main part has its form. It takes no memory.
    fn is_main(part: &[u8]) -> bool
        ensures { result ≡ main_form part.now };

    /// Whether the last part has its form. It takes no memory.
    fn is_last(part: &[u8]) -> bool
        ensures { result ≡ last_form part.now };

    /// The version that the parts of the text stand for. `Numeral` comes exactly where one of their numerals is past its
    /// limit, unless memory ends before.
    fn of_parts(
        alloc: Global,
        text: &str,
        found: &EpochParts,
    ) -> Result<Self::Version, VersionFault>
        requires { IsMadeOf main_form last_form text.now (parts found.now) }
        ensures { Gives IsWithin result (version_of text.now (parts found.now)) };

    /// A main part holds no `:`.
    ghost main_lacks: { (part : List ℕ) → main_form part ≡ true → Lacks colon part };

    /// A last part holds neither `:` nor `-`.
    ghost last_lacks: { (part : List ℕ) → last_form part ≡ true → Lacks colon part × Lacks hyphen part };
}

/// The parts of the text, each of which has its form; `None` exactly where the text has no such parts. It takes no memory.
pub fn epoch_parts<F: EpochVersions>(text: &str) -> Option<EpochParts<'_>>
    ensures { MatchOption result (NotMade F.main_form F.last_form text.now) (λ p. IsMadeOf F.main_form F.last_form text.now (parts p)) }
{
    let found = cut_apart(text);
    if have_forms::<F>(&found) {
        Some(found)
    } else {
        None
    }
}

/// Whether the text has parts, each of which has its form. It takes no memory.
pub fn has_epoch_parts<F: EpochVersions>(text: &str) -> bool
    ensures { IsTrue result ↔ IsMade F.main_form F.last_form text.now }
{
    have_forms::<F>(&cut_apart(text))
}

/// The version that the text spells. The forms of the parts are tested before a value is made, so that `NotAVersion`
/// comes before `Numeral`.
pub fn epoch_version<F: EpochVersions>(
    alloc: Global,
    text: &str,
) -> Result<F::Version, VersionFault>
    ensures ok { IfOk result (λ v. SpellsByParts F.main_form F.last_form F.version_of text.now v × F.IsWithin v) }
    ensures err { IfErr result (Refuses (SpellsByParts F.main_form F.last_form F.version_of) F.IsWithin text.now) }
{
    let Some(found) = epoch_parts::<F>(text) else {
        return Err(VersionFault::NotAVersion);
    };
    F::of_parts(alloc, text, &found)
}

/// Whether the text spells a version, with numerals of any length. It takes no memory.
pub fn is_epoch_version<F: EpochVersions>(text: &str) -> bool
    ensures { IsTrue result ↔ ((v : F.Version) × SpellsByParts F.main_form F.last_form F.version_of text.now v) }
{
    has_epoch_parts::<F>(text)
}

fn cut_apart(text: &str) -> EpochParts<'_>
    ensures { IsApart text.now (parts result) }
{
    let (epoch, rest) = first_cut(text, ':');
    let (main, last) = last_cut(rest.as_bytes(), b'-');
    EpochParts { epoch, main, last }
}

/// Whether each part has the form that its bytes give it.
fn have_forms<F: EpochVersions>(found: &EpochParts) -> bool
    ensures { IsTrue result ↔ ((is_epoch (parts found.now).epoch ≡ true) × (F.main_form (parts found.now).main ≡ true) × (is_optional F.last_form (parts found.now).last ≡ true)) }
{
    is_epoch(found.epoch) && F::is_main(found.main) && is_optional::<F>(found.last)
}

fn is_epoch(part: Option<&str>) -> bool
    ensures { result ≡ is_epoch (option_copied part.entry) }
{
    match part {
        Some(part) => is_numeral(part.as_bytes()),
        None => true,
    }
}

fn is_optional<F: EpochVersions>(part: Option<&[u8]>) -> bool
    ensures { result ≡ is_optional F.last_form (option_copied part.entry) }
{
    match part {
        Some(part) => F::is_last(part),
        None => true,
    }
}

/// The number of an epoch, 0 where it is left out. `Numeral` comes exactly where it passes 2^128-1. It takes no memory.
pub fn epoch_number(part: Option<&str>) -> Result<u128, VersionFault>
    requires { IsTrue (is_epoch (option_copied part)) }
    ensures { Gives (λ n. n < 2 ^ 128) result (epoch_value (option_copied part.entry)) }
{
    match part {
        Some(part) => numeral_of(part),
        None => Ok(0),
    }
}
