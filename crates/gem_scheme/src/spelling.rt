ghost use Rattle.std.specs.Prelude.{◌↔◌, IfErr, IfOk, IsTrue};
ghost use Rattle.gem_scheme.specs.Spelling.{AreVersionParts, IsVersionText, Spells, version_of};
ghost use Rattle.gem_scheme.specs.Version.{IsWithin};
ghost use Rattle.vx_scheme.specs.Scheme.{Refuses};
ghost use Rattle.gem_scheme.specs.Steps.Apart.{IsApart};
ghost use Rattle.gem_scheme.specs.Steps.Written.{parts};
ghost use Rattle.vx_scheme.specs.Values.{Gives};

use crate::segments::segments;
use crate::version::GemVersion;
use std::alloc::Global;
use vx_order::{Identifiers, MadeOf, all_parts};
use vx_scheme::VersionFault;
use vx_text::{Alphanumeric, cut, is_numeral};

/// The parts of a version's text, as they are written.
#[derive(Clone, Copy)]
struct Written<'a> {
    // The digits in front.
    number: &'a str,
    // What stands behind the first `.` of the part before the `-`, where there is one.
    pieces: Option<&'a str>,
    // What stands behind the first `-`, where there is one.
    labels: Option<&'a str>,
}

/// The version that the text spells. The forms of the parts are tested before a value is made, so that `NotAVersion`
/// comes before `Numeral`.
pub(crate) fn read(alloc: Global, text: &str) -> Result<GemVersion, VersionFault>
    ensures ok { IfOk result (λ v. Spells text.now v × IsWithin v) }
    ensures err { IfErr result (Refuses Spells IsWithin text.now) }
{
    if !is_version(text) {
        return Err(VersionFault::NotAVersion);
    }
    version_of_text(alloc, text)
}

/// Whether the text spells a version, with numerals of any length. It takes no memory.
pub fn is_version(text: &str) -> bool
    ensures { IsTrue result ↔ IsVersionText text.now }
{
    has_form(&cut_apart(text))
}

fn cut_apart(text: &str) -> Written<'_>
    ensures { IsApart text.now result }
{
    let (front, labels) = cut(text, '-');
    let (number, pieces) = cut(front, '.');
    Written {
        number,
        pieces,
        labels,
    }
}

fn has_form(written: &Written) -> bool
    ensures { IsTrue result ↔ AreVersionParts (parts written.now) }
{
    is_numeral(written.number.as_bytes())
        && all_parts::<MadeOf<Alphanumeric>>(written.pieces)
        && all_parts::<Identifiers>(written.labels)
}

/// The version of a text that spells one. `Numeral` comes exactly where one of its numerals passes 2^128-1, unless memory
/// ends before.
fn version_of_text(alloc: Global, text: &str) -> Result<GemVersion, VersionFault>
    requires { IsVersionText text.now }
    ensures { Gives IsWithin result (version_of text.now) }
{
    let segments = segments(alloc, text.as_bytes())?;
    Ok(GemVersion { segments })
}
