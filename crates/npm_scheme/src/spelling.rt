ghost use Rattle.std.specs.Prelude.{◌≡◌, ◌↔◌, true, MatchOption, IsTrue, IfOk, IfErr};
ghost use Rattle.std.specs.Option.{option_copied};
ghost use Rattle.std.specs.List.{join_with_byte, list_all};
ghost use Rattle.vx_scheme.specs.Scheme.{Refuses};
ghost use Rattle.vx_scheme.specs.Values.{Gives};
ghost use Rattle.vx_spec.specs.Signs.{dot};
ghost use Rattle.vx_order.specs.Dotted.{pieces};
ghost use Rattle.vx_order.specs.Identifiers.{is_identifier};
ghost use Rattle.npm_scheme.specs.Version.{IsWithin, build_pieces, with_build, without_build};
ghost use Rattle.npm_scheme.specs.Spelling.{AreVersionParts, version_of, Spells, has_leading_zero, is_plain_numeral, is_pre_identifier};
ghost use Rattle.npm_scheme.specs.Written.{parts, IsVersionWritten, NoVersionWritten};
ghost use Rattle.npm_scheme.specs.Steps.Dotted.{IsDotted, NotDotted};

use crate::version::NpmVersion;
use std::alloc::Global;
use vx_order::{Identifiers, PartForm, all_parts, cut_apart, is_identifier, read_idents};
use vx_scheme::{NoMemory, Text, VersionFault};
use vx_text::{cut, is_numeral, numeral_of};

/// The parts of a version's text, as they are written.
#[derive(Debug, Clone, Copy)]
pub struct Written<'a> {
    /// The first numeral.
    pub major: &'a str,
    /// The second numeral.
    pub minor: &'a str,
    /// The third numeral.
    pub patch: &'a str,
    /// What stands behind the `-`, where there is one.
    pub pre: Option<&'a str>,
    /// What stands behind the `+`, where there is one.
    pub build: Option<&'a str>,
}

/// The version that the text spells. The forms of the parts are tested before a value is made, so that `NotAVersion`
/// comes before `Numeral`.
pub(crate) fn read(alloc: Global, text: &str) -> Result<NpmVersion, VersionFault>
    ensures ok { IfOk result (λ v. Spells text.now v × IsWithin v) }
    ensures err { IfErr result (Refuses Spells IsWithin text.now) }
{
    let Some(written) = take_apart(text) else {
        return Err(VersionFault::NotAVersion);
    };
    version_of_parts(alloc, &written)
}

/// The parts of a version's text, each of which has its form; `None` exactly where the text has no such parts. It
/// takes no memory.
pub fn take_apart(text: &str) -> Option<Written<'_>>
    ensures { MatchOption result (NoVersionWritten text.now) (λ w. IsVersionWritten text.now (parts w)) }
{
    let (core, pre, build) = cut_apart(text);
    let Some((major, minor, patch)) = dotted(core) else {
        return None;
    };
    let written = Written {
        major,
        minor,
        patch,
        pre,
        build,
    };
    if has_form(&written) {
        Some(written)
    } else {
        None
    }
}

/// The parts before the first dot, between it and the second, and behind that.
fn dotted(text: &str) -> Option<(&str, &str, &str)>
    ensures { MatchOption result (NotDotted text.now) (λ p. IsDotted text.now p.0.now p.1.now p.2.now) }
{
    let (first, behind) = cut(text, '.');
    let Some(rest) = behind else {
        return None;
    };
    let (second, behind) = cut(rest, '.');
    let Some(third) = behind else {
        return None;
    };
    Some((first, second, third))
}

// Out of line, so that the ways of failing don't each clear the parts.
#[inline(never)]
fn has_form(written: &Written) -> bool
    ensures { IsTrue result ↔ AreVersionParts (parts written.now) }
{
    is_plain_numeral(written.major.as_bytes())
        && is_plain_numeral(written.minor.as_bytes())
        && is_plain_numeral(written.patch.as_bytes())
        && all_parts::<PreIdentifiers>(written.pre)
        && all_parts::<Identifiers>(written.build)
}

/// Whether the text is a numeral without leading zeros. It takes no memory.
pub fn is_plain_numeral(text: &[u8]) -> bool
    ensures { result ≡ is_plain_numeral text.now }
{
    is_numeral(text) && !has_leading_zero(text)
}

fn has_leading_zero(text: &[u8]) -> bool
    ensures { result ≡ has_leading_zero text.now }
{
    text.len() > 1 && text[0] == b'0'
}

// Identifiers that have no leading zeros where they are digits alone.
struct PreIdentifiers;

impl PartForm for PreIdentifiers {
    ghost use Rattle.npm_scheme.specs.Spelling.{is_pre_identifier};

    ghost holds = { is_pre_identifier };

    fn is_one(part: &str) -> bool {
        is_pre_identifier(part)
    }
}

fn is_pre_identifier(text: &str) -> bool
    ensures { result ≡ is_pre_identifier text.now }
{
    let bytes = text.as_bytes();
    is_identifier(text) && !(is_numeral(bytes) && has_leading_zero(bytes))
}

/// The version that the parts stand for. `Numeral` comes exactly where one of their numerals passes 2^128-1, unless
/// memory ends before.
pub fn version_of_parts(alloc: Global, written: &Written) -> Result<NpmVersion, VersionFault>
    requires { AreVersionParts (parts written.now) }
    ensures { Gives IsWithin result (version_of (parts written.now)) }
{
    let build = build_text(alloc, written.build)?;
    version_with(alloc, written, build)
}

/// The version that the parts stand for, without its build. `Numeral` comes exactly where one of their numerals passes
/// 2^128-1, unless memory ends before.
pub fn plain_version_of_parts(alloc: Global, written: &Written) -> Result<NpmVersion, VersionFault>
    requires { AreVersionParts (parts written.now) }
    ensures { Gives IsWithin result (without_build (version_of (parts written.now))) }
{
    version_with(alloc, written, Text::new(alloc))
}

fn version_with(alloc: Global, written: &Written, build: Text) -> Result<NpmVersion, VersionFault>
    requires form { AreVersionParts (parts written.now) }
    requires build { list_all is_identifier (build_pieces build) ≡ true }
    ensures { Gives IsWithin result (with_build build (version_of (parts written.now))) }
{
    let major = numeral_of(written.major)?;
    let minor = numeral_of(written.minor)?;
    let patch = numeral_of(written.patch)?;
    let pre = read_idents(alloc, written.pre)?;
    Ok(NpmVersion {
        major,
        minor,
        patch,
        pre,
        build,
    })
}

fn build_text(alloc: Global, text: Option<&str>) -> Result<Text, NoMemory>
    ensures { IfOk result (λ s. s ≡ join_with_byte dot (pieces (option_copied text.entry))) }
{
    match text {
        Some(text) => Text::copy_of(alloc, text),
        None => Ok(Text::new(alloc)),
    }
}
