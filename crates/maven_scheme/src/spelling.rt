ghost use Rattle.std.specs.Prelude.{◌≡◌, ◌↔◌, IfErr, IfOk, IsTrue};
ghost use Rattle.vx_scheme.specs.Scheme.{Refuses};
ghost use Rattle.vx_scheme.specs.Values.{Gives};
ghost use Rattle.maven_scheme.specs.Version.{IsWithin};
ghost use Rattle.maven_scheme.specs.Spelling.{IsVersionText, Spells, is_version_text, version_of};

use crate::letters::letters;
use crate::version::MavenVersion;
use std::alloc::Global;
use vx_scheme::{Text, VersionFault};
use vx_text::{ByteClass, is_made_of};

// The bytes of a version's text.
struct VersionBytes;

impl ByteClass for VersionBytes {
    ghost use Rattle.maven_scheme.specs.Spelling.{is_version_byte};

    ghost holds = { is_version_byte };

    fn is_one(byte: u8) -> bool {
        byte.is_ascii_alphanumeric() || byte == b'.' || byte == b'-' || byte == b'_' || byte == b'+'
    }
}

/// The version that the text spells. Its form is tested before a value is made, so that `NotAVersion` comes before
/// `Numeral`.
pub(crate) fn read(alloc: Global, text: &str) -> Result<MavenVersion, VersionFault>
    ensures ok { IfOk result (λ v. Spells text.now v × IsWithin v) }
    ensures err { IfErr result (Refuses Spells IsWithin text.now) }
{
    if !has_form(text) {
        return Err(VersionFault::NotAVersion);
    }
    version_of_text(alloc, text)
}

/// Whether the text spells a version, with numerals of any length: one or more letters, digits, `.`, `-`, `_` and `+`. It
/// takes no memory.
pub fn is_version(text: &str) -> bool
    ensures { IsTrue result ↔ IsVersionText text.now }
{
    has_form(text)
}

fn has_form(text: &str) -> bool
    ensures { result ≡ is_version_text text.now }
{
    is_made_of::<VersionBytes>(text.as_bytes())
}

/// The version of a text that spells one. `Numeral` comes exactly where one of its numerals passes 2^128-1, unless memory
/// ends before.
fn version_of_text(alloc: Global, text: &str) -> Result<MavenVersion, VersionFault>
    requires { IsTrue (is_version_text text.now) }
    ensures { Gives IsWithin result (version_of text.now) }
{
    let letters = letters(alloc, text.as_bytes())?;
    let text = Text::copy_of(alloc, text)?;
    Ok(MavenVersion { text, letters })
}
