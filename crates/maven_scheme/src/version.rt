ghost use Rattle.std.specs.Prelude.{◌≡◌, IfOk};

use std::alloc::Global;
use std::marker::Model;
use vx_order::{Letters, copy_letters};
use vx_scheme::{NoMemory, Text, copy_text};

/// A version of Maven after the POM reference, "Version Order Specification": its text spells its letters, and its numerals
/// are within 2^128-1.
#[derive(Debug, Drop)]
pub struct MavenVersion {
    /// The text, as it was written.
    pub text: Text,
    /// The letters that it compares by: one for each token that counts.
    pub letters: Letters,
}

impl Model for MavenVersion {
    ghost use Rattle.maven_scheme.specs.Version.{Fields, IsWithin};
    ghost use Rattle.maven_scheme.specs.Spelling.{IsVersion};

    ghost Value = { Fields };

    ghost view = { λ v. record { text = v.text; letters = v.letters } };

    ghost invariant = { λ v. IsVersion (record { text = v.text; letters = v.letters }) × IsWithin (record { text = v.text; letters = v.letters }) };
}

/// The same version once more.
pub(crate) fn copy(alloc: Global, version: &MavenVersion) -> Result<MavenVersion, NoMemory>
    ensures { IfOk result (λ copied. copied ≡ version.now) }
{
    let text = copy_text(alloc, &version.text)?;
    let letters = copy_letters(alloc, &version.letters)?;
    Ok(MavenVersion { text, letters })
}
