use crate::order::compare_versions;
use crate::version::{MavenVersion, copy};
use crate::{spelling, writing};
use std::alloc::Global;
use std::cmp::Ordering;
use vx_scheme::{NoMemory, Scheme, SchemeName, Text, VersionFault};

/// The scheme of Maven, after the POM reference, "Version Order Specification".
#[derive(Debug, Clone, Copy)]
pub struct Maven;

impl Scheme for Maven {
    ghost use Rattle.std.specs.Prelude.{◌≡◌, ⊤};
    ghost use Rattle.vx_scheme.specs.declared.name.SchemeName.TheVariants as name_of;
    ghost use Rattle.maven_scheme.specs.Version.{IsWithin};
    ghost use Rattle.maven_scheme.specs.Spelling.{Spells, IsVersion};
    ghost use Rattle.maven_scheme.specs.Writing.{normal};
    ghost use Rattle.maven_scheme.specs.Order.{order_of, order_total, AnswersLetters};
    ghost use Rattle.maven_scheme.specs.Laws.Texts.{maven_texts};

    type Version = MavenVersion;

    ghost name = { name_of.Maven };

    ghost IsVersion = { IsVersion };

    ghost IsWithin = { IsWithin };

    ghost order = { order_of };

    ghost IsRelease = { λ _. ⊤ };

    ghost Spells = { Spells };

    ghost normal = { normal };

    ghost total = { order_total };

    ghost texts = { maven_texts };

    /// It is `Maven`.
    fn scheme() -> SchemeName {
        SchemeName::Maven
    }

    /// The version that the text spells.
    fn read(alloc: Global, text: &str) -> Result<MavenVersion, VersionFault> {
        spelling::read(alloc, text)
    }

    /// Appends the text of the version, as it was written.
    fn write(version: &MavenVersion, out: &mut Text) -> Result<(), NoMemory> {
        let _version = version.letters.len();
        writing::write(version, out)
    }

    /// How two versions compare: by the first place at which their letters differ.
    fn compare(a: &MavenVersion, b: &MavenVersion) -> Ordering
        ensures order { result ≡ order_of a.now b.now }
        ensures left { IsVersion a.now × IsWithin a.now }
        ensures right { IsVersion b.now × IsWithin b.now }
        ensures places { AnswersLetters a.now b.now result }
    {
        let (_left, _right) = (a.letters.len(), b.letters.len());
        compare_versions(a, b)
    }

    /// Every version is a release.
    fn is_release(version: &MavenVersion) -> bool {
        let _version = version.letters.len();
        true
    }

    /// The same version once more.
    fn copy(alloc: Global, version: &MavenVersion) -> Result<MavenVersion, NoMemory> {
        let _version = version.letters.len();
        copy(alloc, version)
    }
}
