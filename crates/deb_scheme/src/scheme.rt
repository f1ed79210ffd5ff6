use crate::order::compare_versions;
use crate::version::{DebVersion, copy};
use crate::{spelling, writing};
use std::alloc::Global;
use std::cmp::Ordering;
use vx_scheme::{NoMemory, Scheme, SchemeName, Text, VersionFault};

/// The scheme of Debian.
#[derive(Debug, Clone, Copy)]
pub struct Deb;

impl Scheme for Deb {
    ghost use Rattle.std.specs.Prelude.{◌≡◌, ⊤};
    ghost use Rattle.vx_scheme.specs.declared.name.SchemeName.TheVariants as name_of;
    ghost use Rattle.deb_scheme.specs.Version.{IsWithin};
    ghost use Rattle.deb_scheme.specs.Spelling.{Spells, IsVersion};
    ghost use Rattle.deb_scheme.specs.Writing.{normal};
    ghost use Rattle.deb_scheme.specs.Order.{order_of, order_total, AnswersKeys};
    ghost use Rattle.deb_scheme.specs.Laws.Texts.{deb_texts};

    type Version = DebVersion;

    ghost name = { name_of.Deb };

    ghost IsVersion = { IsVersion };

    ghost IsWithin = { IsWithin };

    ghost order = { order_of };

    ghost IsRelease = { λ _. ⊤ };

    ghost Spells = { Spells };

    ghost normal = { normal };

    ghost total = { order_total };

    ghost texts = { deb_texts };

    /// It is `Deb`.
    fn scheme() -> SchemeName {
        SchemeName::Deb
    }

    /// The version that the text spells.
    fn read(alloc: Global, text: &str) -> Result<DebVersion, VersionFault> {
        spelling::read(alloc, text)
    }

    /// Appends the text of the version, as it was written.
    fn write(version: &DebVersion, out: &mut Text) -> Result<(), NoMemory> {
        let _epoch = version.epoch;
        writing::write(version, out)
    }

    /// How two versions compare: by the first place at which their keys differ.
    fn compare(a: &DebVersion, b: &DebVersion) -> Ordering
        ensures order { result ≡ order_of a.now b.now }
        ensures left { IsVersion a.now × IsWithin a.now }
        ensures right { IsVersion b.now × IsWithin b.now }
        ensures places { AnswersKeys a.now b.now result }
    {
        let (_left, _right) = (a.epoch, b.epoch);
        compare_versions(a, b)
    }

    /// Every version is a release.
    fn is_release(version: &DebVersion) -> bool {
        let _epoch = version.epoch;
        true
    }

    /// The same version once more.
    fn copy(alloc: Global, version: &DebVersion) -> Result<DebVersion, NoMemory> {
        let _epoch = version.epoch;
        copy(alloc, version)
    }
}
