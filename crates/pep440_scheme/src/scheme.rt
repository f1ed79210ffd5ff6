use crate::order::compare_versions;
use crate::spelling;
use crate::version::{Pep440Version, copy};
use std::alloc::Global;
use std::cmp::Ordering;
use vx_scheme::{NoMemory, Scheme, SchemeName, Text, VersionFault};
use vx_text::push_whole;

/// The scheme of PyPI.
#[derive(Debug, Clone, Copy)]
pub struct Pypi;

impl Scheme for Pypi {
    ghost use Rattle.std.specs.Prelude.{◌≡◌};
    ghost use Rattle.vx_scheme.specs.declared.name.SchemeName.TheVariants as name_of;
    ghost use Rattle.pep440_scheme.specs.Version.{IsRelease, IsVersion, IsWithin};
    ghost use Rattle.pep440_scheme.specs.Spelling.{Spells};
    ghost use Rattle.pep440_scheme.specs.Writing.{normal};
    ghost use Rattle.pep440_scheme.specs.Order.{order_of, order_total, AnswersKeys};
    ghost use Rattle.pep440_scheme.specs.Laws.Texts.{pypi_texts};

    type Version = Pep440Version;

    ghost name = { name_of.Pypi };

    ghost IsVersion = { IsVersion };

    ghost IsWithin = { IsWithin };

    ghost order = { order_of };

    ghost IsRelease = { IsRelease };

    ghost Spells = { Spells };

    ghost normal = { normal };

    ghost total = { order_total };

    ghost texts = { pypi_texts };

    /// It is `Pypi`.
    fn scheme() -> SchemeName {
        SchemeName::Pypi
    }

    /// The version that the text spells.
    fn read(alloc: Global, text: &str) -> Result<Pep440Version, VersionFault> {
        spelling::read(alloc, text)
    }

    /// Appends the normal text.
    fn write(version: &Pep440Version, out: &mut Text) -> Result<(), NoMemory> {
        let _epoch = version.epoch;
        push_whole(version, out)
    }

    /// How two versions compare: by the first place at which their keys differ.
    fn compare(a: &Pep440Version, b: &Pep440Version) -> Ordering
        ensures order { result ≡ order_of a.now b.now }
        ensures left { IsVersion a.now × IsWithin a.now }
        ensures right { IsVersion b.now × IsWithin b.now }
        ensures places { AnswersKeys a.now b.now result }
    {
        let (_left, _right) = (a.epoch, b.epoch);
        compare_versions(a, b)
    }

    /// Whether the version is an epoch and a release alone.
    fn is_release(version: &Pep440Version) -> bool {
        version.pre.is_none()
            && version.post.is_none()
            && version.dev.is_none()
            && version.local.is_empty()
    }

    /// The same version once more.
    fn copy(alloc: Global, version: &Pep440Version) -> Result<Pep440Version, NoMemory> {
        let _epoch = version.epoch;
        copy(alloc, version)
    }
}
