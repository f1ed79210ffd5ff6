use crate::order::compare_versions;
use crate::spelling;
use crate::version::{NpmVersion, copy};
use std::alloc::Global;
use std::cmp::Ordering;
use vx_scheme::{NoMemory, Scheme, SchemeName, Text, VersionFault};
use vx_text::push_whole;

/// The scheme of npm.
#[derive(Debug, Clone, Copy)]
pub struct Npm;

impl Scheme for Npm {
    ghost use Rattle.std.specs.Prelude.{◌≡◌, []};
    ghost use Rattle.vx_scheme.specs.declared.name.SchemeName.TheVariants as name_of;
    ghost use Rattle.npm_scheme.specs.Version.{IsVersion, IsWithin, IsRelease};
    ghost use Rattle.npm_scheme.specs.Spelling.{Spells};
    ghost use Rattle.npm_scheme.specs.Writing.{normal};
    ghost use Rattle.npm_scheme.specs.Order.{order_of, order_total, AnswersKeys};
    ghost use Rattle.npm_scheme.specs.Laws.Texts.{npm_texts};

    type Version = NpmVersion;

    ghost name = { name_of.Npm };

    ghost IsVersion = { IsVersion };

    ghost IsWithin = { IsWithin };

    ghost order = { order_of };

    ghost IsRelease = { IsRelease };

    ghost Spells = { Spells };

    ghost normal = { normal };

    ghost total = { order_total };

    ghost texts = { npm_texts };

    /// It is `Npm`.
    fn scheme() -> SchemeName {
        SchemeName::Npm
    }

    /// The version that the text spells.
    fn read(alloc: Global, text: &str) -> Result<NpmVersion, VersionFault> {
        spelling::read(alloc, text)
    }

    /// Appends the normal text, which leaves the build out.
    fn write(version: &NpmVersion, out: &mut Text) -> Result<(), NoMemory> {
        let _major = version.major;
        push_whole(version, out)
    }

    /// How two versions compare: by the first place at which their keys differ.
    fn compare(a: &NpmVersion, b: &NpmVersion) -> Ordering
        ensures order { result ≡ order_of a.now b.now }
        ensures left { IsVersion a.now × IsWithin a.now }
        ensures right { IsVersion b.now × IsWithin b.now }
        ensures places { AnswersKeys a.now b.now result }
    {
        let (_left, _right) = (a.major, b.major);
        compare_versions(a, b)
    }

    /// Whether the version has no pre-release.
    fn is_release(version: &NpmVersion) -> bool {
        version.pre.is_empty()
    }

    /// The same version once more.
    fn copy(alloc: Global, version: &NpmVersion) -> Result<NpmVersion, NoMemory> {
        let _major = version.major;
        copy(alloc, version)
    }
}
