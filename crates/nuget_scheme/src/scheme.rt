use crate::order::compare_versions;
use crate::spelling;
use crate::version::{NugetVersion, copy};
use std::alloc::Global;
use std::cmp::Ordering;
use vx_scheme::{NoMemory, Scheme, SchemeName, Text, VersionFault};
use vx_text::push_whole;

/// The scheme of NuGet.
#[derive(Debug, Clone, Copy)]
pub struct Nuget;

impl Scheme for Nuget {
    ghost use Rattle.std.specs.Prelude.{◌≡◌};
    ghost use Rattle.vx_scheme.specs.declared.name.SchemeName.TheVariants as name_of;
    ghost use Rattle.nuget_scheme.specs.Version.{IsVersion, IsWithin, IsRelease};
    ghost use Rattle.nuget_scheme.specs.Spelling.{Spells};
    ghost use Rattle.nuget_scheme.specs.Writing.{normal};
    ghost use Rattle.nuget_scheme.specs.Order.{order_of, order_total, AnswersKeys};
    ghost use Rattle.nuget_scheme.specs.Laws.Texts.{nuget_texts};

    type Version = NugetVersion;

    ghost name = { name_of.Nuget };

    ghost IsVersion = { IsVersion };

    ghost IsWithin = { IsWithin };

    ghost order = { order_of };

    ghost IsRelease = { IsRelease };

    ghost Spells = { Spells };

    ghost normal = { normal };

    ghost total = { order_total };

    ghost texts = { nuget_texts };

    /// It is `Nuget`.
    fn scheme() -> SchemeName {
        SchemeName::Nuget
    }

    /// The version that the text spells. Its build is dropped.
    fn read(alloc: Global, text: &str) -> Result<NugetVersion, VersionFault> {
        spelling::read(alloc, text)
    }

    /// Appends the normal text, which leaves out a fourth number of 0.
    fn write(version: &NugetVersion, out: &mut Text) -> Result<(), NoMemory> {
        let _major = version.major;
        push_whole(version, out)
    }

    /// How two versions compare: by the first place at which their keys differ.
    fn compare(a: &NugetVersion, b: &NugetVersion) -> Ordering
        ensures order { result ≡ order_of a.now b.now }
        ensures left { IsVersion a.now × IsWithin a.now }
        ensures right { IsVersion b.now × IsWithin b.now }
        ensures places { AnswersKeys a.now b.now result }
    {
        let (_left, _right) = (a.major, b.major);
        compare_versions(a, b)
    }

    /// Whether the version has no labels.
    fn is_release(version: &NugetVersion) -> bool {
        version.labels.is_empty()
    }

    /// The same version once more.
    fn copy(alloc: Global, version: &NugetVersion) -> Result<NugetVersion, NoMemory> {
        let _major = version.major;
        copy(alloc, version)
    }
}
