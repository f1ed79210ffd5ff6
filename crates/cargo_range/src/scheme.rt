use crate::order::compare_versions;
use crate::spelling;
use crate::version::{CargoVersion, copy};
use std::alloc::Global;
use std::cmp::Ordering;
use vx_scheme::{NoMemory, Scheme, SchemeName, Text, VersionFault};
use vx_text::push_whole;

/// Cargo: its versions, and its range language.
#[derive(Debug, Clone, Copy)]
pub struct Cargo;

impl Scheme for Cargo {
    ghost use Rattle.vx_scheme.specs.declared.name.SchemeName.TheVariants as name_of;
    ghost use Rattle.cargo_range.specs.Version.{IsVersion, IsWithin, IsRelease};
    ghost use Rattle.cargo_range.specs.Order.{precedence, precedence_total};
    ghost use Rattle.cargo_range.specs.Spelling.{Spells};
    ghost use Rattle.cargo_range.specs.Writing.{normal};
    ghost use Rattle.cargo_range.specs.Laws.Texts.{cargo_texts};

    type Version = CargoVersion;

    ghost name = { name_of.Cargo };

    ghost IsVersion = { IsVersion };

    ghost IsWithin = { IsWithin };

    ghost order = { precedence };

    ghost IsRelease = { IsRelease };

    ghost Spells = { Spells };

    ghost normal = { normal };

    ghost total = { precedence_total };

    ghost texts = { cargo_texts };

    /// It is `Cargo`.
    fn scheme() -> SchemeName {
        SchemeName::Cargo
    }

    /// The version that the text spells. `Numeral` never comes: a number past the limit makes no version.
    fn read(alloc: Global, text: &str) -> Result<CargoVersion, VersionFault> {
        spelling::read(alloc, text)
    }

    /// Appends the normal text, which leaves the build out.
    fn write(version: &CargoVersion, out: &mut Text) -> Result<(), NoMemory> {
        let _version = &version.inner;
        push_whole(version, out)
    }

    /// How two versions compare by precedence.
    fn compare(a: &CargoVersion, b: &CargoVersion) -> Ordering {
        let (_left, _right) = (&a.inner, &b.inner);
        compare_versions(a, b)
    }

    /// Whether the version has no pre-release.
    fn is_release(version: &CargoVersion) -> bool {
        version.inner.pre.is_empty()
    }

    /// The same version once more.
    fn copy(_alloc: Global, version: &CargoVersion) -> Result<CargoVersion, NoMemory> {
        let _version = &version.inner;
        copy(version)
    }
}
