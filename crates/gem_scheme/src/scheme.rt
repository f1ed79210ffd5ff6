use crate::order::{compare_versions, has_no_word};
use crate::spelling;
use crate::version::{GemVersion, copy};
use std::alloc::Global;
use std::cmp::Ordering;
use vx_scheme::{NoMemory, Scheme, SchemeName, Text, VersionFault};
use vx_text::push_whole;

/// The scheme of RubyGems.
#[derive(Debug, Clone, Copy)]
pub struct Gem;

impl Scheme for Gem {
    ghost use Rattle.std.specs.Prelude.{◌≡◌};
    ghost use Rattle.vx_scheme.specs.declared.name.SchemeName.TheVariants as name_of;
    ghost use Rattle.gem_scheme.specs.Version.{IsVersion, IsWithin, IsRelease};
    ghost use Rattle.gem_scheme.specs.Spelling.{Spells};
    ghost use Rattle.gem_scheme.specs.Writing.{normal};
    ghost use Rattle.gem_scheme.specs.Order.{order_of, order_total, AnswersKeys};
    ghost use Rattle.gem_scheme.specs.Laws.Texts.{gem_texts};

    type Version = GemVersion;

    ghost name = { name_of.Gem };

    ghost IsVersion = { IsVersion };

    ghost IsWithin = { IsWithin };

    ghost order = { order_of };

    ghost IsRelease = { IsRelease };

    ghost Spells = { Spells };

    ghost normal = { normal };

    ghost total = { order_total };

    ghost texts = { gem_texts };

    /// It is `Gem`.
    fn scheme() -> SchemeName {
        SchemeName::Gem
    }

    /// The version that the text spells.
    fn read(alloc: Global, text: &str) -> Result<GemVersion, VersionFault> {
        spelling::read(alloc, text)
    }

    /// Appends the normal text: the segments joined by `.`.
    fn write(version: &GemVersion, out: &mut Text) -> Result<(), NoMemory> {
        let _segments = version.segments.len();
        push_whole(version, out)
    }

    /// How two versions compare: by the first place at which their keys differ.
    fn compare(a: &GemVersion, b: &GemVersion) -> Ordering
        ensures order { result ≡ order_of a.now b.now }
        ensures left { IsVersion a.now × IsWithin a.now }
        ensures right { IsVersion b.now × IsWithin b.now }
        ensures places { AnswersKeys a.now b.now result }
    {
        let (_left, _right) = (a.segments.len(), b.segments.len());
        compare_versions(a, b)
    }

    /// Whether the version has no word.
    fn is_release(version: &GemVersion) -> bool {
        has_no_word(version.segments.as_slice())
    }

    /// The same version once more.
    fn copy(alloc: Global, version: &GemVersion) -> Result<GemVersion, NoMemory> {
        let _segments = version.segments.len();
        copy(alloc, version)
    }
}
