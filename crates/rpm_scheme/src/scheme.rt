use crate::order::compare_versions;
use crate::version::{RpmVersion, copy};
use crate::{spelling, writing};
use std::alloc::Global;
use std::cmp::Ordering;
use vx_scheme::{NoMemory, Scheme, SchemeName, Text, VersionFault};

/// The scheme of RPM.
#[derive(Debug, Clone, Copy)]
pub struct Rpm;

impl Scheme for Rpm {
    ghost use Rattle.std.specs.Prelude.{◌≡◌};
    ghost use Rattle.vx_scheme.specs.declared.name.SchemeName.TheVariants as name_of;
    ghost use Rattle.rpm_scheme.specs.Version.{HasRelease, IsWithin, IsWithoutRelease};
    ghost use Rattle.rpm_scheme.specs.Spelling.{Spells, IsVersion};
    ghost use Rattle.rpm_scheme.specs.Writing.{normal};
    ghost use Rattle.rpm_scheme.specs.Order.{order_of, order_total, AnswersKeys};
    ghost use Rattle.rpm_scheme.specs.Laws.Texts.{rpm_texts};

    type Version = RpmVersion;

    ghost name = { name_of.Rpm };

    ghost IsVersion = { IsVersion };

    ghost IsWithin = { IsWithin };

    ghost order = { order_of };

    ghost InAll = { HasRelease };

    ghost IsRelease = { IsWithoutRelease };

    ghost Spells = { Spells };

    ghost normal = { normal };

    ghost total = { order_total };

    ghost texts = { rpm_texts };

    /// It is `Rpm`.
    fn scheme() -> SchemeName {
        SchemeName::Rpm
    }

    /// The version that the text spells.
    fn read(alloc: Global, text: &str) -> Result<RpmVersion, VersionFault> {
        spelling::read(alloc, text)
    }

    /// Appends the text of the version, as it was written.
    fn write(version: &RpmVersion, out: &mut Text) -> Result<(), NoMemory> {
        let _epoch = version.epoch;
        writing::write(version, out)
    }

    /// How two versions compare: by the first place at which their keys differ.
    fn compare(a: &RpmVersion, b: &RpmVersion) -> Ordering
        ensures order { result ≡ order_of a.now b.now }
        ensures left { IsVersion a.now × IsWithin a.now }
        ensures right { IsVersion b.now × IsWithin b.now }
        ensures places { AnswersKeys a.now b.now result }
    {
        let (_left, _right) = (a.epoch, b.epoch);
        compare_versions(a, b)
    }

    /// Whether the version has no release part. The domain of releases holds those without one, and that of all those
    /// with one.
    fn is_release(version: &RpmVersion) -> bool {
        version.release.is_none()
    }

    /// The same version once more.
    fn copy(alloc: Global, version: &RpmVersion) -> Result<RpmVersion, NoMemory> {
        let _epoch = version.epoch;
        copy(alloc, version)
    }
}
