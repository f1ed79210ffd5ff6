ghost use Rattle.std.specs.Prelude.{◌≡◌, IfOk};
ghost use Rattle.cargo_range.specs.Version.{release_of};

use semver::Version;
use std::marker::Model;
use vx_scheme::NoMemory;

/// A version of Cargo: `Version::parse` of `semver` reads it from some text.
#[derive(Debug, Drop)]
pub struct CargoVersion {
    /// The version, as `semver` holds it.
    pub inner: Version,
}

impl Model for CargoVersion {
    ghost use Rattle.std.specs.Prelude.{ℕ, List};
    ghost use Rattle.semver.specs.Identifiers.{parts_of};
    ghost use Rattle.cargo_range.specs.Version.{IsVersion};

    ghost Value = { ℕ × ℕ × ℕ × List ℕ × List ℕ };

    ghost view = { λ v. parts_of v.inner };

    ghost invariant = { λ v. IsVersion (parts_of v.inner) };
}

/// The release `I.J.K`. It takes no memory.
pub(crate) fn release(major: u64, minor: u64, patch: u64) -> CargoVersion
    ensures { result ≡ release_of major minor patch }
{
    CargoVersion {
        inner: Version::new(major, minor, patch),
    }
}

/// The same version once more.
pub(crate) fn copy(version: &CargoVersion) -> Result<CargoVersion, NoMemory>
    ensures { IfOk result (λ copied. copied ≡ version.now) }
{
    match version.inner.clone() {
        Ok(inner) => Ok(CargoVersion { inner }),
        Err(_) => Err(NoMemory),
    }
}
