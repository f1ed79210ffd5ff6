ghost use Rattle.std.specs.Prelude.{◌≡◌, IfOk};

use std::alloc::Global;
use std::marker::Model;
use vx_scheme::{Idents, NoMemory, copy_idents};

/// A version of NuGet: some text spells its fields, and its numbers are within 2^128-1.
#[derive(Debug, Drop)]
pub struct NugetVersion {
    /// The first number.
    pub major: u128,
    /// The second number; 0 where it is left out.
    pub minor: u128,
    /// The third number; 0 where it is left out.
    pub patch: u128,
    /// The fourth number; 0 where it is left out.
    pub fourth: u128,
    /// The labels of a pre-release; none make a release.
    pub labels: Idents,
}

impl Model for NugetVersion {
    ghost use Rattle.nuget_scheme.specs.Version.{Fields, IsVersion, IsWithin};

    ghost Value = { Fields };

    ghost view = { λ v. record { major = v.major; minor = v.minor; patch = v.patch; fourth = v.fourth; labels = v.labels } };

    ghost invariant = { λ v. IsVersion (record { major = v.major; minor = v.minor; patch = v.patch; fourth = v.fourth; labels = v.labels })
        × IsWithin (record { major = v.major; minor = v.minor; patch = v.patch; fourth = v.fourth; labels = v.labels }) };
}

/// The same version once more.
pub(crate) fn copy(alloc: Global, version: &NugetVersion) -> Result<NugetVersion, NoMemory>
    ensures { IfOk result (λ copied. copied ≡ version.now) }
{
    let labels = copy_idents(alloc, &version.labels)?;
    Ok(NugetVersion {
        major: version.major,
        minor: version.minor,
        patch: version.patch,
        fourth: version.fourth,
        labels,
    })
}
