ghost use Rattle.std.specs.Prelude.{◌≡◌, IfOk};
ghost use Rattle.npm_scheme.specs.Version.{lowest_of};

use std::alloc::Global;
use std::marker::Model;
use vx_scheme::{Ident, Idents, NoMemory, Text, copy_idents, copy_text};

/// A version of npm: some text spells its fields, and its numbers are within 2^128-1.
#[derive(Debug, Drop)]
pub struct NpmVersion {
    /// The first number.
    pub major: u128,
    /// The second number.
    pub minor: u128,
    /// The third number.
    pub patch: u128,
    /// The pre-release identifiers; none make a release.
    pub pre: Idents,
    /// The build, as it was written behind its `+`; empty where there is none.
    pub build: Text,
}

impl Model for NpmVersion {
    ghost use Rattle.npm_scheme.specs.Version.{Fields, IsVersion, IsWithin};

    ghost Value = { Fields };

    ghost view = { λ v. record { major = v.major; minor = v.minor; patch = v.patch; pre = v.pre; build = v.build } };

    ghost invariant = { λ v. IsVersion (record { major = v.major; minor = v.minor; patch = v.patch; pre = v.pre; build = v.build }) × IsWithin (record { major = v.major; minor = v.minor; patch = v.patch; pre = v.pre; build = v.build }) };
}

/// The same version once more.
pub(crate) fn copy(alloc: Global, version: &NpmVersion) -> Result<NpmVersion, NoMemory>
    ensures { IfOk result (λ copied. copied ≡ version.now) }
{
    let pre = copy_idents(alloc, &version.pre)?;
    let build = copy_text(alloc, &version.build)?;
    Ok(NpmVersion {
        major: version.major,
        minor: version.minor,
        patch: version.patch,
        pre,
        build,
    })
}

/// The version `M.m.p-0`, the lowest of those with these numbers.
pub fn lowest(alloc: Global, major: u128, minor: u128, patch: u128) -> Result<NpmVersion, NoMemory>
    ensures { IfOk result (λ v. v ≡ lowest_of major minor patch) }
{
    let pre = Idents::one(alloc, Ident::Number(0))?;
    Ok(NpmVersion {
        major,
        minor,
        patch,
        pre,
        build: Text::new(alloc),
    })
}
