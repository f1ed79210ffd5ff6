ghost use Rattle.std.specs.Prelude.{◌≡◌, ◌↔◌, IsTrue, IfOk, IfErr};
ghost use Rattle.semver.specs.Parse.{memory_error};
ghost use Rattle.vx_scheme.specs.Scheme.{Refuses};
ghost use Rattle.cargo_range.specs.Version.{IsWithin};
ghost use Rattle.cargo_range.specs.Spelling.{Spells};

use crate::version::CargoVersion;
use semver::{Error, Version};
use std::alloc::{AllocError, Global};
use vx_scheme::VersionFault;

/// Whether a text was refused for want of memory. It takes no memory.
pub(crate) fn is_memory(error: Error) -> bool
    ensures { IsTrue result ↔ (error ≡ memory_error) }
{
    error == Error::from(AllocError)
}

/// The version that `semver` reads from the text. Numbers past the limit are part of what it refuses.
pub(crate) fn read(alloc: Global, text: &str) -> Result<CargoVersion, VersionFault>
    ensures ok { IfOk result (λ v. Spells text.now v × IsWithin v) }
    ensures err { IfErr result (Refuses Spells IsWithin text.now) }
{
    match Version::parse(alloc, text) {
        Ok(inner) => Ok(CargoVersion { inner }),
        Err(error) => {
            if is_memory(error) {
                Err(VersionFault::NoMemory)
            } else {
                Err(VersionFault::NotAVersion)
            }
        }
    }
}
