use crate::memory::NoMemory;
use std::alloc::AllocError;
use thiserror::Error;

/// Why a text is not read as a version.
#[derive(Clone, Copy, Debug, PartialEq, Eq, Error)]
pub enum VersionFault {
    /// The text has no spelling, with numerals of any length.
    #[error("NotAVersion")]
    NotAVersion,
    /// The text has a spelling, and a numeral passes its limit.
    #[error("Numeral")]
    Numeral,
    /// No memory was found.
    #[error("NoMemory")]
    NoMemory,
}

impl From<NoMemory> for VersionFault {
    ghost use Rattle.std.specs.Prelude.{◌≡◌};
    ghost use Rattle.vx_scheme.specs.declared.version_fault.VersionFault.TheVariants as fault_of;

    ghost from_gives = { λ _ fault. fault ≡ fault_of.NoMemory };

    fn from(_error: NoMemory) -> Self {
        VersionFault::NoMemory
    }
}

impl From<AllocError> for VersionFault {
    ghost use Rattle.std.specs.Prelude.{◌≡◌};
    ghost use Rattle.vx_scheme.specs.declared.version_fault.VersionFault.TheVariants as fault_of;

    ghost from_gives = { λ _ fault. fault ≡ fault_of.NoMemory };

    fn from(_error: AllocError) -> Self {
        VersionFault::NoMemory
    }
}
