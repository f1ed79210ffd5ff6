use crate::memory::NoMemory;
use thiserror::Error;

/// Why spans have no text of a range language. The number is the mark of the cut that makes the refusal.
#[derive(Clone, Copy, Debug, PartialEq, Eq, Error)]
pub enum BackFault {
    /// The language has single intervals alone.
    #[error("NotOneInterval")]
    NotOneInterval(u64),
    /// A hole of one version cannot be written.
    #[error("PointHole")]
    PointHole(u64),
    /// A bound has a local part.
    #[error("LocalBound")]
    LocalBound(u64),
    /// A bound parts a version from its locals.
    #[error("LocalsApart")]
    LocalsApart(u64),
    /// No version of the domain is meant.
    #[error("NothingInDomain")]
    NothingInDomain(u64),
    /// No memory was found.
    #[error("NoMemory")]
    NoMemory,
}

impl From<NoMemory> for BackFault {
    ghost use Rattle.std.specs.Prelude.{◌≡◌};
    ghost use Rattle.vx_scheme.specs.declared.back_fault.BackFault.TheVariants as fault_of;

    ghost from_gives = { λ _ fault. fault ≡ fault_of.NoMemory };

    fn from(_error: NoMemory) -> Self {
        BackFault::NoMemory
    }
}
