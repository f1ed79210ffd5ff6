use std::alloc::AllocError;
use thiserror::Error;
use vx_scheme::NoMemory;

/// Why a text is not read as a list of constraints. A number is that of a constraint in the text, from 1; empty parts
/// have none. `Head` comes first, then `StarNotAlone`, then the first constraint with a fault, then `Duplicate`.
#[derive(Clone, Copy, Debug, PartialEq, Eq, Error)]
pub enum VersFault {
    /// The text has no head, or that of another scheme.
    #[error("Head")]
    Head,
    /// Nothing stands behind this constraint's comparator, an escape of it is broken, or what the escapes stand for is
    /// no UTF-8; 1 also where there is no constraint.
    #[error("Constraint")]
    Constraint(u64),
    /// The version of this constraint is none of the scheme.
    #[error("Version")]
    Version(u64),
    /// The version of this constraint is order-equal to that of an earlier one, and it is the first such.
    #[error("Duplicate")]
    Duplicate(u64),
    /// There are several constraints, and one of them is `*`.
    #[error("StarNotAlone")]
    StarNotAlone,
    /// A numeral of this constraint's version passes its limit.
    #[error("Numeral")]
    Numeral(u64),
    /// No memory was found.
    #[error("NoMemory")]
    NoMemory,
}

impl From<NoMemory> for VersFault {
    ghost use Rattle.std.specs.Prelude.{◌≡◌};
    ghost use Rattle.vx_vers.specs.declared.fault.VersFault.TheVariants as fault_of;

    ghost from_gives = { λ _ fault. fault ≡ fault_of.NoMemory };

    fn from(_error: NoMemory) -> Self {
        VersFault::NoMemory
    }
}

impl From<AllocError> for VersFault {
    ghost use Rattle.std.specs.Prelude.{◌≡◌};
    ghost use Rattle.vx_vers.specs.declared.fault.VersFault.TheVariants as fault_of;

    ghost from_gives = { λ _ fault. fault ≡ fault_of.NoMemory };

    fn from(_error: AllocError) -> Self {
        VersFault::NoMemory
    }
}
