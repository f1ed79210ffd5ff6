use crate::memory::NoMemory;
use std::alloc::AllocError;
use thiserror::Error;

/// Why a construct of a range text has no end in a domain.
#[derive(Clone, Copy, Debug, PartialEq, Eq)]
pub enum EndKind {
    /// PyPI: above a final release stand its own post-releases and local versions, which are not meant.
    GreaterThanFinal,
    /// RubyGems: no version is the lowest pre-release of the bumped one.
    Twiddle,
    /// RPM: a version without a release stands below the same one with any release.
    NoRelease,
    /// PyPI: equality of texts.
    ArbitraryEquality,
}

/// Why a range text makes no spans. A place is a byte offset from 0 in the text.
#[derive(Clone, Copy, Debug, PartialEq, Eq, Error)]
pub enum RangeFault {
    /// The piece that begins at this place is no construct of the language.
    #[error("Syntax")]
    Syntax(usize),
    /// The numeral at this place passes its limit, or the construct at this place raises one past it.
    #[error("Numeral")]
    Numeral(usize),
    /// The construct at this place has no end in the domain.
    #[error("NoEndpoint")]
    NoEndpoint(EndKind, usize),
    /// No memory was found.
    #[error("NoMemory")]
    NoMemory,
}

impl From<NoMemory> for RangeFault {
    ghost use Rattle.std.specs.Prelude.{◌≡◌};
    ghost use Rattle.vx_scheme.specs.declared.range_fault.RangeFault.TheVariants as fault_of;

    ghost from_gives = { λ _ fault. fault ≡ fault_of.NoMemory };

    fn from(_error: NoMemory) -> Self {
        RangeFault::NoMemory
    }
}

impl From<AllocError> for RangeFault {
    ghost use Rattle.std.specs.Prelude.{◌≡◌};
    ghost use Rattle.vx_scheme.specs.declared.range_fault.RangeFault.TheVariants as fault_of;

    ghost from_gives = { λ _ fault. fault ≡ fault_of.NoMemory };

    fn from(_error: AllocError) -> Self {
        RangeFault::NoMemory
    }
}
