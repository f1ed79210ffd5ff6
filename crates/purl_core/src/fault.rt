use std::alloc::AllocError;
use thiserror::Error;
use vx_scheme::NoMemory;

/// Why a text is not read as a package URL. A later one comes only where no earlier one applies.
#[derive(Clone, Copy, Debug, PartialEq, Eq, Error)]
pub enum PurlFault {
    /// There is no `:`, or the scheme is not `pkg` in any case of letters.
    #[error("Scheme")]
    Scheme,
    /// The type is empty, does not begin with a letter, or holds another byte than letters, digits, `.`, `+` and `-`.
    #[error("BadType")]
    BadType,
    /// The path has no segment.
    #[error("Name")]
    Name,
    /// The `%` at this place is not followed by two hexadecimal digits.
    #[error("Escape")]
    Escape(usize),
    /// The part that begins at this place does not stand for UTF-8.
    #[error("NotText")]
    NotText(usize),
    /// The piece that begins at this place has no `=`, or its key has not the form of one.
    #[error("Qualifier")]
    Qualifier(usize),
    /// The key of the piece that begins at this place stands in an earlier one.
    #[error("DuplicateKey")]
    DuplicateKey(usize),
    /// No memory was found.
    #[error("NoMemory")]
    NoMemory,
}

impl From<NoMemory> for PurlFault {
    ghost use Rattle.std.specs.Prelude.{◌≡◌};
    ghost use Rattle.purl_core.specs.declared.fault.PurlFault.TheVariants as fault_of;

    ghost from_gives = { λ _ fault. fault ≡ fault_of.NoMemory };

    fn from(_error: NoMemory) -> Self {
        PurlFault::NoMemory
    }
}

impl From<AllocError> for PurlFault {
    ghost use Rattle.std.specs.Prelude.{◌≡◌};
    ghost use Rattle.purl_core.specs.declared.fault.PurlFault.TheVariants as fault_of;

    ghost from_gives = { λ _ fault. fault ≡ fault_of.NoMemory };

    fn from(_error: AllocError) -> Self {
        PurlFault::NoMemory
    }
}
