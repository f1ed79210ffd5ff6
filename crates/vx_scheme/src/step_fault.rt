use crate::memory::NoMemory;
use thiserror::Error;

/// Why there is no next version within the limits.
#[derive(Clone, Copy, Debug, PartialEq, Eq, Error)]
pub enum StepFault {
    /// The numeral to be raised is 2^128-1.
    #[error("TooLarge")]
    TooLarge,
    /// No memory was found.
    #[error("NoMemory")]
    NoMemory,
}

impl From<NoMemory> for StepFault {
    ghost use Rattle.std.specs.Prelude.{◌≡◌};
    ghost use Rattle.vx_scheme.specs.declared.step_fault.StepFault.TheVariants as fault_of;

    ghost from_gives = { λ _ fault. fault ≡ fault_of.NoMemory };

    fn from(_error: NoMemory) -> Self {
        StepFault::NoMemory
    }
}
