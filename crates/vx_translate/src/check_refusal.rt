use crate::refusal::Refusal;
use purl_core::PurlFault;
use vx_scheme::NoMemory;

/// Why a check is refused.
#[derive(Debug, Clone, Copy, PartialEq, Eq)]
pub enum CheckRefusal {
    /// The VERS text is refused, or the scheme refuses the version: as `has` does.
    Vers(Refusal),
    /// The package URL is refused.
    BadPurl(PurlFault),
    /// The package URL has no version.
    NoVersion,
    /// The type of the package URL is another than the scheme of the VERS text.
    NoScheme,
    /// No memory was found.
    NoMemory,
}

impl From<NoMemory> for CheckRefusal {
    ghost use Rattle.std.specs.Prelude.{◌≡◌};
    ghost use Rattle.vx_translate.specs.declared.check_refusal.CheckRefusal.TheVariants as refusal_of;

    ghost from_gives = { λ _ refusal. refusal ≡ refusal_of.NoMemory };

    fn from(_error: NoMemory) -> Self {
        CheckRefusal::NoMemory
    }
}

impl From<Refusal> for CheckRefusal {
    ghost use Rattle.std.specs.Prelude.{◌≡◌};
    ghost use Rattle.vx_translate.specs.Refusals.{check_refusal_of};

    ghost from_gives = { λ fault refusal. refusal ≡ check_refusal_of fault };

    fn from(refusal: Refusal) -> Self {
        match refusal {
            Refusal::NoMemory => CheckRefusal::NoMemory,
            other => CheckRefusal::Vers(other),
        }
    }
}

impl From<PurlFault> for CheckRefusal {
    ghost use Rattle.std.specs.Prelude.{◌≡◌};
    ghost use Rattle.vx_translate.specs.Refusals.{check_refusal_of_purl};

    ghost from_gives = { λ fault refusal. refusal ≡ check_refusal_of_purl fault };

    fn from(fault: PurlFault) -> Self {
        match fault {
            PurlFault::NoMemory => CheckRefusal::NoMemory,
            other => CheckRefusal::BadPurl(other),
        }
    }
}
