use vx_scheme::{BackFault, EndKind, NoMemory, RangeFault};
use vx_vers::VersFault;

/// Which part of a VERS text is refused.
#[derive(Debug, Clone, Copy, PartialEq, Eq)]
pub enum VersPart {
    /// The head has no reading, or names another scheme.
    Head,
    /// A constraint has no version, or its escapes are broken.
    Constraint,
    /// The version of a constraint is none of the scheme.
    Version,
    /// A version is order-equal to an earlier one.
    Duplicate,
    /// `*` stands beside another constraint.
    StarNotAlone,
    /// A numeral of a version passes its limit.
    Numeral,
}

/// Why spans have no native text.
#[derive(Debug, Clone, Copy, PartialEq, Eq)]
pub enum BackKind {
    /// The language has single intervals alone.
    NotOneInterval,
    /// A hole of one version cannot be written.
    PointHole,
    /// A bound has a local part.
    LocalBound,
    /// A bound parts a version from its locals.
    LocalsApart,
    /// No version of the domain is meant.
    NothingInDomain,
}

/// Why a translation is refused. A place is a byte offset from 0 in the text, and the number beside a part or a kind
/// is that of a constraint, from 1, or 0 where the whole text is meant.
#[derive(Debug, Clone, Copy, PartialEq, Eq)]
pub enum Refusal {
    /// The scheme does not offer the domain.
    DomainNotOffered,
    /// The piece that begins at this place is no construct of the language.
    Syntax(usize),
    /// The numeral at this place passes its limit, or the construct at this place raises one past it.
    Numeral(usize),
    /// The construct at this place has no end in the domain.
    NoEndpoint(EndKind, usize),
    /// There is no place on the line of versions that the range holds.
    Empty,
    /// A part of the VERS text is refused.
    BadVers(VersPart, u64),
    /// The version text is none of the scheme.
    BadVersion,
    /// The spans have no native text.
    NoNative(BackKind, u64),
    /// No memory was found.
    NoMemory,
}

impl From<NoMemory> for Refusal {
    ghost use Rattle.std.specs.Prelude.{◌≡◌};
    ghost use Rattle.vx_translate.specs.declared.refusal.Refusal.TheVariants as refusal_of;

    ghost from_gives = { λ _ refusal. refusal ≡ refusal_of.NoMemory };

    fn from(_error: NoMemory) -> Self {
        Refusal::NoMemory
    }
}

impl From<RangeFault> for Refusal {
    ghost use Rattle.std.specs.Prelude.{◌≡◌};
    ghost use Rattle.vx_translate.specs.Refusals.{refusal_of};

    ghost from_gives = { λ fault refusal. refusal ≡ refusal_of fault };

    fn from(fault: RangeFault) -> Self {
        match fault {
            RangeFault::Syntax(at) => Refusal::Syntax(at),
            RangeFault::Numeral(at) => Refusal::Numeral(at),
            RangeFault::NoEndpoint(kind, at) => Refusal::NoEndpoint(kind, at),
            RangeFault::NoMemory => Refusal::NoMemory,
        }
    }
}

impl From<VersFault> for Refusal {
    ghost use Rattle.std.specs.Prelude.{◌≡◌};
    ghost use Rattle.vx_translate.specs.Refusals.{refusal_of_vers};

    ghost from_gives = { λ fault refusal. refusal ≡ refusal_of_vers fault };

    fn from(fault: VersFault) -> Self {
        match fault {
            VersFault::Head => Refusal::BadVers(VersPart::Head, 0),
            VersFault::Constraint(k) => Refusal::BadVers(VersPart::Constraint, k),
            VersFault::Version(k) => Refusal::BadVers(VersPart::Version, k),
            VersFault::Duplicate(k) => Refusal::BadVers(VersPart::Duplicate, k),
            VersFault::StarNotAlone => Refusal::BadVers(VersPart::StarNotAlone, 0),
            VersFault::Numeral(k) => Refusal::BadVers(VersPart::Numeral, k),
            VersFault::NoMemory => Refusal::NoMemory,
        }
    }
}

impl From<BackFault> for Refusal {
    ghost use Rattle.std.specs.Prelude.{◌≡◌};
    ghost use Rattle.vx_translate.specs.Refusals.{refusal_of_back};

    ghost from_gives = { λ fault refusal. refusal ≡ refusal_of_back fault };

    fn from(fault: BackFault) -> Self {
        match fault {
            BackFault::NotOneInterval(k) => Refusal::NoNative(BackKind::NotOneInterval, k),
            BackFault::PointHole(k) => Refusal::NoNative(BackKind::PointHole, k),
            BackFault::LocalBound(k) => Refusal::NoNative(BackKind::LocalBound, k),
            BackFault::LocalsApart(k) => Refusal::NoNative(BackKind::LocalsApart, k),
            BackFault::NothingInDomain(k) => Refusal::NoNative(BackKind::NothingInDomain, k),
            BackFault::NoMemory => Refusal::NoMemory,
        }
    }
}
