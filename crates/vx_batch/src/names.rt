ghost use Rattle.std.specs.Prelude.{◌≡◌};
ghost use Rattle.vx_batch.specs.Answers.{domain_named, end_kind_text, part_text, back_kind_text};

use vx_scheme::{Domain, EndKind};
use vx_translate::{BackKind, VersPart};

/// The domain that the text names, or none for `-`, which means the scheme's default.
pub fn domain_named(text: &str) -> Option<Option<Domain>>
    ensures { result ≡ domain_named text.now }
{
    match text {
        "all" => Some(Some(Domain::All)),
        "releases" => Some(Some(Domain::Releases)),
        "-" => Some(None),
        _ => None,
    }
}

/// The kind of an end that a domain lacks, as it stands in an answer line.
pub fn end_kind_text(kind: EndKind) -> &'static str
    ensures { result.now ≡ end_kind_text kind }
{
    match kind {
        EndKind::GreaterThanFinal => "GreaterThanFinal",
        EndKind::Twiddle => "Twiddle",
        EndKind::NoRelease => "NoRelease",
        EndKind::ArbitraryEquality => "ArbitraryEquality",
    }
}

/// The part of a VERS text that is refused, as it stands in an answer line.
pub fn part_text(part: VersPart) -> &'static str
    ensures { result.now ≡ part_text part }
{
    match part {
        VersPart::Head => "Head",
        VersPart::Constraint => "Constraint",
        VersPart::Version => "Version",
        VersPart::Duplicate => "Duplicate",
        VersPart::StarNotAlone => "StarNotAlone",
        VersPart::Numeral => "Numeral",
    }
}

/// Why spans have no native text, as it stands in an answer line.
pub fn back_kind_text(kind: BackKind) -> &'static str
    ensures { result.now ≡ back_kind_text kind }
{
    match kind {
        BackKind::NotOneInterval => "NotOneInterval",
        BackKind::PointHole => "PointHole",
        BackKind::LocalBound => "LocalBound",
        BackKind::LocalsApart => "LocalsApart",
        BackKind::NothingInDomain => "NothingInDomain",
    }
}
