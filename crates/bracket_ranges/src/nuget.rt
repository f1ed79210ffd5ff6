ghost use Rattle.std.specs.Prelude.{◌≡◌};
ghost use Rattle.std.specs.Ordering.{is_ge};
ghost use Rattle.nuget_scheme.specs.Version.{Fields};
ghost use Rattle.nuget_scheme.specs.Order.{order_of};
ghost use Rattle.bracket_ranges.specs.Holds.{holds};
ghost use Rattle.bracket_ranges.specs.Nuget.Alone.{alone};

use crate::bracket::{Bound, Bracket};
use crate::range::BracketRange;
use crate::table::Brackets;
use nuget_scheme::{Nuget, NugetVersion, past_numeral};
use vx_range::PlacedVersions;

/// NuGet's versions with NuGet's range notation, after "Package versioning", "Version ranges": `V` alone, or one bracket.
/// Order alone decides, pre-releases included.
pub type NugetRange = BracketRange<Nuget>;

impl PlacedVersions<NugetRange> for Nuget {
    ghost use Rattle.nuget_scheme.specs.Past.{past_numeral_of};
    ghost use Rattle.nuget_scheme.proofs.Bytes.{spelled_utf8};
    ghost use Rattle.nuget_scheme.proofs.PastLaws.{limits_agree};

    ghost first_past = { past_numeral_of };

    ghost utf8 = { spelled_utf8 };

    ghost limits = { limits_agree };

    /// Where the first number, or label of digits alone, begins that passes 2^128-1.
    fn first_past(text: &[u8], at: usize) -> Option<usize> {
        past_numeral(text, at)
    }
}

impl Brackets for Nuget {
    ghost use Rattle.std.specs.Prelude.{false};
    ghost use Rattle.bracket_ranges.specs.Nuget.Alone.{alone};
    ghost use Rattle.bracket_ranges.specs.Laws.NugetTable.{spelled_word};

    ghost lists = { false };

    ghost alone = { alone };

    ghost words = { spelled_word };

    /// A text has one bracket.
    fn lists() -> bool {
        false
    }

    /// `V` is `[V,)`: at least V.
    fn alone(version: NugetVersion) -> Bracket<NugetVersion> {
        let lower = Bound {
            version,
            included: true,
        };
        Bracket::Between(Some(lower), None)
    }
}

/// A version alone holds of the versions that are at least it.
pub fn nuget_version_alone_is_the_minimum()
    ensures { (version v : Fields) → holds order_of (alone version) v ≡ is_ge (order_of v version) }
{}
