ghost use Rattle.std.specs.Prelude.{◌≡◌, true};
ghost use Rattle.maven_scheme.specs.Version.{Fields};
ghost use Rattle.maven_scheme.specs.Order.{order_of};
ghost use Rattle.bracket_ranges.specs.Holds.{holds};
ghost use Rattle.bracket_ranges.specs.Maven.Alone.{alone};

use crate::bracket::Bracket;
use crate::range::BracketRange;
use crate::table::Brackets;
use maven_scheme::{Maven, MavenVersion, past_numeral};
use vx_range::PlacedVersions;

/// Maven's versions with Maven's version requirements, after the POM Reference, "Dependency Version Requirement
/// Specification": `V` alone, or brackets parted by commas.
pub type MavenRange = BracketRange<Maven>;

impl PlacedVersions<MavenRange> for Maven {
    ghost use Rattle.vx_text.specs.Past.{first_past};
    ghost use Rattle.maven_scheme.proofs.PastLaws.{limits_agree};
    ghost use Rattle.bracket_ranges.specs.Laws.MavenTable.{spelled_utf8};

    ghost first_past = { first_past };

    ghost utf8 = { spelled_utf8 };

    ghost limits = { limits_agree };

    /// Where the first run of digits begins that passes 2^128-1.
    fn first_past(text: &[u8], at: usize) -> Option<usize> {
        past_numeral(text, at)
    }
}

impl Brackets for Maven {
    ghost use Rattle.std.specs.Prelude.{true};
    ghost use Rattle.bracket_ranges.specs.Maven.Alone.{alone};
    ghost use Rattle.bracket_ranges.specs.Laws.MavenTable.{spelled_word};

    ghost lists = { true };

    ghost alone = { alone };

    ghost words = { spelled_word };

    /// A text may list brackets.
    fn lists() -> bool {
        true
    }

    /// `V` is `(,)`: a wish, which any version may meet.
    fn alone(_version: MavenVersion) -> Bracket<MavenVersion> {
        Bracket::Between(None, None)
    }
}

/// A version alone holds of every version.
pub fn maven_version_alone_asks_nothing()
    ensures { (version v : Fields) → holds order_of (alone version) v ≡ true }
{}
