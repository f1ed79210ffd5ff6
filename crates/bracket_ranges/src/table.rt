ghost use Rattle.std.specs.Prelude.{◌≡◌, ℕ, List};

use crate::bracket::Bracket;
use crate::range::BracketRange;
use vx_range::PlacedVersions;

/// The table of a language of brackets, over its versions. Both domains are offered, and all is the default. The text of
/// a range is one version alone or a bracket; where the table says so, further brackets may stand behind commas.
pub trait Brackets: PlacedVersions<BracketRange<Self>> {
    ghost use Rattle.std.specs.Prelude.{Bool};
    ghost use Rattle.bracket_ranges.specs.declared.bracket.Bracket.{Bracket};
    ghost use Rattle.bracket_ranges.specs.Words.{IsWord};

    /// Further brackets may stand behind commas.
    ghost lists: { Bool };

    /// The bracket that a version alone stands for.
    ghost alone: { Self.Version → Bracket Self.Version };

    /// Whether further brackets may stand behind commas. It takes no memory.
    fn lists() -> bool
        ensures { result ≡ lists };

    /// The bracket that a version alone stands for. It takes no memory.
    fn alone(version: Self::Version) -> Bracket<Self::Version>
        ensures { result ≡ alone version };

    /// Texts of versions hold no blank, comma or sign of a bracket, and are not empty.
    ghost words: { (text : List ℕ) (v : Self.Version) → Self.Spells text v → IsWord text };
}
