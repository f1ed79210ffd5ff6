ghost use Rattle.std.specs.Prelude.{◌↔◌, ◌≡◌, List, None, ℕ};
ghost use Rattle.vx_text.specs.Past.{first_past};
ghost use Rattle.gem_scheme.specs.Version.{Fields, IsWithin};
ghost use Rattle.gem_scheme.specs.Spelling.{Spells};

/// Where in the text of a version that begins at this place the first numeral begins that passes 2^128-1: each run of
/// digits is a numeral. It takes no memory.
pub use vx_text::first_past as past_numeral;

/// A version is within the limit exactly where no numeral of its text passes it.
pub fn limits_agree()
    ensures { (text : List ℕ) (v : Fields) (at : ℕ) → Spells text v → IsWithin v ↔ (first_past at text ≡ None) }
{}
