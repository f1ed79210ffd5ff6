ghost use Rattle.std.specs.Prelude.{◌≡◌, ◌↔◌, ℕ, List, None};
ghost use Rattle.vx_text.specs.Past.{first_past};
ghost use Rattle.deb_scheme.specs.Version.{Fields, IsWithin};
ghost use Rattle.deb_scheme.specs.Spelling.{Spells};

/// A version is within the limit exactly where no numeral of its text passes it.
pub fn limits_agree()
    ensures { (text : List ℕ) (v : Fields) (at : ℕ) → Spells text v → IsWithin v ↔ (first_past at text ≡ None) }
{}
