//! How many cuts a text makes, as the contract of a function that does nothing.

ghost use Rattle.std.specs.Prelude.{◌≡◌, ◌≤◌, ◌*◌, ℕ, List};
ghost use Rattle.vx_scheme.specs.declared.domain.Domain.{Domain};
ghost use Rattle.vx_scheme.specs.declared.span.Span.{Span};
ghost use Rattle.vx_range.specs.Sizes.{cut_count};
ghost use Rattle.npm_scheme.specs.Version.{Fields};
ghost use Rattle.npm_range.specs.Range.{Makes};
ghost use Rattle.npm_range.specs.Sizes.{HasConstructs};

/// What a text makes has at most twice as many cuts as the text has constructs, of which there is one number. A hyphen
/// range counts as one.
pub fn npm_is_short()
    ensures short { (domain : Domain) (text : List ℕ) (bounds : List (List (List (Span Fields)))) → Makes domain text bounds
        → (n : ℕ) × HasConstructs text n × (cut_count bounds ≤ 2 * n) }
    ensures one { (text : List ℕ) (a b : ℕ) → HasConstructs text a → HasConstructs text b → a ≡ b }
{}
