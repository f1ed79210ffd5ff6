//! How many cuts a requirement makes, as the contract of a function that does nothing.

ghost use Rattle.std.specs.Prelude.{◌≡◌, ◌≤◌, ◌*◌, ℕ, List};
ghost use Rattle.semver.specs.Parse.{Parts};
ghost use Rattle.vx_scheme.specs.declared.domain.Domain.{Domain};
ghost use Rattle.vx_scheme.specs.declared.span.Span.{Span};
ghost use Rattle.vx_range.specs.Sizes.{cut_count};
ghost use Rattle.cargo_range.specs.Range.{Makes};
ghost use Rattle.cargo_range.specs.Sizes.{HasConstructs};

/// What a requirement makes has at most twice as many cuts as the requirement has comparators, of which there is one
/// number.
pub fn cargo_is_short()
    ensures short { (domain : Domain) (text : List ℕ) (bounds : List (List (List (Span Parts)))) → Makes domain text bounds
        → (n : ℕ) × HasConstructs text n × (cut_count bounds ≤ 2 * n) }
    ensures one { (text : List ℕ) (a b : ℕ) → HasConstructs text a → HasConstructs text b → a ≡ b }
{}
