//! How many cuts a text makes, each law as the contract of a function that does nothing.

ghost use Rattle.std.specs.Prelude.{◌≡◌, ◌≤◌, ◌*◌, ℕ, List};
ghost use Rattle.vx_scheme.specs.declared.domain.Domain.{Domain};
ghost use Rattle.vx_scheme.specs.declared.span.Span.{Span};
ghost use Rattle.vx_range.specs.Sizes.{cut_count};
ghost use Rattle.maven_scheme.specs.Version as maven_version;
ghost use Rattle.nuget_scheme.specs.Version as nuget_version;
ghost use Rattle.bracket_ranges.specs.Range.{Makes};
ghost use Rattle.bracket_ranges.specs.Sizes.{HasConstructs};
ghost use Rattle.bracket_ranges.specs.Maven.Range as maven;
ghost use Rattle.bracket_ranges.specs.Maven.Sizes as maven_sizes;
ghost use Rattle.bracket_ranges.specs.Nuget.Range as nuget;
ghost use Rattle.bracket_ranges.specs.Nuget.Sizes as nuget_sizes;

use crate::table::Brackets;

/// What a text of brackets makes has at most twice as many cuts as the text has brackets, of which there is one
/// number.
pub fn brackets_are_short<B: Brackets>()
    ensures short { (domain : Domain) (text : List ℕ) (bounds : List (List (List (Span B.Version)))) →
        Makes B.lists B.alone B.Spells B.first_past B.order domain text bounds →
        (n : ℕ) × HasConstructs B.lists B.alone B.Spells text n × (cut_count bounds ≤ 2 * n) }
    ensures one { (text : List ℕ) (a b : ℕ) →
        HasConstructs B.lists B.alone B.Spells text a → HasConstructs B.lists B.alone B.Spells text b → a ≡ b }
{}

/// What a text of Maven makes has at most twice as many cuts as the text has brackets, of which there is one
/// number.
pub fn maven_is_short()
    ensures short { (domain : Domain) (text : List ℕ) (bounds : List (List (List (Span maven_version.Fields)))) →
        maven.Makes domain text bounds → (n : ℕ) × maven_sizes.HasConstructs text n × (cut_count bounds ≤ 2 * n) }
    ensures one { (text : List ℕ) (a b : ℕ) → maven_sizes.HasConstructs text a → maven_sizes.HasConstructs text b → a ≡ b }
{}

/// What a text of NuGet makes has at most twice as many cuts as the text has brackets, of which there is one
/// number.
pub fn nuget_is_short()
    ensures short { (domain : Domain) (text : List ℕ) (bounds : List (List (List (Span nuget_version.Fields)))) →
        nuget.Makes domain text bounds → (n : ℕ) × nuget_sizes.HasConstructs text n × (cut_count bounds ≤ 2 * n) }
    ensures one { (text : List ℕ) (a b : ℕ) → nuget_sizes.HasConstructs text a → nuget_sizes.HasConstructs text b → a ≡ b }
{}
