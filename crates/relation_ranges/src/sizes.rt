//! How many cuts a text makes, each law as the contract of a function that does nothing.

ghost use Rattle.std.specs.Prelude.{◌≡◌, ◌≤◌, ◌*◌, ℕ, List};
ghost use Rattle.vx_scheme.specs.declared.domain.Domain.{Domain};
ghost use Rattle.vx_scheme.specs.declared.span.Span.{Span};
ghost use Rattle.vx_range.specs.Sizes.{cut_count};
ghost use Rattle.deb_scheme.specs.Version as deb_version;
ghost use Rattle.gem_scheme.specs.Version as gem_version;
ghost use Rattle.rpm_scheme.specs.Version as rpm_version;
ghost use Rattle.relation_ranges.specs.Deb.Range as deb;
ghost use Rattle.relation_ranges.specs.Deb.Sizes as deb_sizes;
ghost use Rattle.relation_ranges.specs.Gem.Range as gem;
ghost use Rattle.relation_ranges.specs.Gem.Sizes as gem_sizes;
ghost use Rattle.relation_ranges.specs.Rpm.Range as rpm;
ghost use Rattle.relation_ranges.specs.Rpm.Sizes as rpm_sizes;

/// What a text of Debian makes has at most twice as many cuts as the text has relations, of which there is one number.
pub fn deb_is_short()
    ensures short { (domain : Domain) (text : List ℕ) (bounds : List (List (List (Span deb_version.Fields)))) →
        deb.Makes domain text bounds → (n : ℕ) × deb_sizes.HasConstructs text n × (cut_count bounds ≤ 2 * n) }
    ensures one { (text : List ℕ) (a b : ℕ) → deb_sizes.HasConstructs text a → deb_sizes.HasConstructs text b → a ≡ b }
{}

/// What a text of RubyGems makes has at most twice as many cuts as the text has requirements, of which there is
/// one number.
pub fn gem_is_short()
    ensures short { (domain : Domain) (text : List ℕ) (bounds : List (List (List (Span gem_version.Fields)))) →
        gem.Makes domain text bounds → (n : ℕ) × gem_sizes.HasConstructs text n × (cut_count bounds ≤ 2 * n) }
    ensures one { (text : List ℕ) (a b : ℕ) → gem_sizes.HasConstructs text a → gem_sizes.HasConstructs text b → a ≡ b }
{}

/// What a text of RPM makes has at most twice as many cuts as the text has relations, of which there is one number.
pub fn rpm_is_short()
    ensures short { (domain : Domain) (text : List ℕ) (bounds : List (List (List (Span rpm_version.Fields)))) →
        rpm.Makes domain text bounds → (n : ℕ) × rpm_sizes.HasConstructs text n × (cut_count bounds ≤ 2 * n) }
    ensures one { (text : List ℕ) (a b : ℕ) → rpm_sizes.HasConstructs text a → rpm_sizes.HasConstructs text b → a ≡ b }
{}
