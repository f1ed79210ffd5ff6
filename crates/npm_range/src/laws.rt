ghost use Rattle.std.specs.Prelude.{◌≡◌, ◌↔◌, ℕ, List};
ghost use Rattle.vx_scheme.specs.declared.domain.Domain.{Domain};
ghost use Rattle.vx_scheme.specs.declared.domain.Domain.TheVariants as domain_of;
ghost use Rattle.vx_scheme.specs.declared.range_fault.RangeFault.{RangeFault};
ghost use Rattle.vx_scheme.specs.Cuts.{in_spans};
ghost use Rattle.vx_range.specs.declared.making.Outcome.TheVariants as made;
ghost use Rattle.vx_range.specs.Pieces.{Written};
ghost use Rattle.vx_range.specs.Reading.{Reads};
ghost use Rattle.npm_scheme.specs.Version.{Fields, IsVersion, IsRelease};
ghost use Rattle.npm_scheme.specs.Order.{order_of};
ghost use Rattle.npm_range.specs.declared.construct.Construct.{Construct};
ghost use Rattle.npm_range.specs.declared.cutting.Kind.{Kind};
ghost use Rattle.npm_range.specs.Cutting.{IsCut};
ghost use Rattle.npm_range.specs.Reading.{ReadsAs};
ghost use Rattle.npm_range.specs.Refusals.{IsPast, PartialIsWithin, outcome};
ghost use Rattle.npm_range.specs.Holds.{holds};
ghost use Rattle.npm_range.specs.Spans.{AreWithin, made_spans};
ghost use Rattle.npm_range.specs.Range.{Refuses};

/// A construct holds of a version of a domain exactly where one of the spans that it makes there holds it.
pub fn construct_is_its_spans()
    ensures all { (c : Construct) (mark : ℕ) (v : Fields) → IsVersion v
        → in_spans order_of (made_spans domain_of.All mark c) v ≡ holds c v }
    ensures releases { (c : Construct) (mark : ℕ) (v : Fields) → IsVersion v → IsRelease v
        → in_spans order_of (made_spans domain_of.Releases mark c) v ≡ holds c v }
{}

/// Each numeral of a construct is within 2^128-1 exactly where its piece has no numeral past it.
pub fn npm_limits_agree()
    ensures { (piece : Written Kind) (c : Construct) → ReadsAs piece c → PartialIsWithin c.partial ↔ ((at : ℕ) → ¬ (IsPast piece at)) }
{}

/// A construct whose numerals are within 2^128-1 makes spans exactly where each cut of its table is within it.
pub fn npm_raises_agree()
    ensures { (c : Construct) (domain : Domain) (mark : ℕ) → PartialIsWithin c.partial
        → (outcome c ≡ made.Spans) ↔ AreWithin (made_spans domain mark c) }
{}

/// A text has one reading, with numerals of any length, and one first refusal.
pub fn npm_one_answer()
    ensures reads { (text : List ℕ) (a b : List (List Construct)) → Reads IsCut ReadsAs text a → Reads IsCut ReadsAs text b → a ≡ b }
    ensures refused { (domain : Domain) (text : List ℕ) (a b : RangeFault) → Refuses domain text a → Refuses domain text b → a ≡ b }
{}
