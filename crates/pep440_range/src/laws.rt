ghost use Rattle.std.specs.Prelude.{◌≡◌, ◌↔◌, ℕ, List, ⊤};
ghost use Rattle.vx_scheme.specs.declared.domain.Domain.{Domain};
ghost use Rattle.vx_scheme.specs.declared.domain.Domain.TheVariants as domain_of;
ghost use Rattle.vx_scheme.specs.declared.range_fault.EndKind.{EndKind};
ghost use Rattle.vx_scheme.specs.declared.range_fault.EndKind.TheVariants.{GreaterThanFinal};
ghost use Rattle.vx_scheme.specs.declared.range_fault.RangeFault.{RangeFault};
ghost use Rattle.vx_scheme.specs.Cuts.{in_spans};
ghost use Rattle.vx_scheme.specs.Native.{by_domain};
ghost use Rattle.vx_range.specs.declared.making.Outcome.TheVariants as made;
ghost use Rattle.vx_range.specs.Apart.{AreToldApart};
ghost use Rattle.vx_range.specs.Lists.{Plain};
ghost use Rattle.vx_range.specs.Reading.{Reads};
ghost use Rattle.pep440_scheme.specs.Version.{Fields, IsVersion, IsRelease};
ghost use Rattle.pep440_scheme.specs.Order.{order_of};
ghost use Rattle.pep440_range.specs.declared.construct.Construct.{Construct};
ghost use Rattle.pep440_range.specs.Reading.{IsCut, ReadsAs};
ghost use Rattle.pep440_range.specs.Refusals.{ConstructIsWithin, IsPast, outcome};
ghost use Rattle.pep440_range.specs.Holds.{holds};
ghost use Rattle.pep440_range.specs.Spans.{AreWithin, made_spans};
ghost use Rattle.pep440_range.specs.Range.{Refuses};
ghost use Rattle.pep440_range.specs.Apart.{AreWitnesses, size};

/// Where a construct makes spans in a domain, it holds of a version of the domain exactly where one of them holds it.
pub fn pypi_construct_is_its_spans()
    ensures all { (c : Construct) (mark : ℕ) (v : Fields) → IsVersion v → outcome domain_of.All c ≡ made.Spans
        → in_spans order_of (made_spans domain_of.All mark c) v ≡ holds c v }
    ensures releases { (c : Construct) (mark : ℕ) (v : Fields) → IsVersion v → IsRelease v → outcome domain_of.Releases c ≡ made.Spans
        → in_spans order_of (made_spans domain_of.Releases mark c) v ≡ holds c v }
{}

/// Each numeral of a construct is within 2^128-1 exactly where its piece has no numeral past it.
pub fn pypi_limits_agree()
    ensures { (piece : Plain) (c : Construct) → ReadsAs piece c → ConstructIsWithin c ↔ ((at : ℕ) → ¬ (IsPast piece at)) }
{}

/// Of a construct that is read, with numerals within 2^128-1: where it makes spans, each cut of its table is within it, and where a
/// numeral is too high, not each is.
pub fn pypi_raises_agree()
    ensures made { (piece : Plain) (c : Construct) (domain : Domain) (mark : ℕ) → ReadsAs piece c → ConstructIsWithin c
        → outcome domain c ≡ made.Spans → AreWithin (made_spans domain mark c) }
    ensures too_high { (piece : Plain) (c : Construct) (domain : Domain) (mark : ℕ) → ReadsAs piece c → ConstructIsWithin c
        → outcome domain c ≡ made.TooHigh → ¬ (AreWithin (made_spans domain mark c)) }
{}

/// A text has one reading, with numerals of any length, and one first refusal in a domain.
pub fn pypi_one_answer()
    ensures reads { (text : List ℕ) (a b : List (List Construct)) → Reads IsCut ReadsAs text a → Reads IsCut ReadsAs text b → a ≡ b }
    ensures refused { (domain : Domain) (text : List ℕ) (a b : RangeFault) → Refuses domain text a → Refuses domain text b → a ≡ b }
{}

/// Of a construct that is read and that has no end in a domain: for each number n it holds of one of its two versions alone, which
/// are versions of the domain, while each version whose numerals are n at most, with n release numbers at most, compares alike with
/// both. So no list of such versions says what the construct does. The two of `>V` are there for each n, and those of `===T` where
/// T is, letter case aside, the normal text of a version of the domain.
pub fn pypi_no_end_tells_apart()
    ensures apart { (piece : Plain) (c : Construct) (domain : Domain) (kind : EndKind) (n : ℕ) (v w : Fields) → ReadsAs piece c
        → outcome domain c ≡ made.NoEnd kind → AreWitnesses domain n c v w
        → AreToldApart order_of IsVersion (by_domain (λ _. ⊤) IsRelease domain) size (holds c) n v w }
    ensures greater { (c : Construct) (domain : Domain) (n : ℕ) → outcome domain c ≡ made.NoEnd GreaterThanFinal
        → (v : Fields) × (w : Fields) × AreWitnesses domain n c v w }
{}
