ghost use Rattle.std.specs.Prelude.{◌≡◌, ℕ, List};
ghost use Rattle.vx_scheme.specs.declared.domain.Domain.{Domain};
ghost use Rattle.vx_scheme.specs.declared.range_fault.EndKind.{EndKind};
ghost use Rattle.vx_scheme.specs.declared.range_fault.RangeFault.{RangeFault};
ghost use Rattle.vx_scheme.specs.declared.span.Cut.{Cut};
ghost use Rattle.vx_scheme.specs.Cuts.{cut_below, in_spans};
ghost use Rattle.vx_scheme.specs.Native.{by_domain};
ghost use Rattle.vx_range.specs.declared.making.Outcome.TheVariants as made;
ghost use Rattle.vx_range.specs.Apart.{AreToldApart};
ghost use Rattle.rpm_scheme.specs.Version.{Fields, HasRelease, IsWithoutRelease};
ghost use Rattle.rpm_scheme.specs.Order.{order_of};
ghost use Rattle.rpm_scheme.specs.Spelling.{IsVersion};
ghost use Rattle.relation_ranges.specs.declared.comparison.Comparison.{Comparison};
ghost use Rattle.relation_ranges.specs.Rpm.Reading.{RpmRelation, Reads};
ghost use Rattle.relation_ranges.specs.Rpm.Holds.{holds};
ghost use Rattle.relation_ranges.specs.Rpm.Spans.{outcome, spans_of};
ghost use Rattle.relation_ranges.specs.Rpm.Range.{Refuses};
ghost use Rattle.relation_ranges.specs.Rpm.Apart.{Tells, beyond, size, with_release, with_tildes};
ghost use Rattle.relation_ranges.specs.Rpm.Back.{moved};

use crate::range::RelationRange;
use crate::relations::BackForm;
use crate::rpm::back::text_of;
use rpm_scheme::{Rpm, RpmVersion};
use std::alloc::Global;
use vx_scheme::{BackFault, Domain, Spans, Text};

/// RPM's versions with RPM's relations.
pub type RpmRange = RelationRange<Rpm>;

impl BackForm for Rpm {
    ghost use Rattle.relation_ranges.specs.Rpm.Back.{back};
    ghost use Rattle.relation_ranges.specs.Laws.RpmBack.{rpm_backs};

    ghost back = { back };

    ghost backs = { rpm_backs };

    /// The text of the spans in the domain. Each cut is first moved to where the domain has versions; spans that hold
    /// nothing then are dropped, and spans that touch are joined. `NothingInDomain` comes exactly where none is left, and
    /// of several the first gap gives `PointHole` where it is a hole and else `NotOneInterval`, with the mark behind it.
    fn print(alloc: Global, spans: &Spans<RpmVersion>, domain: Domain) -> Result<Text, BackFault> {
        text_of(alloc, spans.as_slice(), domain)
    }
}

/// What a relation makes in a domain holds the versions of the domain that it holds of, whatever its mark.
pub fn rpm_relation_is_its_span()
    ensures { (domain : Domain) (operator : Comparison) (bound : Fields) (mark : ℕ) (v : Fields) →
        by_domain HasRelease IsWithoutRelease domain v → outcome domain operator bound ≡ made.Spans →
        in_spans order_of (spans_of domain mark operator bound) v ≡ holds operator bound v }
{}

/// A cut that is moved in a domain stands below the same versions of the domain.
pub fn rpm_moved_cut_parts_the_same()
    ensures { (domain : Domain) (cut : Cut Fields) (v : Fields) →
        by_domain HasRelease IsWithoutRelease domain v →
        cut_below order_of (moved domain cut) v ≡ cut_below order_of cut v }
{}

/// A text has one reading, with numerals of any length, and one first refusal in a domain.
pub fn rpm_one_answer()
    ensures reads { (text : List ℕ) (a b : List (List RpmRelation)) → Reads text a → Reads text b → a ≡ b }
    ensures refused { (domain : Domain) (text : List ℕ) (a b : RangeFault) →
        Refuses domain text a → Refuses domain text b → a ≡ b }
{}

/// A relation that is refused for want of an end has for each number n two versions of the domain that it tells apart, though
/// each version of size n at most compares alike with both: so no list of versions says it.
pub fn rpm_refusal_is_necessary()
    ensures two { (domain : Domain) (operator : Comparison) (bound : Fields) (kind : EndKind) (n : ℕ) →
        outcome domain operator bound ≡ made.NoEnd kind →
        Tells n operator bound (with_release (beyond n bound) bound) (with_tildes (beyond n bound) bound) }
    ensures apart { (domain : Domain) (operator : Comparison) (bound : Fields) (kind : EndKind) (n : ℕ) (v w : Fields) →
        IsVersion bound → outcome domain operator bound ≡ made.NoEnd kind → Tells n operator bound v w →
        AreToldApart order_of IsVersion (by_domain HasRelease IsWithoutRelease domain) size (holds operator bound) n v w }
{}
