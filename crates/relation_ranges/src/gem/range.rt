ghost use Rattle.std.specs.Prelude.{◌≡◌, ℕ, List, ⊤};
ghost use Rattle.vx_scheme.specs.declared.domain.Domain.{Domain};
ghost use Rattle.vx_scheme.specs.declared.range_fault.RangeFault.{RangeFault};
ghost use Rattle.vx_scheme.specs.Cuts.{in_spans};
ghost use Rattle.vx_scheme.specs.Native.{by_domain};
ghost use Rattle.vx_range.specs.declared.making.Outcome.TheVariants as made;
ghost use Rattle.gem_scheme.specs.Version.{Fields, IsRelease};
ghost use Rattle.gem_scheme.specs.Order.{order_of};
ghost use Rattle.relation_ranges.specs.declared.gem.operators.Operator.{Operator};
ghost use Rattle.relation_ranges.specs.Gem.Reading.{GemRelation, Reads};
ghost use Rattle.relation_ranges.specs.Gem.Holds.{holds};
ghost use Rattle.relation_ranges.specs.Gem.Spans.{outcome, spans_of};
ghost use Rattle.relation_ranges.specs.Gem.Range.{Refuses};

use crate::gem::back::text_of;
use crate::range::RelationRange;
use crate::relations::BackForm;
use gem_scheme::{Gem, GemVersion};
use std::alloc::Global;
use vx_scheme::{BackFault, Domain, Spans, Text};

/// RubyGems' versions with RubyGems' requirements.
pub type GemRange = RelationRange<Gem>;

impl BackForm for Gem {
    ghost use Rattle.relation_ranges.specs.Gem.Back.{back};
    ghost use Rattle.relation_ranges.specs.Laws.GemBack.{gem_backs};

    ghost back = { back };

    ghost backs = { gem_backs };

    /// The text of the spans, the same in each domain: the first lower bound, the last upper bound, and `!= V` for each
    /// hole. The first gap that is no hole gives `NotOneInterval`.
    fn print(alloc: Global, spans: &Spans<GemVersion>, _domain: Domain) -> Result<Text, BackFault> {
        text_of(alloc, spans.as_slice())
    }
}

/// What a requirement makes in a domain holds the versions of the domain that it holds of, whatever its mark.
pub fn gem_requirement_is_its_spans()
    ensures { (domain : Domain) (operator : Operator) (bound : Fields) (mark : ℕ) (v : Fields) →
        by_domain (λ _. ⊤) IsRelease domain v → outcome domain operator bound ≡ made.Spans →
        in_spans order_of (spans_of mark operator bound) v ≡ holds operator bound v }
{}

/// A text has one reading, with numerals of any length, and one first refusal in a domain.
pub fn gem_one_answer()
    ensures reads { (text : List ℕ) (a b : List (List GemRelation)) → Reads text a → Reads text b → a ≡ b }
    ensures refused { (domain : Domain) (text : List ℕ) (a b : RangeFault) →
        Refuses domain text a → Refuses domain text b → a ≡ b }
{}
