ghost use Rattle.std.specs.Prelude.{◌≡◌, ℕ, List};
ghost use Rattle.std.specs.List.{list_any};
ghost use Rattle.vx_spec.specs.Each.{joined};
ghost use Rattle.vx_scheme.specs.declared.domain.Domain.{Domain};
ghost use Rattle.vx_scheme.specs.declared.range_fault.RangeFault.{RangeFault};
ghost use Rattle.vx_scheme.specs.Cuts.{in_spans};
ghost use Rattle.vx_range.specs.Making.{made_each};
ghost use Rattle.deb_scheme.specs.Version.{Fields};
ghost use Rattle.deb_scheme.specs.Order.{order_of};
ghost use Rattle.relation_ranges.specs.declared.comparison.Comparison.{Comparison};
ghost use Rattle.relation_ranges.specs.Range.{relation_holds, relation_spans};
ghost use Rattle.relation_ranges.specs.Deb.Reading.{DebRelation, Reads};
ghost use Rattle.relation_ranges.specs.Deb.Holds.{holds};
ghost use Rattle.relation_ranges.specs.Deb.Spans.{spans_of};
ghost use Rattle.relation_ranges.specs.Deb.Range.{Refuses};

use crate::deb::back::text_of;
use crate::range::RelationRange;
use crate::relations::BackForm;
use deb_scheme::{Deb, DebVersion};
use std::alloc::Global;
use vx_scheme::{BackFault, Domain, Spans, Text};

/// Debian's versions with Debian's relations.
pub type DebRange = RelationRange<Deb>;

impl BackForm for Deb {
    ghost use Rattle.relation_ranges.specs.Deb.Back.{back};
    ghost use Rattle.relation_ranges.specs.Laws.DebBack.{deb_backs};

    ghost back = { back };

    ghost backs = { deb_backs };

    /// The text of the spans, the same in each domain: the bounds of the first and the last span, and between them a term
    /// for each gap. It refuses no spans.
    fn print(alloc: Global, spans: &Spans<DebVersion>, _domain: Domain) -> Result<Text, BackFault> {
        Ok(text_of(alloc, spans.as_slice())?)
    }
}

/// A relation holds of a version exactly where the span that it makes holds it, whatever its mark.
pub fn deb_relation_is_its_span()
    ensures { (operator : Comparison) (bound : Fields) (mark : ℕ) (v : Fields) →
        in_spans order_of (spans_of mark operator bound) v ≡ holds operator bound v }
{}

/// Some relation of a term holds of a version exactly where one of the spans that the term makes holds it.
pub fn deb_term_is_its_spans()
    ensures { (term : List DebRelation) (mark : ℕ) (v : Fields) →
        in_spans order_of (joined (made_each (relation_spans spans_of) mark term)) v
        ≡ list_any (λ relation. relation_holds holds relation v) term }
{}

/// A text has one reading, with numerals of any length, and one first refusal in a domain.
pub fn deb_one_answer()
    ensures reads { (text : List ℕ) (a b : List (List DebRelation)) → Reads text a → Reads text b → a ≡ b }
    ensures refused { (domain : Domain) (text : List ℕ) (a b : RangeFault) →
        Refuses domain text a → Refuses domain text b → a ≡ b }
{}
