use crate::comparison::{Comparison, RelationSigns, Strict, comparison_of, push_compared};
use crate::deb::range::DebRange;
use crate::relations::Relations;
use deb_scheme::{Deb, DebVersion, past_numeral};
use std::alloc::Global;
use vx_range::{Outcome, PlacedVersions};
use vx_scheme::{Domain, NoMemory, Spans};

impl PlacedVersions<DebRange> for Deb {
    ghost use Rattle.vx_text.specs.Past.{first_past};
    ghost use Rattle.deb_scheme.proofs.Bytes.{spelled_utf8};
    ghost use Rattle.deb_scheme.proofs.PastLaws.{limits_agree};

    ghost first_past = { first_past };

    ghost utf8 = { spelled_utf8 };

    ghost limits = { limits_agree };

    /// Where the first run of digits begins that passes 2^128-1.
    fn first_past(text: &[u8], at: usize) -> Option<usize> {
        past_numeral(text, at)
    }
}

impl Relations for Deb {
    ghost use Rattle.std.specs.Prelude.{Some, ⊤};
    ghost use Rattle.vx_scheme.specs.declared.domain.Domain.TheVariants as domain_of;
    ghost use Rattle.vx_range.specs.declared.making.Outcome.TheVariants as made;
    ghost use Rattle.relation_ranges.specs.Deb.Operators.{HasSigns, bar};
    ghost use Rattle.relation_ranges.specs.Deb.Spans.{spans_of};
    ghost use Rattle.relation_ranges.specs.Deb.Holds.{holds};
    ghost use Rattle.relation_ranges.specs.Deb.Refusals.{outcome};
    ghost use Rattle.relation_ranges.specs.Laws.DebTable.{one_operator, agrees, deb_ends};

    type Operator = Comparison;

    type Signs = RelationSigns;

    ghost Offers = { λ _. ⊤ };

    ghost usual = { domain_of.All };

    ghost bar = { Some bar };

    ghost HasSigns = { HasSigns };

    ghost spans = { λ domain. spans_of };

    ghost outcome = { outcome };

    ghost holds = { holds };

    // Each relation has its end, and so none has two versions that are named here.
    ghost size = { λ _. 0 };

    ghost Tells = { λ _ _ _ _ _. ⊥ };

    ghost one_operator = { one_operator };

    ghost agrees = { agrees };

    ghost some_told = { λ domain operator bound kind none n. absurd (deb_ends domain operator bound kind none) };

    ghost told_apart = { λ domain operator bound kind n v w is none tells. absurd tells };

    /// Both domains are offered: every version is in each.
    fn offers(_domain: Domain) -> bool {
        true
    }

    fn default_domain() -> Domain {
        Domain::All
    }

    /// It is `|`.
    fn bar() -> Option<u8> {
        Some(b'|')
    }

    /// The operator that is written so.
    fn operator(signs: &[u8]) -> Option<Comparison> {
        comparison_of(Strict::Doubled, signs)
    }

    /// Appends the span of the operator, the same in each domain.
    fn push_spans(
        alloc: Global,
        operator: Comparison,
        version: DebVersion,
        _domain: Domain,
        marks: &mut u64,
        out: &mut Spans<DebVersion>,
    ) -> Result<Outcome, NoMemory> {
        push_compared::<Deb>(alloc, operator, version, marks, out)?;
        Ok(Outcome::Spans)
    }
}
