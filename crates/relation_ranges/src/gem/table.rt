ghost use Rattle.std.specs.Prelude.{◌≡◌, ◌+◌, ◌++◌, IfOk, OnOk};
ghost use Rattle.vx_scheme.specs.declared.domain.Domain.TheVariants as domain_of;
ghost use Rattle.vx_range.specs.declared.making.Outcome.TheVariants as made;
ghost use Rattle.relation_ranges.specs.declared.gem.operators.Operator.TheVariants.{NotEqual, Twiddle};
ghost use Rattle.relation_ranges.specs.Gem.Spans.{outcome, spans_of};

use crate::comparison::push_compared;
use crate::gem::operators::{Operator, RequirementSigns, operator_of};
use crate::gem::range::GemRange;
use crate::relations::Relations;
use gem_scheme::{Gem, GemVersion, bump, past_numeral};
use std::alloc::Global;
use vx_range::{Outcome, PlacedVersions, push_above, push_below, push_between};
use vx_scheme::{Domain, EndKind, NoMemory, Scheme, Spans, StepFault};

impl PlacedVersions<GemRange> for Gem {
    ghost use Rattle.vx_text.specs.Past.{first_past};
    ghost use Rattle.gem_scheme.proofs.Bytes.{spelled_utf8};
    ghost use Rattle.gem_scheme.proofs.PastLaws.{limits_agree};

    ghost first_past = { first_past };

    ghost utf8 = { spelled_utf8 };

    ghost limits = { limits_agree };

    /// Where the first run of digits begins that passes 2^128-1.
    fn first_past(text: &[u8], at: usize) -> Option<usize> {
        past_numeral(text, at)
    }
}

impl Relations for Gem {
    ghost use Rattle.std.specs.Prelude.{None, ⊤};
    ghost use Rattle.vx_scheme.specs.declared.domain.Domain.TheVariants as domain_of;
    ghost use Rattle.vx_range.specs.declared.making.Outcome.TheVariants as made;
    ghost use Rattle.relation_ranges.specs.Gem.Operators.{HasSigns};
    ghost use Rattle.relation_ranges.specs.Gem.Spans.{spans_of, outcome};
    ghost use Rattle.relation_ranges.specs.Gem.Holds.{holds};
    ghost use Rattle.relation_ranges.specs.Gem.Apart.{size, Tells};
    ghost use Rattle.relation_ranges.specs.Laws.GemTable.{one_operator, agrees};
    ghost use Rattle.relation_ranges.specs.Laws.GemApart.{gem_apart, gem_tells};

    type Operator = Operator;

    type Signs = RequirementSigns;

    ghost Offers = { λ _. ⊤ };

    ghost usual = { domain_of.Releases };

    ghost bar = { None };

    ghost HasSigns = { HasSigns };

    ghost spans = { λ domain. spans_of };

    ghost outcome = { outcome };

    ghost holds = { holds };

    ghost size = { size };

    ghost Tells = { Tells };

    ghost one_operator = { one_operator };

    ghost agrees = { agrees };

    ghost some_told = { gem_tells };

    ghost told_apart = { λ domain operator bound kind n v w is none tells. gem_apart domain operator bound is kind none n v w tells };

    /// Both domains are offered.
    fn offers(_domain: Domain) -> bool {
        true
    }

    fn default_domain() -> Domain {
        Domain::Releases
    }

    /// There is none: each piece of the comma list is one requirement.
    fn bar() -> Option<u8> {
        None
    }

    /// The operator that is written so.
    fn operator(signs: &[u8]) -> Option<Operator> {
        operator_of(signs)
    }

    /// Appends the spans of the operator. `~>` has no end in the domain of all, and among releases none where a number
    /// would be raised past 2^128-1.
    fn push_spans(
        alloc: Global,
        operator: Operator,
        version: GemVersion,
        domain: Domain,
        marks: &mut u64,
        out: &mut Spans<GemVersion>,
    ) -> Result<Outcome, NoMemory> {
        match operator {
            Operator::Compares(comparison) => {
                push_compared::<Gem>(alloc, comparison, version, marks, out)?;
                Ok(Outcome::Spans)
            }
            Operator::NotEqual => {
                push_others(alloc, version, marks, out)?;
                Ok(Outcome::Spans)
            }
            Operator::Twiddle => match domain {
                Domain::All => Ok(Outcome::NoEnd(EndKind::Twiddle)),
                Domain::Releases => push_series(alloc, version, marks, out),
            },
        }
    }
}

// Appends the spans of all other versions, `(-, V)` and `(V, -)`.
fn push_others(
    alloc: Global,
    version: GemVersion,
    marks: &mut u64,
    out: &mut Spans<GemVersion>,
) -> Result<(), NoMemory>
    ensures span { OnOk result (out.new ≡ out.old ++ spans_of marks.old NotEqual version) }
    ensures marks { OnOk result (marks.new ≡ marks.old + 2) }
{
    let copied = Gem::copy(alloc, &version)?;
    push_below(marks, version, out)?;
    push_above(marks, copied, out)
}

// Appends `[r, bump r)`.
fn push_series(
    alloc: Global,
    version: GemVersion,
    marks: &mut u64,
    out: &mut Spans<GemVersion>,
) -> Result<Outcome, NoMemory>
    ensures outcome { IfOk result (λ o. o ≡ outcome domain_of.Releases Twiddle version) }
    ensures span { IfOk result (λ o. o ≡ made.Spans → out.new ≡ out.old ++ spans_of marks.old Twiddle version) }
    ensures marks { IfOk result (λ o. o ≡ made.Spans → marks.new ≡ marks.old + 2) }
{
    match bump(alloc, &version) {
        Ok(end) => {
            push_between(marks, version, end, out)?;
            Ok(Outcome::Spans)
        }
        Err(StepFault::TooLarge) => Ok(Outcome::TooHigh),
        Err(StepFault::NoMemory) => Err(NoMemory),
    }
}
