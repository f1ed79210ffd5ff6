ghost use Rattle.std.specs.Prelude.{◌≡◌, if◌then◌else◌};
ghost use Rattle.vx_scheme.specs.declared.range_fault.EndKind.TheVariants as end_kind;
ghost use Rattle.vx_range.specs.declared.making.Outcome.TheVariants as made;
ghost use Rattle.relation_ranges.specs.Rpm.Spans.{has_release, is_open, named_in, outcome};

use crate::comparison::{Comparison, RelationSigns, Strict, comparison_of, push_compared};
use crate::relations::Relations;
use crate::rpm::range::RpmRange;
use rpm_scheme::{Rpm, RpmVersion, past_numeral, without_release};
use std::alloc::Global;
use vx_range::{Outcome, PlacedVersions};
use vx_scheme::{Domain, EndKind, NoMemory, Spans};

impl PlacedVersions<RpmRange> for Rpm {
    ghost use Rattle.vx_text.specs.Past.{first_past};
    ghost use Rattle.rpm_scheme.proofs.Bytes.{spelled_utf8};
    ghost use Rattle.rpm_scheme.proofs.PastLaws.{limits_agree};

    ghost first_past = { first_past };

    ghost utf8 = { spelled_utf8 };

    ghost limits = { limits_agree };

    /// Where the first run of digits begins that passes 2^128-1.
    fn first_past(text: &[u8], at: usize) -> Option<usize> {
        past_numeral(text, at)
    }
}

impl Relations for Rpm {
    ghost use Rattle.std.specs.Prelude.{None, ⊤};
    ghost use Rattle.vx_scheme.specs.declared.domain.Domain.TheVariants as domain_of;
    ghost use Rattle.vx_range.specs.declared.making.Outcome.TheVariants as made;
    ghost use Rattle.relation_ranges.specs.Rpm.Reading.{HasSigns};
    ghost use Rattle.relation_ranges.specs.Rpm.Spans.{spans_of, outcome};
    ghost use Rattle.relation_ranges.specs.Rpm.Holds.{holds};
    ghost use Rattle.relation_ranges.specs.Rpm.Apart.{size, Tells, beyond, with_release, with_tildes};
    ghost use Rattle.relation_ranges.specs.Laws.RpmTable.{one_operator, agrees};
    ghost use Rattle.relation_ranges.specs.Laws.RpmApart.{rpm_apart, rpm_tells};

    type Operator = Comparison;

    type Signs = RelationSigns;

    ghost Offers = { λ _. ⊤ };

    ghost usual = { domain_of.All };

    ghost bar = { None };

    ghost HasSigns = { HasSigns };

    ghost spans = { spans_of };

    ghost outcome = { outcome };

    ghost holds = { holds };

    ghost size = { size };

    ghost Tells = { Tells };

    ghost one_operator = { one_operator };

    ghost agrees = { agrees };

    ghost some_told = { λ domain operator bound kind none n.
        (with_release (beyond n bound) bound, with_tildes (beyond n bound) bound, rpm_tells domain operator bound kind n none) };

    ghost told_apart = { rpm_apart };

    /// Both domains are offered.
    fn offers(_domain: Domain) -> bool {
        true
    }

    fn default_domain() -> Domain {
        Domain::All
    }

    /// There is none: each piece of the comma list is one relation.
    fn bar() -> Option<u8> {
        None
    }

    /// The operator that is written so.
    fn operator(signs: &[u8]) -> Option<Comparison> {
        comparison_of(Strict::Single, signs)
    }

    /// Appends the span of the operator, among releases at the version without its release. In the domain of all `=`, `<=`
    /// and `>` have no end at a version without a release.
    fn push_spans(
        alloc: Global,
        operator: Comparison,
        version: RpmVersion,
        domain: Domain,
        marks: &mut u64,
        out: &mut Spans<RpmVersion>,
    ) -> Result<Outcome, NoMemory> {
        if has_no_end(operator, &version, domain) {
            return Ok(Outcome::NoEnd(EndKind::NoRelease));
        }
        push_compared::<Rpm>(alloc, operator, named_in(version, domain), marks, out)?;
        Ok(Outcome::Spans)
    }
}

fn has_no_end(comparison: Comparison, version: &RpmVersion, domain: Domain) -> bool
    ensures { outcome domain comparison version.now ≡ (if result then made.NoEnd end_kind.NoRelease else made.Spans) }
{
    match domain {
        Domain::All => !has_release(version) && !is_open(comparison),
        Domain::Releases => false,
    }
}

fn is_open(comparison: Comparison) -> bool
    ensures { result ≡ is_open comparison }
{
    matches!(comparison, Comparison::Less | Comparison::GreaterOrEqual)
}

pub(crate) fn has_release(version: &RpmVersion) -> bool
    ensures { result ≡ has_release version.now }
{
    version.release.is_some()
}

/// The version that stands for another in the domain. It takes no memory.
pub(crate) fn named_in(version: RpmVersion, domain: Domain) -> RpmVersion
    ensures { result ≡ named_in domain version }
{
    match domain {
        Domain::All => version,
        Domain::Releases => {
            if has_release(&version) {
                without_release(version)
            } else {
                version
            }
        }
    }
}
