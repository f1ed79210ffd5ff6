ghost use Rattle.std.specs.Prelude.{◌≡◌, ◌++◌, IfOk};
ghost use Rattle.vx_range.specs.declared.making.Outcome.TheVariants as made;
ghost use Rattle.vx_range.specs.Making.{mark_behind};

use std::alloc::Global;
use vx_scheme::{Domain, EndKind, NoMemory, Scheme, Spans};

/// What becomes of a construct in a domain.
#[derive(Debug, Clone, Copy, PartialEq, Eq)]
pub enum Outcome {
    /// It makes its spans, of which there may be none: then it holds no version.
    Spans,
    /// It has no end, for this cause.
    NoEnd(EndKind),
    /// A numeral would be raised past the limit.
    TooHigh,
}

/// What the constructs of a range language make.
pub trait Making: Scheme {
    ghost use Rattle.std.specs.Prelude.{ℕ, Bool, List};
    ghost use Rattle.vx_scheme.specs.declared.domain.Domain.{Domain};
    ghost use Rattle.vx_scheme.specs.declared.span.Span.{Span};
    ghost use Rattle.vx_scheme.specs.Domains.{InDomain};
    ghost use Rattle.vx_scheme.specs.Cuts.{in_spans};
    ghost use Rattle.vx_range.specs.declared.making.Outcome.{Outcome};

    /// A construct.
    type Construct: Drop;

    /// The spans of a construct in the domain, whose first cut has this mark.
    ghost spans: { Domain → ℕ → Self.Construct → List (Span Self.Version) };

    /// What becomes of the construct in the domain.
    ghost outcome: { Domain → Self.Construct → Outcome };

    /// The construct holds of the version.
    ghost holds: { Self.Construct → Self.Version → Bool };

    /// Appends the spans of a construct in the domain, if it makes any, and says what becomes of it. The marks run on
    /// from the given one.
    fn push_spans(
        alloc: Global,
        construct: Self::Construct,
        domain: Domain,
        marks: &mut u64,
        out: &mut Spans<Self::Version>,
    ) -> Result<Outcome, NoMemory>
        ensures outcome { IfOk result (λ o. o ≡ outcome domain construct) }
        ensures spans { IfOk result (λ o. o ≡ made.Spans → out.new ≡ out.old ++ spans domain marks.old construct) }
        ensures marks { IfOk result (λ o. o ≡ made.Spans → marks.new ≡ mark_behind (spans domain) marks.old construct) };

    /// What it makes holds the versions of the domain that it holds of.
    ghost agrees: { (domain : Domain) (mark : ℕ) (construct : Self.Construct) (v : Self.Version) → Self.IsVersion v →
        InDomain Self.Scheme domain v → outcome domain construct ≡ made.Spans →
        in_spans Self.order (spans domain mark construct) v ≡ holds construct v };
}
