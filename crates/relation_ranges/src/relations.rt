ghost use Rattle.std.specs.Prelude.{◌≡◌, ◌+◌, ◌++◌, ◌↔◌, ℕ, List, Result, Ok, IfOk, IfErr, IsTrue, MatchOption, length};
ghost use Rattle.vx_scheme.specs.Domains.{InDomain};
ghost use Rattle.vx_scheme.specs.Native.{BackRefused, BackLaws, IsSpans};
ghost use Rattle.vx_range.specs.declared.making.Outcome.TheVariants as made;
ghost use Rattle.relation_ranges.specs.Range.{IsRange, In};

use crate::range::RelationRange;
use std::alloc::Global;
use vx_range::{Outcome, PlacedVersions};
use vx_scheme::{BackFault, Domain, NoMemory, Spans, Text};
use vx_text::ByteClass;

/// An operator and its version.
#[derive(Debug, Drop)]
pub struct Relation<O, V> {
    /// How a version has to compare.
    pub operator: O,
    /// What it is compared with.
    pub version: V,
}

/// The table of a language of relations, over its versions. The text of a range is a comma list, whose pieces may have
/// pieces of their own; each of those is an operator, blanks or none, and a version.
pub trait Relations: PlacedVersions<RelationRange<Self>> {
    ghost use Rattle.std.specs.Prelude.{Bool, Option};
    ghost use Rattle.vx_scheme.specs.declared.domain.Domain.{Domain};
    ghost use Rattle.vx_scheme.specs.declared.range_fault.EndKind.{EndKind};
    ghost use Rattle.vx_scheme.specs.declared.span.Span.{Span};
    ghost use Rattle.vx_scheme.specs.Cuts.{cuts_of, in_spans};
    ghost use Rattle.vx_range.specs.declared.making.Outcome.{Outcome};
    ghost use Rattle.vx_range.specs.Apart.{AreToldApart};

    /// The operators.
    type Operator: Drop;

    /// The bytes of which operators are written.
    type Signs: ByteClass;

    /// The domain is offered.
    ghost Offers: { Domain → Type 0 };

    /// The scheme's default.
    ghost usual: { Domain };

    /// What parts the relations of one term, where terms are of several.
    ghost bar: { Option ℕ };

    /// The operator is written so, or is left out where nothing is.
    ghost HasSigns: { Self.Operator → List ℕ → Type 0 };

    /// The spans of an operator and its version in the domain, whose first cut has this mark.
    ghost spans: { Domain → ℕ → Self.Operator → Self.Version → List (Span Self.Version) };

    /// What becomes of them in the domain.
    ghost outcome: { Domain → Self.Operator → Self.Version → Outcome };

    /// The operator holds between its version, which comes first, and another.
    ghost holds: { Self.Operator → Self.Version → Self.Version → Bool };

    /// The size of a version. It matters only where some operator has no end.
    ghost size: { Self.Version → ℕ };

    /// The two versions that an operator and its version, which comes first, tell apart for a number.
    ghost Tells: { ℕ → Self.Operator → Self.Version → Self.Version → Self.Version → Type 0 };

    /// Whether translations may name the domain. It takes no memory.
    fn offers(domain: Domain) -> bool
        ensures { IsTrue result ↔ Offers domain };

    /// The domain that is meant where none is named. It takes no memory.
    fn default_domain() -> Domain
        ensures usual { result ≡ usual }
        ensures offered { Offers result };

    /// What parts the relations of one term. It takes no memory.
    fn bar() -> Option<u8>
        ensures { result ≡ bar };

    /// The operator that is written so; `None` exactly where none is. It takes no memory.
    fn operator(signs: &[u8]) -> Option<Self::Operator>
        ensures { MatchOption result
            ((operator : Self.Operator) → ¬ (HasSigns operator signs.now))
            (λ operator. HasSigns operator signs.now) };

    /// Appends the spans of an operator and its version in the domain, if they make any, and says what becomes of them.
    /// The marks run on from the given one.
    fn push_spans(
        alloc: Global,
        operator: Self::Operator,
        version: Self::Version,
        domain: Domain,
        marks: &mut u64,
        out: &mut Spans<Self::Version>,
    ) -> Result<Outcome, NoMemory>
        ensures outcome { IfOk result (λ o. o ≡ outcome domain operator version) }
        ensures spans { IfOk result (λ o. o ≡ made.Spans → out.new ≡ out.old ++ spans domain marks.old operator version) }
        ensures marks { IfOk result (λ o. o ≡ made.Spans →
            marks.new ≡ marks.old + length (cuts_of (spans domain marks.old operator version))) };

    /// No signs are those of two operators.
    ghost one_operator: { (signs : List ℕ) (a b : Self.Operator) → HasSigns a signs → HasSigns b signs → a ≡ b };

    /// What they make holds the versions of the domain that the operator holds of.
    ghost agrees: { (domain : Domain) (mark : ℕ) (operator : Self.Operator) (bound v : Self.Version) →
        Self.IsVersion v → InDomain Self.Scheme domain v → outcome domain operator bound ≡ made.Spans →
        in_spans Self.order (spans domain mark operator bound) v ≡ holds operator bound v };

    /// Where they have no end there are such two for each number.
    ghost some_told: { (domain : Domain) (operator : Self.Operator) (bound : Self.Version) (kind : EndKind) →
        outcome domain operator bound ≡ made.NoEnd kind → (n : ℕ) →
        (v : Self.Version) × (w : Self.Version) × Tells n operator bound v w };

    /// And these are told apart: versions of the domain, of which the operator holds of one alone, while each version whose
    /// size is at most the number compares alike with both.
    ghost told_apart: { (domain : Domain) (operator : Self.Operator) (bound : Self.Version) (kind : EndKind) (n : ℕ)
        (v w : Self.Version) → Self.IsVersion bound → outcome domain operator bound ≡ made.NoEnd kind → Tells n operator bound v w →
        AreToldApart Self.order Self.IsVersion (InDomain Self.Scheme domain) size (holds operator bound) n v w };
}

/// A language of relations that prints spans.
pub trait BackForm: Relations {
    ghost use Rattle.vx_scheme.specs.declared.domain.Domain.{Domain};
    ghost use Rattle.vx_scheme.specs.declared.back_fault.BackFault.{BackFault};
    ghost use Rattle.vx_scheme.specs.declared.span.Span.{Span};

    /// The text of the spans in the domain, or its first refusal.
    ghost back: { Domain → List (Span Self.Version) → Result (List ℕ) BackFault };

    /// The range text of the spans in the domain, or its first refusal.
    fn print(alloc: Global, spans: &Spans<Self::Version>, domain: Domain) -> Result<Text, BackFault>
        requires offered { Self.Offers domain }
        requires spans { IsSpans Self.order spans.now }
        ensures ok { IfOk result (λ text. back domain spans.now ≡ Ok text) }
        ensures err { IfErr result (BackRefused (back domain spans.now)) };

    /// What is printed.
    ghost backs: { BackLaws Self.order Self.IsVersion (InDomain Self.Scheme)
        (IsRange Self.bar Self.Signs.holds Self.HasSigns Self.Spells)
        (In Self.bar Self.Signs.holds Self.HasSigns Self.Spells Self.holds) back };
}
