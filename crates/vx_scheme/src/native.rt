ghost use Rattle.std.specs.Prelude.{◌≡◌, ◌↔◌, ℕ, List, IsTrue, Result, Ok, IfOk, IfErr};
ghost use Rattle.vx_scheme.specs.Domains.{InDomain};
ghost use Rattle.vx_scheme.specs.Native.{Refused, BackRefused, RangeLaws, BackLaws, IsSpans};

use crate::back_fault::BackFault;
use crate::domain::Domain;
use crate::range_fault::RangeFault;
use crate::scheme::Scheme;
use crate::span::{Bounds, Spans};
use crate::text::Text;
use std::alloc::Global;

/// A scheme with a range language.
pub trait Native: Scheme {
    ghost use Rattle.vx_scheme.specs.declared.domain.Domain.{Domain};
    ghost use Rattle.vx_scheme.specs.declared.range_fault.RangeFault.{RangeFault};
    ghost use Rattle.vx_scheme.specs.declared.back_fault.BackFault.{BackFault};
    ghost use Rattle.vx_scheme.specs.declared.span.Span.{Span};

    /// The domain is offered.
    ghost Offers: { Domain → Type 0 };

    /// The scheme's default.
    ghost usual: { Domain };

    /// The text has a reading in the range language.
    ghost IsRange: { List ℕ → Type 0 };

    /// The version is in the range text.
    ghost In: { List ℕ → Self.Version → Type 0 };

    /// In the domain the text makes these alternatives of terms of spans, with their marks.
    ghost Makes: { Domain → List ℕ → List (List (List (Span Self.Version))) → Type 0 };

    /// In the domain this is the first refusal of the text.
    ghost Refuses: { Domain → List ℕ → RangeFault → Type 0 };

    /// The text of the spans in the domain, or its first refusal.
    ghost back: { Domain → List (Span Self.Version) → Result (List ℕ) BackFault };

    /// Whether translations may name the domain. It takes no memory.
    fn offers(domain: Domain) -> bool
        ensures { IsTrue result ↔ Offers domain };

    /// The domain that is meant where none is named. It takes no memory.
    fn default_domain() -> Domain
        ensures usual { result ≡ usual }
        ensures offered { Offers result };

    /// The spans that the text makes in the domain, or its first refusal. The marks of the cuts are running numbers
    /// from 0: constructs from left to right, spans in their order, lower before upper.
    fn bounds(
        alloc: Global,
        text: &str,
        domain: Domain,
    ) -> Result<Bounds<Self::Version>, RangeFault>
        requires { Offers domain }
        ensures ok { IfOk result (λ bounds. Makes domain text.now bounds) }
        ensures err { IfErr result (Refused (Refuses domain text.now)) };

    /// The range text of the spans in the domain, or its first refusal.
    fn unbounds(
        alloc: Global,
        spans: &Spans<Self::Version>,
        domain: Domain,
    ) -> Result<Text, BackFault>
        requires offered { Offers domain }
        requires spans { IsSpans Self.order spans.now }
        ensures ok { IfOk result (λ text. back domain spans.now ≡ Ok text) }
        ensures err { IfErr result (BackRefused (back domain spans.now)) };

    /// What is made and what is refused.
    ghost ranges: { RangeLaws Self.order Self.IsVersion (InDomain Self.Scheme) Offers IsRange In Makes Refuses };

    /// What is printed.
    ghost backs: { BackLaws Self.order Self.IsVersion (InDomain Self.Scheme) IsRange In back };
}
