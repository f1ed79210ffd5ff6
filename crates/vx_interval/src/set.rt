ghost use Rattle.std.specs.Prelude.{◌≡◌, ◌↔◌, ◌++◌, ◌∷◌, List, [], true, false, None, IsTrue, IfOk, IsOkAnd, All, not, ◌&&◌, ◌||◌};
ghost use Rattle.vx_spec.specs.Ascending.{IsAscending};
ghost use Rattle.vx_scheme.specs.declared.span.Cut.{Cut};
ghost use Rattle.vx_scheme.specs.declared.span.Span.{Span};
ghost use Rattle.vx_scheme.specs.Cuts.{cut_cmp, cut_below, cuts_of, starts_of, spans_of, spans_at, in_spans, IsInOrder};
ghost use Rattle.vx_line.specs.Line.{IsFirstKept, is_in, join_by};
ghost use Rattle.vx_interval.specs.Places.{AtEachPlace};
ghost use Rattle.vx_interval.specs.Steps.Opened.{spans_from};

use crate::merging::{Cuts, join_values, merge_versions};
use std::alloc::Global;
use std::cmp::Ordering;
use std::marker::{Brand, Model};
use std::sync::ledger::Blank;
use vx_scheme::{Cut, NoMemory, Scheme, Span, Spans};

/// A set of versions, which contracts see as its spans, in order and apart.
#[derive(Drop)]
pub struct Set<S: Scheme> {
    starts: bool,
    cuts: Cuts<S::Version>,
}

impl<S: Scheme> Model for Set<S> {
    ghost use Rattle.std.specs.Prelude.{List};
    ghost use Rattle.vx_spec.specs.Ascending.{IsAscending};
    ghost use Rattle.vx_scheme.specs.declared.span.Span.{Span};
    ghost use Rattle.vx_scheme.specs.Cuts.{cut_cmp, spans_of};

    ghost Value = { List (Span S.Version) };

    ghost view = { λ set. spans_of set.starts set.cuts };

    ghost invariant = { λ set. IsAscending (cut_cmp S.order) set.cuts };
}

impl<S: Scheme> Set<S> {
    /// No version. It takes no memory.
    pub fn none(alloc: Global) -> Set<S>
        ensures spans { result ≡ [] }
        ensures members { (v : S.Version) → in_spans S.order result v ≡ false }
        ensures at { AtEachPlace S.order (λ below. spans_at below result ≡ false) }
    {
        Set {
            starts: false,
            cuts: Cuts::new(alloc),
        }
    }

    /// Every version.
    pub fn every(alloc: Global) -> Result<Set<S>, NoMemory>
        ensures spans { IsOkAnd result (λ set. set ≡ record { lower = None; upper = None } ∷ []) }
        ensures members { IfOk result (λ set. (v : S.Version) → in_spans S.order set v ≡ true) }
        ensures at { IfOk result (λ set. AtEachPlace S.order (λ below. spans_at below set ≡ true)) }
    {
        Ok(Set {
            starts: true,
            cuts: Cuts::new(alloc),
        })
    }

    /// What is in either set. Of two order-equal cuts the one of `self` is kept.
    pub fn union(self, other: Set<S>) -> Result<Set<S>, NoMemory>
        ensures members { IfOk result (λ set.
            (v : S.Version) → in_spans S.order set v ≡ (in_spans S.order self v || in_spans S.order other v)) }
        ensures at { IfOk result (λ set.
            AtEachPlace S.order (λ below. spans_at below set ≡ (spans_at below self || spans_at below other))) }
        ensures kept { IfOk result (λ set.
            All (IsFirstKept (cut_cmp S.order) (cuts_of self) (cuts_of other)) (cuts_of set)) }
    {
        let set = self.join(false, other)?;
        Ok(set)
    }

    /// What is in both sets. Of two order-equal cuts the one of `self` is kept.
    pub fn intersect(self, other: Set<S>) -> Result<Set<S>, NoMemory>
        ensures members { IfOk result (λ set.
            (v : S.Version) → in_spans S.order set v ≡ (in_spans S.order self v && in_spans S.order other v)) }
        ensures at { IfOk result (λ set.
            AtEachPlace S.order (λ below. spans_at below set ≡ (spans_at below self && spans_at below other))) }
        ensures kept { IfOk result (λ set.
            All (IsFirstKept (cut_cmp S.order) (cuts_of self) (cuts_of other)) (cuts_of set)) }
    {
        let set = self.join(true, other)?;
        Ok(set)
    }

    /// What is not in the set.
    pub fn complement(self) -> Result<Set<S>, NoMemory>
        ensures cuts { IsOkAnd result (λ set. cuts_of set ≡ cuts_of self) }
        ensures members { IfOk result (λ set. (v : S.Version) → in_spans S.order set v ≡ not (in_spans S.order self v)) }
        ensures at { IfOk result (λ set. AtEachPlace S.order (λ below. spans_at below set ≡ not (spans_at below self))) }
    {
        let Set { starts, cuts } = self;
        Ok(Set {
            starts: !starts,
            cuts,
        })
    }

    /// Whether the version is in the set. It takes no memory.
    pub fn contains(&self, version: &S::Version) -> bool
        ensures within { result ≡ in_spans S.order self.now version.now }
        ensures in_order { IsInOrder S.order self.now }
    {
        let mut inside = self.starts;
        for cut in self.cuts.as_slice() {
            if !is_below::<S>(cut, version) {
                return inside;
            }
            inside = !inside;
        }
        inside
    }

    /// Whether there is no span. It takes no memory.
    pub fn is_none(&self) -> bool
        ensures none { IsTrue result ↔ (self.now ≡ []) }
        ensures in_order { IsInOrder S.order self.now }
    {
        !self.starts && self.cuts.is_empty()
    }

    /// The spans, in order and apart.
    pub fn into_spans(self) -> Result<Spans<S::Version>, NoMemory>
        ensures spans { IfOk result (λ spans. spans ≡ self) }
        ensures in_order { IfOk result (λ spans. IsInOrder S.order spans) }
    {
        let Set { starts, cuts } = self;
        let spans = spans_between(starts, cuts)?;
        Ok(spans)
    }

    /// The set of the pieces that are in: that below the first cut where `starts_in` says so, and
    /// each cut changes in to out or out to in. It takes no memory.
    pub fn from_cuts(starts_in: bool, cuts: Cuts<S::Version>) -> Set<S>
        requires { IsAscending (cut_cmp S.order) cuts }
        ensures spans { result ≡ spans_of starts_in cuts }
        ensures starts { starts_of result ≡ starts_in }
        ensures cuts { cuts_of result ≡ cuts }
        ensures at { AtEachPlace S.order (λ below. spans_at below result ≡ is_in below starts_in cuts) }
    {
        Set {
            starts: starts_in,
            cuts,
        }
    }

    /// Whether the piece below the first cut is in. It takes no memory.
    pub fn starts_in(&self) -> bool
        ensures starts { result ≡ starts_of self.now }
        ensures in_order { IsInOrder S.order self.now }
    {
        self.starts
    }

    /// The cuts, in order. It takes no memory.
    pub fn into_cuts(self) -> Cuts<S::Version>
        ensures cuts { result ≡ cuts_of self }
        ensures rising { IsAscending (cut_cmp S.order) result }
        ensures apart { IsInOrder S.order self }
    {
        let Set { starts: _, cuts } = self;
        cuts
    }

    /// What is in both sets, or in one of them.
    pub(crate) fn join(self, both: bool, other: Set<S>) -> Result<Set<S>, NoMemory>
        ensures members { IfOk result (λ set.
            (v : S.Version) → in_spans S.order set v ≡ join_by both (in_spans S.order self v) (in_spans S.order other v)) }
        ensures at { IfOk result (λ set.
            AtEachPlace S.order (λ below. spans_at below set ≡ join_by both (spans_at below self) (spans_at below other))) }
        ensures kept { IfOk result (λ set.
            All (IsFirstKept (cut_cmp S.order) (cuts_of self) (cuts_of other)) (cuts_of set)) }
    {
        let Set { starts: p, cuts: a } = self;
        let Set { starts: q, cuts: b } = other;
        let alloc = a.alloc();
        let cuts = merge_versions::<S, Brand>(Blank::new(1), alloc, both, p, a, q, b)?;
        let starts = join_values(both, p, q);
        Ok(Set { starts, cuts })
    }
}

fn is_below<S: Scheme>(cut: &Cut<S::Version>, version: &S::Version) -> bool
    ensures { result ≡ cut_below S.order cut.now version.now }
{
    match S::compare(&cut.version, version) {
        Ordering::Less => true,
        Ordering::Equal => !cut.after,
        Ordering::Greater => false,
    }
}

/// The spans between cuts, where `starts` says that one is open below the first.
fn spans_between<V: Drop>(starts: bool, cuts: Cuts<V>) -> Result<Spans<V>, NoMemory>
    ensures { IfOk result (λ spans. spans ≡ spans_of starts cuts) }
{
    let room = cuts.len() / 2 + if starts { 1 } else { cuts.len() % 2 };
    let mut spans = Spans::with_room(cuts.alloc(), room)?;
    let mut inside = starts;
    let mut lower = None;
    for cut in cuts.into_vec() {
        lower = pass_cut(&mut spans, inside, lower, cut)?;
        inside = !inside;
    }
    if inside {
        spans.push(Span { lower, upper: None })?;
    }
    Ok(spans)
}

/// Closes the span that is open, or opens one. The answer is the lower cut of what is open then.
fn pass_cut<V: Drop>(
    spans: &mut Spans<V>,
    inside: bool,
    lower: Option<Cut<V>>,
    cut: Cut<V>,
) -> Result<Option<Cut<V>>, NoMemory>
    ensures { IfOk result (λ next. (rest : List (Cut V)) →
        spans.new ++ spans_from (not inside) next rest ≡ spans.old ++ spans_from inside lower (cut ∷ rest)) }
{
    if inside {
        spans.push(Span {
            lower,
            upper: Some(cut),
        })?;
        Ok(None)
    } else {
        Ok(Some(cut))
    }
}
