ghost use Rattle.std.specs.Prelude.{◌≡◌, ◌≤◌, ◌<◌, ◌+◌, ◌*◌, length, IfOk};
ghost use Rattle.vx_spec.specs.Ascending.{IsAscending};
ghost use Rattle.vx_scheme.specs.Cuts.{cut_cmp, spans_of, in_spans, in_bounds};
ghost use Rattle.vx_line.specs.Logarithm.{log2_up};
ghost use Rattle.vx_interval.specs.Joined.{made_cuts, IsJoined};

use crate::compares::{Compares, Counted};
use crate::counter::Steps;
use crate::merging::Cuts;
use crate::part::join_changes;
use crate::set::Set;
use std::alloc::Global;
use std::marker::Brand;
use std::sync::ledger::{Blank, Ledger};
use vx_scheme::{Alternative, Bounds, NoMemory, Scheme};

/// What is in, on a line: the piece below the first cut or not, and each cut changes in to out or
/// out to in.
#[derive(Debug, Drop)]
pub struct Joined<V> {
    /// Whether the piece below the first cut is in.
    pub starts_in: bool,
    /// The cuts, in order.
    pub cuts: Cuts<V>,
}

/// The joined spans of bounds: what some alternative holds in each of its terms. Each cut is the
/// one with the least mark among all made cuts that are order-equal to it, and of several with
/// that mark the first, read from left to right, lower before upper. No version is copied. Of n
/// made cuts it takes at most n times 3 · log2 n + 1 steps, where the logarithm is rounded up; and
/// no more where it is refused, as it is for want of memory alone.
pub fn join_bounds<C: Compares<L>, L: Ledger>(
    alloc: Global,
    bounds: Bounds<C::Item>,
    steps: &mut Steps<L>,
) -> Result<Joined<C::Item>, NoMemory>
    ensures joined { IfOk result (λ joined. IsJoined C.order bounds (spans_of joined.starts_in joined.cuts)) }
    ensures rising { IfOk result (λ joined. IsAscending (cut_cmp C.order) joined.cuts) }
    ensures cost { steps.new ≤ steps.old +
        length (made_cuts bounds) * (3 * log2_up (length (made_cuts bounds)) + 1) }
{
    let joined = join_changes::<Alternative<C::Item>, C, L>(alloc, false, bounds, steps)?;
    Ok(joined)
}

/// `join_bounds` on the versions of a scheme, with a counter of its own.
fn join_versions<S: Scheme, L: Ledger>(
    blank: Blank,
    alloc: Global,
    bounds: Bounds<S::Version>,
) -> Result<Joined<S::Version>, NoMemory>
    requires name { blank.name ≡ L.name }
    requires parts { blank.parts ≡ L.parts }
    requires some { 0 < blank.parts }
    ensures joined { IfOk result (λ joined. IsJoined S.order bounds (spans_of joined.starts_in joined.cuts)) }
    ensures rising { IfOk result (λ joined. IsAscending (cut_cmp S.order) joined.cuts) }
{
    let mut steps = Steps::<L>::start(blank);
    let joined = join_bounds::<Counted<S>, L>(alloc, bounds, &mut steps)?;
    Ok(joined)
}

impl<S: Scheme> Set<S> {
    /// The joined spans of bounds: what some alternative holds in each of its terms. Each cut
    /// carries the version with the least mark among all made cuts that are order-equal to it,
    /// and of several with that mark the first, read from left to right, lower before upper. No
    /// version is copied, and the comparisons are those of `join_bounds`.
    pub fn from_bounds(alloc: Global, bounds: Bounds<S::Version>) -> Result<Set<S>, NoMemory>
        ensures joined { IfOk result (λ set. IsJoined S.order bounds set) }
        ensures members { IfOk result (λ set. (v : S.Version) → in_spans S.order set v ≡ in_bounds S.order bounds v) }
    {
        let joined = join_versions::<S, Brand>(Blank::new(1), alloc, bounds)?;
        Ok(Set::from_cuts(joined.starts_in, joined.cuts))
    }
}
