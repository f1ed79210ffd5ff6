ghost use Rattle.std.specs.Prelude.{◌≡◌, ◌<◌, ◌≤◌, ◌+◌, ◌++◌, ◌∷◌, [], Bool, length, IfOk, OnOk, MatchOption};
ghost use Rattle.vx_spec.specs.Ascending.{IsAscending};
ghost use Rattle.vx_scheme.specs.Cuts.{cut_cmp};
ghost use Rattle.vx_line.specs.Line.{emit, join_by, IsMerged};
ghost use Rattle.vx_line.specs.Steps.Merges.{merge_by, turn_of, turned};

use crate::compares::{Compares, Counted, compare_cuts};
use crate::counter::Steps;
use std::alloc::Global;
use std::cmp::Ordering;
use std::collections::VecDeque;
use std::sync::ledger::{Blank, Ledger};
use vx_scheme::{Cut, List, NoMemory, Scheme};

/// A list of cuts.
pub type Cuts<V> = List<Cut<V>>;

/// What is in both of two, or in one of them.
pub(crate) fn join_values(both: bool, first: bool, second: bool) -> bool
    ensures { result ≡ join_by both first second }
{
    if both {
        first && second
    } else {
        first || second
    }
}

fn flip(turns: bool, b: bool) -> bool
    ensures { result ≡ turned turns b }
{
    if turns { !b } else { b }
}

/// Appends the cut where the answer changes at it.
pub(crate) fn push_change<V: Drop>(
    out: &mut Cuts<V>,
    before: bool,
    after: bool,
    cut: Cut<V>,
) -> Result<(), NoMemory>
    ensures { OnOk result (out.new ≡ out.old ++ emit before after cut []) }
{
    if before != after {
        out.push(cut)
    } else {
        Ok(())
    }
}

/// Which queue the next cut is taken of: the first by `Less`, both by `Equal`, the second by
/// `Greater`.
fn turn<C: Compares<L>, L: Ledger>(
    xs: &VecDeque<Cut<C::Item>>,
    ys: &VecDeque<Cut<C::Item>>,
    steps: &mut Steps<L>,
) -> Option<Ordering>
    ensures value { result ≡ turn_of (cut_cmp C.order) xs.now.items ys.now.items }
    ensures cost { MatchOption result (steps.new ≡ steps.old) (λ _. steps.new ≤ steps.old + 1) }
{
    match (xs.front(), ys.front()) {
        (None, None) => None,
        (Some(_), None) => Some(Ordering::Less),
        (None, Some(_)) => Some(Ordering::Greater),
        (Some(x), Some(y)) => Some(compare_cuts::<C, L>(x, y, steps)),
    }
}

/// Takes the first item off a queue that has one.
pub(crate) fn take_first<T>(queue: &mut VecDeque<T>) -> T
    requires { 0 < length queue.old.items }
    ensures { queue.old.items ≡ result ∷ queue.new.items }
{
    match queue.pop_front() {
        Some(item) => item,
        None => unreachable!(),
    }
}

/// A cut that was taken of one queue, or of both.
#[derive(Drop)]
struct Taken<V> {
    cut: Cut<V>,
    of_first: bool,
    of_second: bool,
}

/// Takes the lowest cut off the queues; of two order-equal ones the first queue's.
fn take<C: Compares<L>, L: Ledger>(
    xs: &mut VecDeque<Cut<C::Item>>,
    ys: &mut VecDeque<Cut<C::Item>>,
    steps: &mut Steps<L>,
) -> Option<Taken<C::Item>>
    ensures whole { (op : Bool → Bool → Bool) (p q : Bool) → MatchOption result
        (merge_by (cut_cmp C.order) op p xs.old.items q ys.old.items ≡ [])
        (λ t. merge_by (cut_cmp C.order) op p xs.old.items q ys.old.items ≡
        emit (op p q) (op (turned t.of_first p) (turned t.of_second q)) t.cut
        (merge_by (cut_cmp C.order) op (turned t.of_first p) xs.new.items (turned t.of_second q) ys.new.items)) }
    ensures fewer { MatchOption result (steps.new ≡ steps.old) (λ _.
        length xs.new.items + length ys.new.items < length xs.old.items + length ys.old.items) }
    ensures bound { MatchOption result (steps.new ≡ steps.old) (λ _.
        steps.new + (length xs.new.items + length ys.new.items) ≤
        steps.old + (length xs.old.items + length ys.old.items)) }
{
    match turn::<C, L>(xs, ys, steps)? {
        Ordering::Less => Some(Taken {
            cut: take_first(xs),
            of_first: true,
            of_second: false,
        }),
        Ordering::Equal => {
            let cut = take_first(xs);
            let _same = take_first(ys);
            Some(Taken {
                cut,
                of_first: true,
                of_second: true,
            })
        }
        Ordering::Greater => Some(Taken {
            cut: take_first(ys),
            of_first: false,
            of_second: true,
        }),
    }
}

/// The cuts at which "in one of the two lists" changes, or "in both", in one pass. The piece
/// below the first cut of `a` is in `a` where `a_starts` says so, and each cut of `a` changes in
/// to out or out to in; so for `b`. Of two order-equal cuts the one of `a` is kept. It takes one
/// step a cut at most; and no more where it is refused, as it is for want of memory alone.
pub fn merge<C: Compares<L>, L: Ledger>(
    alloc: Global,
    both: bool,
    a_starts: bool,
    a: Cuts<C::Item>,
    b_starts: bool,
    b: Cuts<C::Item>,
    steps: &mut Steps<L>,
) -> Result<Cuts<C::Item>, NoMemory>
    requires first { IsAscending (cut_cmp C.order) a }
    requires second { IsAscending (cut_cmp C.order) b }
    ensures cuts { IfOk result (λ cuts. IsMerged (cut_cmp C.order) both a_starts a b_starts b cuts) }
    ensures cost { steps.new ≤ steps.old + (length a + length b) }
{
    let mut cuts = Cuts::with_room(alloc, a.len().saturating_add(b.len()))?;
    let mut xs = VecDeque::from_vec(a.into_vec());
    let mut ys = VecDeque::from_vec(b.into_vec());
    let mut p = a_starts;
    let mut q = b_starts;
    while let Some(taken) = take::<C, L>(&mut xs, &mut ys, steps) {
        let Taken {
            cut,
            of_first,
            of_second,
        } = taken;
        let before = join_values(both, p, q);
        p = flip(of_first, p);
        q = flip(of_second, q);
        push_change(&mut cuts, before, join_values(both, p, q), cut)?;
    }
    Ok(cuts)
}

/// `merge` on the versions of a scheme, with a counter of its own.
pub(crate) fn merge_versions<S: Scheme, L: Ledger>(
    blank: Blank,
    alloc: Global,
    both: bool,
    a_starts: bool,
    a: Cuts<S::Version>,
    b_starts: bool,
    b: Cuts<S::Version>,
) -> Result<Cuts<S::Version>, NoMemory>
    requires name { blank.name ≡ L.name }
    requires parts { blank.parts ≡ L.parts }
    requires some { 0 < blank.parts }
    requires first { IsAscending (cut_cmp S.order) a }
    requires second { IsAscending (cut_cmp S.order) b }
    ensures { IfOk result (λ cuts. IsMerged (cut_cmp S.order) both a_starts a b_starts b cuts) }
{
    let mut steps = Steps::<L>::start(blank);
    let cuts = merge::<Counted<S>, L>(alloc, both, a_starts, a, b_starts, b, &mut steps)?;
    Ok(cuts)
}
