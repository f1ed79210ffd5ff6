ghost use Rattle.std.specs.Prelude.{◌≡◌, ◌≢◌, ◌++◌, ◌||◌, [], true, false, IfOk, OnOk};
ghost use Rattle.vx_scheme.specs.Cuts.{in_spans};
ghost use Rattle.vx_line.specs.Line.{emit};
ghost use Rattle.vx_vers.specs.Meaning.{kind, meaning};
ghost use Rattle.vx_vers.specs.Validity.{is_valid};
ghost use Rattle.vx_simplify.specs.Edges.{cut_at, edges_at, all_holes, starts_in, edges_of, spans_of_list};

use crate::closing::closes_at_first;
use crate::copying::copy_of;
use std::alloc::Global;
use vx_interval::{Cuts, Set};
use vx_scheme::{Cut, NoMemory, Scheme};
use vx_vers::{Comparator, Constraint, Constraints};

/// The set of what a valid list means. Each cut carries the version of the constraint that makes it, and as its mark
/// that constraint's number, from 1. It copies the list first; `into_set` moves its versions.
pub fn to_set<S: Scheme>(alloc: Global, list: &Constraints<S>) -> Result<Set<S>, NoMemory>
    requires valid { is_valid kind list.now ≡ true }
    ensures spans { IfOk result (λ set. set ≡ spans_of_list list.now) }
    ensures some { IfOk result (λ set. set ≢ []) }
    ensures members { IfOk result (λ set. (v : S.Version) → in_spans S.order set v ≡ meaning S.order v list.now) }
{
    let copied = copy_of::<S>(alloc, list)?;
    into_set(copied)
}

/// The set of what a valid list means, as `to_set` makes it. Versions are moved, and one is copied only where it makes
/// two cuts. It takes the memory of its cuts.
pub fn into_set<S: Scheme>(list: Constraints<S>) -> Result<Set<S>, NoMemory>
    requires valid { is_valid kind list ≡ true }
    ensures spans { IfOk result (λ set. set ≡ spans_of_list list) }
    ensures some { IfOk result (λ set. set ≢ []) }
    ensures members { IfOk result (λ set. (v : S.Version) → in_spans S.order set v ≡ meaning S.order v list) }
{
    let constraints = list.as_slice();
    let holes = has_only_holes(constraints);
    let starts = is_in(holes, false, closes_at_first(constraints));
    let cuts = into_edges::<S>(list, holes, starts)?;
    Ok(Set::from_cuts(starts, cuts))
}

/// Whether there is nothing but `!=`.
fn has_only_holes<V>(list: &[Constraint<V>]) -> bool
    ensures { result ≡ all_holes list.now }
{
    for constraint in list {
        if !constraint.comparator.is_not_equal() {
            return false;
        }
    }
    true
}

/// Whether a piece is in. `opens` says whether the last cut in front of it opens, and `closes` whether the first one
/// behind it closes.
fn is_in(holes: bool, opens: bool, closes: bool) -> bool
    ensures { result ≡ ((opens || closes) || holes) }
{
    opens || closes || holes
}

/// The cuts at which the meaning of a valid list changes. `holes` says whether it has nothing but `!=`, and `starts`
/// whether the piece below its constraints is in. Since the list is valid, the piece behind a constraint is told by the
/// constraint and the piece in front of it.
fn into_edges<S: Scheme>(
    list: Constraints<S>,
    holes: bool,
    starts: bool,
) -> Result<Cuts<S::Version>, NoMemory>
    requires valid { is_valid kind list ≡ true }
    requires holes { holes ≡ all_holes list }
    requires starts { starts ≡ starts_in list }
    ensures { IfOk result (λ cuts. cuts ≡ edges_of list) }
{
    let alloc = list.alloc();
    let mut cuts = Cuts::with_room(alloc, most_edges(list.as_slice()))?;
    let mut inside = starts;
    let mut number = 0;
    for constraint in list.into_list().into_vec() {
        number += 1;
        let next = constraint.comparator.opens_after(inside);
        push_edges::<S>(alloc, &mut cuts, inside, next, number, constraint)?;
        inside = next;
    }
    Ok(cuts)
}

/// How many cuts there are at most: two at each `=` and `!=`.
fn most_edges<V>(list: &[Constraint<V>]) -> usize {
    let ranges = list
        .iter()
        .filter(|constraint| is_range(constraint.comparator))
        .count();
    list.len().saturating_mul(2).saturating_sub(ranges)
}

fn is_range(comparator: Comparator) -> bool {
    !matches!(comparator, Comparator::Equal | Comparator::NotEqual)
}

/// Appends the cuts of one constraint. `inside` says whether the piece in front of it is in, and `next` the piece
/// behind it.
fn push_edges<S: Scheme>(
    alloc: Global,
    cuts: &mut Cuts<S::Version>,
    inside: bool,
    next: bool,
    number: u64,
    constraint: Constraint<S::Version>,
) -> Result<(), NoMemory>
    ensures { OnOk result (cuts.new ≡ cuts.old ++ edges_at (kind constraint) inside next number constraint []) }
{
    match constraint.comparator {
        Comparator::Equal => push_two::<S>(alloc, cuts, inside, true, next, number, constraint),
        Comparator::NotEqual => push_two::<S>(alloc, cuts, inside, false, next, number, constraint),
        Comparator::Less | Comparator::GreaterEqual => {
            push_edge(cuts, inside, next, number, false, constraint)
        }
        Comparator::LessEqual | Comparator::Greater => {
            push_edge(cuts, inside, next, number, true, constraint)
        }
    }
}

/// Appends the cuts before and after the version of a constraint. `at` says whether the version is in. Only two cuts
/// want a copy of the version.
fn push_two<S: Scheme>(
    alloc: Global,
    cuts: &mut Cuts<S::Version>,
    inside: bool,
    at: bool,
    next: bool,
    number: u64,
    constraint: Constraint<S::Version>,
) -> Result<(), NoMemory>
    ensures { OnOk result (cuts.new ≡ cuts.old ++
        emit inside at (cut_at number false constraint) (emit at next (cut_at number true constraint) [])) }
{
    if inside == at {
        return push_edge(cuts, at, next, number, true, constraint);
    }
    if at == next {
        return push_edge(cuts, inside, at, number, false, constraint);
    }
    let version = S::copy(alloc, &constraint.version)?;
    cuts.push(Cut {
        version,
        after: false,
        mark: number,
    })?;
    push_edge(cuts, at, next, number, true, constraint)
}

/// Appends the cut before or after the version of a constraint, where the meaning changes there.
fn push_edge<V: Drop>(
    cuts: &mut Cuts<V>,
    below: bool,
    above: bool,
    number: u64,
    after: bool,
    constraint: Constraint<V>,
) -> Result<(), NoMemory>
    ensures { OnOk result (cuts.new ≡ cuts.old ++ emit below above (cut_at number after constraint) []) }
{
    if below == above {
        return Ok(());
    }
    cuts.push(Cut {
        version: constraint.version,
        after,
        mark: number,
    })
}
