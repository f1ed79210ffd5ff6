ghost use Rattle.std.specs.Prelude.{◌≡◌, ◌↔◌, ◌≤◌, ◌++◌, ◌∷◌, List, [], Err, IfOk, OnOk, length};
ghost use Rattle.std.specs.Option.{ForSome};
ghost use Rattle.vx_spec.specs.Ascending.{IsAscending};
ghost use Rattle.vx_scheme.specs.declared.span.Cut.{Cut};
ghost use Rattle.vx_scheme.specs.Cuts.{cut_cmp, cuts_of, cut_list, in_spans};
ghost use Rattle.vx_vers.specs.Meaning.{meaning};
ghost use Rattle.vx_vers.specs.Sorted.{IsSorted, IsAboveLast};
ghost use Rattle.vx_simplify.specs.Listed.{bound, exact, with, is_class, listed, list_of};
ghost use Rattle.vx_simplify.specs.declared.listing.FromSet.TheVariants as fault_of;

use std::alloc::Global;
use std::cmp::Ordering;
use vx_interval::{Cuts, Set};
use vx_scheme::{Cut, NoMemory, Scheme};
use vx_vers::{Comparator, Constraint, Constraints};

/// Why a set has no list.
#[derive(Debug, Clone, Copy, PartialEq, Eq)]
pub enum FromSet {
    /// The set has no span.
    Empty,
    /// No memory was found.
    NoMemory,
}

impl From<NoMemory> for FromSet {
    ghost use Rattle.std.specs.Prelude.{◌≡◌};
    ghost use Rattle.vx_simplify.specs.declared.listing.FromSet.TheVariants as fault_of;

    ghost from_gives = { λ _ fault. fault ≡ fault_of.NoMemory };

    fn from(_error: NoMemory) -> Self {
        FromSet::NoMemory
    }
}

/// The list of constraints that means the set. `Empty` comes exactly where the set has no span.
pub fn from_set<S: Scheme>(alloc: Global, set: Set<S>) -> Result<Constraints<S>, FromSet>
    ensures ok { IfOk result (λ list. list ≡ list_of S.order set) }
    ensures empty { (result ≡ Err fault_of.Empty) ↔ (set ≡ []) }
    ensures members { IfOk result (λ list. (v : S.Version) → meaning S.order v list ≡ in_spans S.order set v) }
    ensures sorted { IfOk result (λ list. IsSorted S.order list) }
    ensures short { IfOk result (λ list. length list ≤ length (cuts_of set)) }
{
    if set.is_none() {
        return Err(FromSet::Empty);
    }
    let starts = set.starts_in();
    let cuts = set.into_cuts();
    let list = list_cuts::<S>(alloc, starts, cuts)?;
    Ok(list)
}

/// A walk over cuts: whether the piece is in that lies below the cut that waits, or below the next one where none
/// waits. A cut waits until the next one shows whether the two stand for one order class.
#[derive(Drop)]
struct Walk<V> {
    inside: bool,
    waiting: Option<Cut<V>>,
}

/// The list of cuts, where `starts` says whether the piece below the first is in.
fn list_cuts<S: Scheme>(
    alloc: Global,
    starts: bool,
    cuts: Cuts<S::Version>,
) -> Result<Constraints<S>, NoMemory>
    requires { IsAscending (cut_cmp S.order) cuts }
    ensures { IfOk result (λ list. list ≡ listed S.order starts cuts) }
{
    let mut list = Constraints::with_room(alloc, cuts.len())?;
    let mut walk = Walk {
        inside: starts,
        waiting: None,
    };
    for cut in cuts.into_vec() {
        walk = pass_cut(&mut list, walk, cut)?;
    }
    end_walk(&mut list, walk)?;
    Ok(list)
}

/// Writes the cut that waits, alone or with the next one.
fn pass_cut<S: Scheme>(
    list: &mut Constraints<S>,
    walk: Walk<S::Version>,
    cut: Cut<S::Version>,
) -> Result<Walk<S::Version>, NoMemory>
    requires { ForSome walk.waiting (λ c. IsAboveLast S.order list.old c.version) }
    ensures { IfOk result (λ next. (rest : List (Cut S.Version)) →
        list.new ++ listed S.order next.inside (cut_list next.waiting ++ rest)
        ≡ list.old ++ listed S.order walk.inside (cut_list walk.waiting ++ cut ∷ rest)) }
{
    let Walk { inside, waiting } = walk;
    let Some(lower) = waiting else {
        return Ok(Walk {
            inside,
            waiting: Some(cut),
        });
    };
    if is_one_class::<S>(&lower, &cut) {
        list.push(constraint_of(exact_of(inside), lower))?;
        Ok(Walk {
            inside,
            waiting: None,
        })
    } else {
        list.push(constraint_of(bound_of(inside, lower.after), lower))?;
        Ok(Walk {
            inside: !inside,
            waiting: Some(cut),
        })
    }
}

/// Writes the cut that waits, if there is one.
fn end_walk<S: Scheme>(list: &mut Constraints<S>, walk: Walk<S::Version>) -> Result<(), NoMemory>
    requires { ForSome walk.waiting (λ c. IsAboveLast S.order list.old c.version) }
    ensures { OnOk result (list.new ≡ list.old ++ listed S.order walk.inside (cut_list walk.waiting)) }
{
    let Walk { inside, waiting } = walk;
    match waiting {
        None => Ok(()),
        Some(cut) => list.push(constraint_of(bound_of(inside, cut.after), cut)),
    }
}

/// A comparator with the version of a cut.
fn constraint_of<V: Drop>(comparator: Comparator, cut: Cut<V>) -> Constraint<V>
    ensures { result ≡ with comparator cut }
{
    Constraint {
        comparator,
        version: cut.version,
    }
}

fn is_one_class<S: Scheme>(lower: &Cut<S::Version>, upper: &Cut<S::Version>) -> bool
    ensures { result ≡ is_class S.order lower.now upper.now }
{
    !lower.after
        && upper.after
        && matches!(S::compare(&lower.version, &upper.version), Ordering::Equal)
}

fn bound_of(inside: bool, after: bool) -> Comparator
    ensures { result ≡ bound inside after }
{
    match (inside, after) {
        (false, false) => Comparator::GreaterEqual,
        (false, true) => Comparator::Greater,
        (true, false) => Comparator::Less,
        (true, true) => Comparator::LessEqual,
    }
}

fn exact_of(inside: bool) -> Comparator
    ensures { result ≡ exact inside }
{
    if inside {
        Comparator::NotEqual
    } else {
        Comparator::Equal
    }
}
