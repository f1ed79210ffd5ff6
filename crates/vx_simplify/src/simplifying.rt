ghost use Rattle.std.specs.Prelude.{◌≡◌, ◌≤◌, ◌<◌, true, IfOk, length, take};
ghost use Rattle.std.specs.List.{swap};
ghost use Rattle.vx_vers.specs.Meaning.{kind, kind_of_comparator, meaning};
ghost use Rattle.vx_vers.specs.Sorted.{IsSorted};
ghost use Rattle.vx_vers.specs.Validity.{is_valid};
ghost use Rattle.vx_simplify.specs.Simplified.{is_dropped, simplified, IsSubList};

use crate::closing::{closes_at_first, closes_behind};
use crate::copying::copy_of;
use std::alloc::Global;
use vx_scheme::{List, NoMemory, Scheme};
use vx_vers::{Comparator, Constraint, Constraints};

/// The list without the constraints that others make superfluous: a `>` or `>=` behind another one, a `<` or `<=` in
/// front of another one, and an `=` inside a range. It means the same. It copies the list first;
/// `into_simple` takes no memory.
pub fn simplify<S: Scheme>(alloc: Global, list: &Constraints<S>) -> Result<Constraints<S>, NoMemory>
    ensures ok { IfOk result (λ kept. kept ≡ simplified kind list.now) }
    ensures sub_list { IfOk result (λ kept. IsSubList kept list.now) }
    ensures valid { IfOk result (λ kept. is_valid kind kept ≡ true) }
    ensures members { IfOk result (λ kept. (v : S.Version) → meaning S.order v kept ≡ meaning S.order v list.now) }
    ensures once { IfOk result (λ kept. simplified kind kept ≡ kept) }
    ensures sorted { IfOk result (λ kept. IsSorted S.order kept) }
{
    let copied = copy_of::<S>(alloc, list)?;
    Ok(into_simple(copied))
}

/// The list without the constraints that others make superfluous: a `>` or `>=` behind another one, a `<` or `<=` in
/// front of another one, and an `=` inside a range. It means the same. It takes no memory.
pub fn into_simple<S: Scheme>(list: Constraints<S>) -> Constraints<S>
    ensures ok { result ≡ simplified kind list }
    ensures sub_list { IsSubList result list }
    ensures valid { is_valid kind result ≡ true }
    ensures members { (v : S.Version) → meaning S.order v result ≡ meaning S.order v list }
    ensures once { simplified kind result ≡ result }
    ensures sorted { IsSorted S.order result }
{
    let mut items = list.into_list().into_vec();
    let count = move_to_front(items.as_mut_slice());
    items.truncate(count);
    Constraints::from_sorted(List::from_vec(items))
}

/// Moves the constraints that stay to the front, and says how many there are.
fn move_to_front<V>(items: &mut [Constraint<V>]) -> usize
    ensures { take result items.new ≡ simplified kind items.old }
{
    let mut count = 0;
    let mut opens = false;
    let mut closes = closes_at_first(items);
    for i in 0..items.len() {
        let comparator = items[i].comparator;
        closes = closes_behind(items, i, closes);
        if !is_superfluous(opens, comparator, closes) {
            move_down(items, count, i);
            count += 1;
        }
        opens = comparator.opens_after(opens);
    }
    count
}

/// Swaps a constraint with one that stands in front of it, or leaves it at its own place.
fn move_down<V>(items: &mut [Constraint<V>], to: usize, from: usize)
    requires order { to ≤ from }
    requires within { from < length items.old }
    ensures after { items.new ≡ swap items.old to from }
    ensures len { length items.new ≡ length items.old }
{
    if to < from {
        items.swap(to, from);
    }
}

/// Whether a constraint is dropped. `opens` says whether the last range constraint before it opens, and `closes`
/// whether the first one behind it closes.
fn is_superfluous(opens: bool, comparator: Comparator, closes: bool) -> bool
    ensures { result ≡ is_dropped opens (kind_of_comparator comparator) closes }
{
    match comparator {
        Comparator::Equal => opens || closes,
        Comparator::NotEqual => false,
        Comparator::Less | Comparator::LessEqual => closes,
        Comparator::Greater | Comparator::GreaterEqual => opens,
    }
}
