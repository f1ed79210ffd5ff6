ghost use Rattle.std.specs.Prelude.{◌≡◌, [], IfOk, IsPermutation, OnOk};
ghost use Rattle.std.specs.List.Sorted.{IsSorted as IsInOrder};
ghost use Rattle.std.specs.Ordering.{is_lt};
ghost use Rattle.vx_vers.specs.Steps.Numbering.{AreTaken, IsSettledAs, constraints_of, least_next, least_twice, lower, numbered_cmp, rises};
ghost use Rattle.vx_vers.specs.Sorted.{IsSorted, version_cmp};

use crate::constraints::{Constraint, Constraints};
use crate::fault::VersFault;
use std::cmp::Ordering;
use vx_scheme::{List, NoMemory, Scheme};

/// A constraint with its number in the text, from 1.
#[derive(Debug, Drop)]
pub(crate) struct Numbered<V> {
    pub(crate) number: u64,
    pub(crate) constraint: Constraint<V>,
}

/// Sorts constraints into a list. `Duplicate` names the first whose version is order-equal to that of an earlier one.
/// Constraints that are in order already take no memory.
pub(crate) fn settle<S: Scheme>(
    list: List<Constraint<S::Version>>,
) -> Result<Constraints<S>, VersFault>
    ensures { IsSettledAs S.order list result }
{
    if is_rising::<S>(list.as_slice()) {
        Ok(Constraints::from_sorted(list))
    } else {
        settle_unsorted::<S>(list)
    }
}

/// Whether each constraint is below the next one.
fn is_rising<S: Scheme>(list: &[Constraint<S::Version>]) -> bool
    ensures { result ≡ rises S.order list.now }
{
    let [first, rest @ ..] = list else {
        return true;
    };
    let mut before = first;
    for constraint in rest {
        if !is_below::<S>(before, constraint) {
            return false;
        }
        before = constraint;
    }
    true
}

fn is_below<S: Scheme>(a: &Constraint<S::Version>, b: &Constraint<S::Version>) -> bool
    ensures { result ≡ is_lt (version_cmp S.order a.now b.now) }
{
    matches!(S::compare(&a.version, &b.version), Ordering::Less)
}

/// Sorts constraints into a list, in the room that they have.
fn settle_unsorted<S: Scheme>(
    list: List<Constraint<S::Version>>,
) -> Result<Constraints<S>, VersFault>
    ensures { IsSettledAs S.order list result }
{
    let mut room = list;
    let numbered = take_all(&mut room)?;
    let sorted = sort_numbered::<S>(numbered.into_vec());
    match first_twice::<S>(sorted.as_slice()) {
        Some(number) => Err(VersFault::Duplicate(number)),
        None => Ok(put_back::<S>(room, sorted)?),
    }
}

/// Takes the constraints off, from the last one to the first, and numbers them by their places.
fn take_all<V: Drop>(list: &mut List<Constraint<V>>) -> Result<List<Numbered<V>>, NoMemory>
    ensures taken { IfOk result (λ items. AreTaken list.old [] items) }
    ensures empty { OnOk result (list.new ≡ []) }
{
    let mut items = List::with_room(list.alloc(), list.len())?;
    'items: loop {
        let number = list.len() as u64;
        let Some(constraint) = list.pop() else {
            return Ok(items);
        };
        items.push(Numbered { number, constraint })?;
    }
}

/// The constraints by version, and order-equal ones by number. It takes no memory.
fn sort_numbered<S: Scheme>(mut items: Vec<Numbered<S::Version>>) -> Vec<Numbered<S::Version>>
    ensures same { IsPermutation items.items result.items }
    ensures sorted { IsInOrder (numbered_cmp S.order) result.items }
{
    items.sort_unstable_by(|a, b| compare_numbered::<S>(a, b));
    items
}

fn compare_numbered<S: Scheme>(a: &Numbered<S::Version>, b: &Numbered<S::Version>) -> Ordering
    ensures { result ≡ numbered_cmp S.order a.now b.now }
{
    match S::compare(&a.constraint.version, &b.constraint.version) {
        Ordering::Less => Ordering::Less,
        Ordering::Equal => a.number.cmp(&b.number),
        Ordering::Greater => Ordering::Greater,
    }
}

/// The least number of a constraint that is order-equal to the one before it. It takes no memory.
fn first_twice<S: Scheme>(items: &[Numbered<S::Version>]) -> Option<u64>
    ensures { result ≡ least_twice S.order items.now }
{
    let [first, rest @ ..] = items else {
        return None;
    };
    let mut before = first;
    let mut least = None;
    for item in rest {
        least = with_next::<S>(before, item, least);
        before = item;
    }
    least
}

fn with_next<S: Scheme>(
    before: &Numbered<S::Version>,
    item: &Numbered<S::Version>,
    least: Option<u64>,
) -> Option<u64>
    ensures { result ≡ least_next S.order before.now item.now least }
{
    match S::compare(&before.constraint.version, &item.constraint.version) {
        Ordering::Equal => Some(lower(least, item.number)),
        _ => least,
    }
}

fn lower(least: Option<u64>, number: u64) -> u64
    ensures { result ≡ lower least number }
{
    match least {
        Some(so_far) => { if so_far < number { so_far } else { number } }
        None => number,
    }
}

/// The list of constraints that are sorted, put into an empty list that may have room for them.
fn put_back<S: Scheme>(
    room: List<Constraint<S::Version>>,
    sorted: Vec<Numbered<S::Version>>,
) -> Result<Constraints<S>, NoMemory>
    requires empty { room ≡ [] }
    requires sorted { IsSorted S.order (constraints_of sorted.items) }
    ensures { IfOk result (λ list. list ≡ constraints_of sorted.items) }
{
    let mut list = room;
    for item in sorted {
        list.push(item.constraint)?;
    }
    Ok(Constraints::from_sorted(list))
}
