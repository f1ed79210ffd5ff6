//! Every list of constraints on a few versions, and the rules in plain slow words that the calls are tried against.

ghost use Rattle.std.specs.Prelude.{IsTrue};
ghost use Rattle.vx_vers.specs.Sorted.{IsAboveLast};

use crate::{Level, Levels};
use std::alloc::Global;
use std::cmp::Ordering;
use vx_scheme::{NoMemory, Scheme};
use vx_vers::{Comparator, Constraint, Constraints};

/// The comparators on the versions 1, 3, 5, 7 and 9, or none on one that has no constraint.
pub(crate) type Places = [Option<Comparator>; 5];

/// How many lists there are.
pub(crate) const LISTS: u32 = 16807;

fn comparator_of(digit: u32) -> Option<Comparator> {
    match digit {
        1 => Some(Comparator::Equal),
        2 => Some(Comparator::NotEqual),
        3 => Some(Comparator::Less),
        4 => Some(Comparator::LessEqual),
        5 => Some(Comparator::Greater),
        6 => Some(Comparator::GreaterEqual),
        _ => None,
    }
}

/// The list with this number, whose digits to the base 7 are the comparators.
pub(crate) fn places_of(number: u32) -> Places {
    let mut places = [None; 5];
    let mut left = number;
    for i in 0..5 {
        places[i] = comparator_of(left % 7);
        left /= 7;
    }
    places
}

pub(crate) fn list_of(alloc: Global, places: &Places) -> Result<Constraints<Levels>, NoMemory> {
    let mut list = Constraints::new(alloc);
    for (i, place) in places.iter().enumerate() {
        if let Some(comparator) = *place {
            let version = Level {
                level: 2 * i as u8 + 1,
                tag: 0,
            };
            push_above(
                &mut list,
                Constraint {
                    comparator,
                    version,
                },
            )?;
        }
    }
    Ok(list)
}

/// Appends the constraint where it is above the last one.
fn push_above<S: Scheme>(
    list: &mut Constraints<S>,
    constraint: Constraint<S::Version>,
) -> Result<(), NoMemory> {
    if is_above_last::<S>(list.as_slice(), &constraint.version) {
        list.push(constraint)?;
    }
    Ok(())
}

fn is_above_last<S: Scheme>(list: &[Constraint<S::Version>], version: &S::Version) -> bool
    ensures { IsTrue result → IsAboveLast S.order list.now version.now }
{
    match list {
        [] => true,
        [.., last] => matches!(S::compare(&last.version, version), Ordering::Less),
    }
}

/// The places of a list that was made of some of them.
pub(crate) fn places_in(list: &Constraints<Levels>) -> Places {
    let mut places = [None; 5];
    for constraint in list.as_slice() {
        let place = (constraint.version.level / 2) as usize;
        if place < 5 {
            places[place] = Some(constraint.comparator);
        }
    }
    places
}

/// The last comparator that is no `!=` among the places.
fn last_of(places: &[Option<Comparator>]) -> Option<Comparator> {
    let mut last = None;
    for place in places {
        match *place {
            None | Some(Comparator::NotEqual) => {}
            found => last = found,
        }
    }
    last
}

/// The first comparator that is no `!=` among the places.
fn first_of(places: &[Option<Comparator>]) -> Option<Comparator> {
    for place in places {
        match *place {
            None | Some(Comparator::NotEqual) => {}
            found => return found,
        }
    }
    None
}

fn is_greater(place: Option<Comparator>) -> bool {
    matches!(place, Some(Comparator::Greater | Comparator::GreaterEqual))
}

fn is_lesser(place: Option<Comparator>) -> bool {
    matches!(place, Some(Comparator::Less | Comparator::LessEqual))
}

/// A `=`, `>` or `>=` that directly follows a `>` or `>=` is discarded; a `=`, `<` or `<=` that directly precedes a
/// `<` or `<=` is discarded.
fn is_discarded(
    before: Option<Comparator>,
    place: Option<Comparator>,
    behind: Option<Comparator>,
) -> bool {
    match place {
        None | Some(Comparator::NotEqual) => false,
        Some(Comparator::Equal) => is_greater(before) || is_lesser(behind),
        Some(Comparator::Greater | Comparator::GreaterEqual) => is_greater(before),
        Some(Comparator::Less | Comparator::LessEqual) => is_lesser(behind),
    }
}

/// Discards the first one that is to be discarded, if any.
fn discard_one(places: &mut Places) {
    for i in 0..5 {
        let before = last_of(&places[..i]);
        let behind = first_of(&places[i + 1..]);
        if is_discarded(before, places[i], behind) {
            places[i] = None;
            return;
        }
    }
}

/// Discards until nothing changes.
pub(crate) fn discard_all(places: &mut Places) {
    for _ in 0..5 {
        discard_one(places);
    }
}

/// Where the cut of a constraint stands, before a version at twice its number or behind it, and whether it opens.
fn cut_of(place: Option<Comparator>, version: u8) -> Option<(u16, bool)> {
    let at = 2 * version as u16;
    match place? {
        Comparator::Equal | Comparator::NotEqual => None,
        Comparator::Less => Some((at, false)),
        Comparator::LessEqual => Some((at + 1, false)),
        Comparator::Greater => Some((at + 1, true)),
        Comparator::GreaterEqual => Some((at, true)),
    }
}

fn last_below_opens(places: &Places, version: u8) -> bool {
    let mut opens = false;
    for (i, place) in places.iter().enumerate() {
        if let Some((at, cut_opens)) = cut_of(*place, 2 * i as u8 + 1) {
            if at <= 2 * version as u16 {
                opens = cut_opens;
            }
        }
    }
    opens
}

fn first_above_closes(places: &Places, version: u8) -> bool {
    for (i, place) in places.iter().enumerate() {
        if let Some((at, cut_opens)) = cut_of(*place, 2 * i as u8 + 1) {
            if at > 2 * version as u16 {
                return !cut_opens;
            }
        }
    }
    false
}

fn has_only_holes(places: &Places) -> bool {
    for place in places {
        if !matches!(*place, None | Some(Comparator::NotEqual)) {
            return false;
        }
    }
    true
}

/// Whether a version from 0 to 9 is in.
pub(crate) fn is_in(places: &Places, version: u8) -> bool {
    let at = (version / 2) as usize;
    if version % 2 == 1 && at < 5 {
        match places[at] {
            Some(Comparator::Equal) => return true,
            Some(Comparator::NotEqual) => return false,
            _ => {}
        }
    }
    last_below_opens(places, version)
        || first_above_closes(places, version)
        || has_only_holes(places)
}
