use crate::lists::{LISTS, Places, discard_all, is_in, list_of, places_in, places_of};
use crate::{Level, Levels};
use std::alloc::Global;
use std::test::Fail;
use vx_interval::Set;
use vx_scheme::{Alternative, Bounds, Cut, NoMemory, Scheme, Span, Spans, Text, VersionFault};
use vx_simplify::{FromSet, from_set, simplify, to_set};
use vx_vers::{Constraints, write};

/// From the cut before one version to the cut after another.
fn between<S: Scheme>(alloc: Global, lower: &str, upper: &str) -> Result<Set<S>, VersionFault> {
    let lower = Some(Cut {
        version: S::read(alloc, lower)?,
        after: false,
        mark: 0,
    });
    let upper = Some(Cut {
        version: S::read(alloc, upper)?,
        after: true,
        mark: 0,
    });
    let spans = Spans::one(alloc, Span { lower, upper })?;
    let bounds = Bounds::one(alloc, Alternative::one(alloc, spans)?)?;
    Ok(Set::from_bounds(alloc, bounds)?)
}

/// The text of the list of a set.
fn printed<S: Scheme>(alloc: Global, set: Set<S>) -> Result<Text, FromSet> {
    let list = from_set(alloc, set)?;
    let mut text = Text::new(alloc);
    write(&list, &mut text)?;
    Ok(text)
}

#[test]
fn the_list_of_a_set(rt: HostRuntime) -> Result<(), Fail> {
    let alloc = rt.alloc();
    let holed = between(alloc, "30", "80")?.intersect(between(alloc, "50", "51")?.complement()?)?;
    let set = holed.union(between::<Levels>(alloc, "20", "21")?)?;
    assert_eq!(rt; printed(alloc, set)?.as_str(), "vers:npm/20|>=30|!=50|<=80");
    Ok(())
}

/// Whether the list holds exactly the versions that it should.
fn has_members(list: &Constraints<Levels>, places: &Places) -> bool {
    for level in 0..10u8 {
        if list.contains(&Level { level, tag: 1 }) != is_in(places, level) {
            return false;
        }
    }
    true
}

#[test]
fn members_of_every_list(rt: HostRuntime) -> Result<(), Fail> {
    let alloc = rt.alloc();
    for number in 0..LISTS {
        let places = places_of(number);
        let list = list_of(alloc, &places)?;
        assert!(rt; has_members(&list, &places), "list {number}");
    }
    Ok(())
}

#[test]
fn every_list_simplified(rt: HostRuntime) -> Result<(), Fail> {
    let alloc = rt.alloc();
    for number in 0..LISTS {
        let mut places = places_of(number);
        let kept = simplify(alloc, &list_of(alloc, &places)?)?;
        discard_all(&mut places);
        assert!(rt; places_in(&kept) == places, "list {number}");
    }
    Ok(())
}

/// The marks of the cuts, where there is one, from left to right.
fn marks<S: Scheme>(alloc: Global, set: Set<S>) -> Result<Text, NoMemory> {
    let mut text = Text::new(alloc);
    for cut in set.into_cuts().into_vec() {
        text.push_number(cut.mark as u128)?;
        text.push_str(" ")?;
    }
    Ok(text)
}

#[test]
fn sets_of_lists(rt: HostRuntime) -> Result<(), Fail> {
    let alloc = rt.alloc();
    // =1 >3 !=5 <7
    let list = list_of(alloc, &places_of(1 + 7 * (5 + 7 * (2 + 7 * 3))))?;
    assert!(rt; list.is_valid());
    let set = to_set(alloc, &list)?;
    assert_eq!(rt; marks(alloc, set)?.as_str(), "1 1 2 3 3 4 ");
    Ok(())
}
