ghost use Rattle.std.specs.Prelude.{◌≡◌, ◌<◌};

use crate::{Level, Levels};
use std::alloc::Global;
use std::marker::Brand;
use std::sync::ledger::{Blank, Ledger};
use std::test::Fail;
use vx_interval::{Counted, Cuts, Joined, Set, Steps, join_bounds, merge};
use vx_scheme::{Alternative, Bounds, Cut, NoMemory, Scheme, Span, Spans, VersionFault};

/// The cut before or after a version.
fn cut<S: Scheme>(
    alloc: Global,
    text: &str,
    after: bool,
    mark: u64,
) -> Result<Cut<S::Version>, VersionFault> {
    let version = S::read(alloc, text)?;
    Ok(Cut {
        version,
        after,
        mark,
    })
}

/// The set of one alternative with these terms.
fn set_of<S: Scheme>(
    alloc: Global,
    first: Spans<S::Version>,
    second: Spans<S::Version>,
) -> Result<Set<S>, NoMemory> {
    let mut terms = Alternative::new(alloc);
    terms.push(first)?;
    terms.push(second)?;
    let mut bounds = Bounds::new(alloc);
    bounds.push(terms)?;
    Set::from_bounds(alloc, bounds)
}

/// The only span of a set, which has a lower cut alone.
fn only_lower<S: Scheme>(set: Set<S>) -> Result<Option<Cut<S::Version>>, NoMemory> {
    let mut spans = set.into_spans()?.into_vec();
    match (spans.pop(), spans.pop()) {
        (Some(Span { lower, upper: None }), None) => Ok(lower),
        _ => Ok(None),
    }
}

/// Whether a cut is there, and has this mark and this tag.
fn is_marked(cut: &Option<Cut<Level>>, mark: u64, tag: u8) -> bool {
    match cut {
        Some(cut) => cut.mark == mark && cut.version.tag == tag,
        None => false,
    }
}

#[test]
fn an_inverted_span_marks(rt: HostRuntime) -> Result<(), Fail> {
    let alloc = rt.alloc();
    let mut first = Spans::new(alloc);
    first.push(Span {
        lower: Some(cut::<Levels>(alloc, "30", false, 2)?),
        upper: Some(cut::<Levels>(alloc, "11", false, 2)?),
    })?;
    first.push(Span {
        lower: Some(cut::<Levels>(alloc, "12", false, 2)?),
        upper: None,
    })?;
    let mut second = Spans::new(alloc);
    second.push(Span {
        lower: Some(cut::<Levels>(alloc, "13", false, 7)?),
        upper: None,
    })?;
    let set = set_of::<Levels>(alloc, first, second)?;
    let lower = only_lower(set)?;
    assert!(rt; is_marked(&lower, 2, 1));
    Ok(())
}

/// The half-lines, points and holes at level 2 and at level 4.
const KINDS: usize = 12;

/// The set of a kind.
fn set_of_kind<S: Scheme>(alloc: Global, kind: usize) -> Result<Set<S>, VersionFault> {
    let text = if kind < 6 { "20" } else { "40" };
    let below = one(alloc, None, Some(cut::<S>(alloc, text, false, 0)?))?;
    let above = one(alloc, Some(cut::<S>(alloc, text, true, 0)?), None)?;
    let set = match kind % 6 {
        0 => below,
        1 => above,
        2 => below.complement()?,
        3 => above.complement()?,
        4 => below.union(above)?,
        _ => below.union(above)?.complement()?,
    };
    Ok(set)
}

fn one<S: Scheme>(
    alloc: Global,
    lower: Option<Cut<S::Version>>,
    upper: Option<Cut<S::Version>>,
) -> Result<Set<S>, NoMemory> {
    let mut first = Spans::new(alloc);
    first.push(Span { lower, upper })?;
    let mut second = Spans::new(alloc);
    second.push(Span {
        lower: None,
        upper: None,
    })?;
    set_of(alloc, first, second)
}

/// Whether a level is in the set of a kind.
fn is_in_kind(kind: usize, level: u8) -> bool {
    let middle = if kind < 6 { 2 } else { 4 };
    match kind % 6 {
        0 => level < middle,
        1 => level > middle,
        2 => level >= middle,
        3 => level <= middle,
        4 => level != middle,
        _ => level == middle,
    }
}

#[test]
fn unions_and_intersections(rt: HostRuntime) -> Result<(), Fail> {
    let alloc = rt.alloc();
    for a in 0..KINDS {
        for b in 0..KINDS {
            let either = set_of_kind::<Levels>(alloc, a)?.union(set_of_kind(alloc, b)?)?;
            let both = set_of_kind::<Levels>(alloc, a)?.intersect(set_of_kind(alloc, b)?)?;
            for text in ["10", "20", "30", "40", "50", "60"] {
                let version = Levels::read(alloc, text)?;
                let in_a = is_in_kind(a, version.level);
                let in_b = is_in_kind(b, version.level);
                assert_eq!(rt;
                    (either.contains(&version), both.contains(&version)),
                    (in_a || in_b, in_a && in_b),
                    "{a} and {b} at {text}"
                );
            }
        }
    }
    Ok(())
}

/// The merged cuts of two sets.
fn merged<S: Scheme, L: Ledger>(
    blank: Blank,
    alloc: Global,
    both: bool,
    a: Set<S>,
    b: Set<S>,
) -> Result<Cuts<S::Version>, NoMemory>
    requires name { blank.name ≡ L.name }
    requires parts { blank.parts ≡ L.parts }
    requires some { 0 < blank.parts }
{
    let a_starts = a.starts_in();
    let b_starts = b.starts_in();
    let mut steps = Steps::<L>::start(blank);
    merge::<Counted<S>, L>(
        alloc,
        both,
        a_starts,
        a.into_cuts(),
        b_starts,
        b.into_cuts(),
        &mut steps,
    )
}

#[test]
fn of_two_equal_cuts_the_first_is_kept(rt: HostRuntime) -> Result<(), Fail> {
    let alloc = rt.alloc();
    let a = one::<Levels>(alloc, Some(cut::<Levels>(alloc, "25", false, 9)?), None)?;
    let b = one::<Levels>(alloc, Some(cut::<Levels>(alloc, "26", false, 3)?), None)?;
    let cuts = merged::<Levels, Brand>(Blank::new(1), alloc, false, a, b)?;
    assert!(rt; is_marked(&cuts.into_vec().pop(), 9, 5));
    Ok(())
}

#[test]
fn every_and_none(rt: HostRuntime) -> Result<(), Fail> {
    let alloc = rt.alloc();
    let every = Set::<Levels>::every(alloc)?.into_spans()?;
    let none = Set::<Levels>::every(alloc)?.complement()?;
    assert_eq!(rt; (every.len(), none.is_none()), (1, true));
    Ok(())
}

/// The joined spans of bounds, with the cuts in order.
fn joined<S: Scheme, L: Ledger>(
    blank: Blank,
    alloc: Global,
    bounds: Bounds<S::Version>,
) -> Result<Joined<S::Version>, NoMemory>
    requires name { blank.name ≡ L.name }
    requires parts { blank.parts ≡ L.parts }
    requires some { 0 < blank.parts }
{
    let mut steps = Steps::<L>::start(blank);
    join_bounds::<Counted<S>, L>(alloc, bounds, &mut steps)
}

/// A term of one span.
fn term<S: Scheme>(
    alloc: Global,
    lower: Option<Cut<S::Version>>,
    upper: Option<Cut<S::Version>>,
) -> Result<Spans<S::Version>, NoMemory> {
    Spans::one(alloc, Span { lower, upper })
}

#[test]
fn alternatives_are_joined(rt: HostRuntime) -> Result<(), Fail> {
    let alloc = rt.alloc();
    let start = cut::<Levels>(alloc, "10", false, 0)?;
    let end = cut::<Levels>(alloc, "30", false, 1)?;
    let mut first = Alternative::one(alloc, term::<Levels>(alloc, Some(start), Some(end))?)?;
    first.push(term::<Levels>(alloc, None, None)?)?;
    let mut bounds = Bounds::one(alloc, first)?;
    let above = cut::<Levels>(alloc, "50", false, 2)?;
    bounds.push(Alternative::one(alloc, term::<Levels>(alloc, Some(above), None)?)?)?;
    let joined = joined::<Levels, Brand>(Blank::new(1), alloc, bounds)?;
    let mut cuts = joined.cuts.into_vec();
    assert_eq!(rt; cuts.len(), 3);
    assert!(rt; is_marked(&cuts.pop(), 2, 0));
    Ok(())
}
