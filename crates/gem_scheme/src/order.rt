ghost use Rattle.std.specs.Prelude.{◌≡◌, ◌≤◌, length, map, slice_get};
ghost use Rattle.gem_scheme.specs.Order.{AnswersKeys, canonical, is_zero, number_rank, order_of, segment_letter, without_zeros};
ghost use Rattle.vx_order.specs.Letters.{end_letter, letter_cmp, letters_cmp};
ghost use Rattle.gem_scheme.specs.Steps.Rows.{together};
ghost use Rattle.vx_spec.specs.Places.{endless};
ghost use Rattle.std.specs.Option.{option_copied};
ghost use Rattle.std.specs.List.{list_all, prefix_len, suffix_len};
ghost use Rattle.gem_scheme.specs.Version.{Fields, is_number};

use crate::version::{GemVersion, Segment};
use std::cmp::Ordering;
use vx_order::compare_places;

// The segments by which a version compares, in two parts, so that no list is made of them.
#[derive(Clone, Copy)]
struct Row<'a> {
    // The numbers before the first word, without the zeros at their end.
    front: &'a [Segment],
    // The first word and all behind it, without the zeros at their end.
    rest: &'a [Segment],
}

/// How two versions compare. It takes no memory.
pub(crate) fn compare_versions(a: &GemVersion, b: &GemVersion) -> Ordering
    ensures order { result ≡ order_of a.now b.now }
    ensures places { AnswersKeys a.now b.now result }
{
    compare_rows(a, b)
}

fn compare_rows(a: &GemVersion, b: &GemVersion) -> Ordering
    ensures { result ≡ order_of a.now b.now }
{
    compare_canonical(
        canonical(a.segments.as_slice()),
        canonical(b.segments.as_slice()),
    )
}

fn compare_canonical(a: Row<'_>, b: Row<'_>) -> Ordering
    ensures { result ≡ letters_cmp number_rank (map segment_letter (together a.entry)) (map segment_letter (together b.entry)) }
{
    compare_places(count(a).max(count(b)), |i| compare_at(a, b, i))
}

fn count(segments: Row<'_>) -> usize
    ensures { length (together segments.entry) ≤ result }
{
    segments.front.len().saturating_add(segments.rest.len())
}

// The segments at a place, where one row may have ended.
fn compare_at(a: Row<'_>, b: Row<'_>, i: usize) -> Ordering
    ensures { result ≡ letter_cmp (endless (end_letter number_rank) (map segment_letter (together a.entry)) i)
        (endless (end_letter number_rank) (map segment_letter (together b.entry)) i) }
{
    match (segment_at(a, i), segment_at(b, i)) {
        (Some(x), Some(y)) => compare_segment(x, y),
        (Some(x), None) => compare_with_end(x),
        (None, Some(y)) => compare_with_end(y).reverse(),
        (None, None) => Ordering::Equal,
    }
}

fn segment_at(segments: Row<'_>, i: usize) -> Option<&Segment>
    ensures { option_copied result ≡ slice_get (together segments.entry) i }
{
    match segments.front.get(i) {
        Some(segment) => Some(segment),
        None => segments.rest.get(i - segments.front.len()),
    }
}

fn compare_segment(a: &Segment, b: &Segment) -> Ordering
    ensures { result ≡ letter_cmp (segment_letter a.now) (segment_letter b.now) }
{
    match (a, b) {
        (Segment::Number(n), Segment::Number(m)) => n.cmp(m),
        (Segment::Word(v), Segment::Word(w)) => v.as_str().cmp(w.as_str()),
        (Segment::Number(_), Segment::Word(_)) => Ordering::Greater,
        (Segment::Word(_), Segment::Number(_)) => Ordering::Less,
    }
}

// A segment and the 0 that a row goes on with.
fn compare_with_end(segment: &Segment) -> Ordering
    ensures { result ≡ letter_cmp (segment_letter segment.now) (end_letter number_rank) }
{
    match segment {
        Segment::Number(number) => number.cmp(&0),
        Segment::Word(_) => Ordering::Less,
    }
}

fn canonical(segments: &[Segment]) -> Row<'_>
    ensures { together result ≡ canonical segments.now }
{
    let (front, rest) = segments.split_at(front_len(segments));
    Row {
        front: without_zeros(front),
        rest: without_zeros(rest),
    }
}

/// How many numbers stand before the first word. It takes no memory.
pub(crate) fn front_len(segments: &[Segment]) -> usize
    ensures count { result ≡ prefix_len is_number segments.now }
    ensures within { result ≤ length segments.now }
{
    segments
        .iter()
        .take_while(|segment| is_number(segment))
        .count()
}

/// Whether each segment is a number. It takes no memory.
pub(crate) fn has_no_word(segments: &[Segment]) -> bool
    ensures { result ≡ list_all is_number segments.now }
{
    segments.iter().all(|segment| is_number(segment))
}

fn is_number(segment: &Segment) -> bool
    ensures { result ≡ is_number segment.now }
{
    matches!(segment, Segment::Number(_))
}

fn without_zeros(segments: &[Segment]) -> &[Segment]
    ensures { result.now ≡ without_zeros segments.now }
{
    &segments[..segments.len() - zero_count(segments)]
}

fn zero_count(segments: &[Segment]) -> usize
    ensures count { result ≡ suffix_len is_zero segments.now }
    ensures within { result ≤ length segments.now }
{
    segments
        .iter()
        .rev()
        .take_while(|segment| is_zero(segment))
        .count()
}

fn is_zero(segment: &Segment) -> bool
    ensures { result ≡ is_zero segment.now }
{
    matches!(segment, Segment::Number(0))
}

/// The order goes by the first place at which the keys of two versions differ, with numerals of any size.
pub fn order_by_first_difference()
    ensures { (a b : Fields) → AnswersKeys a b (order_of a b) }
{}
