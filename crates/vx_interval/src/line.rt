ghost use Rattle.std.specs.Prelude.{◌≡◌, ◌<◌, ◌≤◌, ◌+◌, ◌∷◌, ◌++◌, [], false, Some, length, IfOk, MatchOption};
ghost use Rattle.vx_scheme.specs.Cuts.{cut_cmp, cut_list, is_absent};
ghost use Rattle.vx_line.specs.Line.{join_by};
ghost use Rattle.vx_line.specs.Least.{least_of};
ghost use Rattle.vx_line.specs.Steps.Merges.{turn_of};
ghost use Rattle.vx_line.specs.Pieces.{changes_of};
ghost use Rattle.vx_line.specs.Steps.Joins.{join_right, join_pieces};
ghost use Rattle.vx_interval.specs.Joined.{mark_of};
ghost use Rattle.vx_interval.specs.Steps.Lines.{piece_cmp, span_pieces};

use crate::bounds::Joined;
use crate::compares::{Compares, compare_cuts};
use crate::counter::Steps;
use crate::merging::{Cuts, join_values, push_change, take_first};
use std::alloc::Global;
use std::cmp::Ordering;
use std::collections::VecDeque;
use std::sync::ledger::Ledger;
use vx_line::LinePiece;
use vx_scheme::{Cut, List, NoMemory, Span};

/// The pieces above cuts.
type Pieces<V> = List<LinePiece<Cut<V>>>;

/// A line: each of its cuts, in order, with whether the piece above it is in, and whether the
/// piece below all of them is.
#[derive(Drop)]
pub(crate) struct Line<V> {
    pub(crate) starts: bool,
    pub(crate) pieces: Pieces<V>,
}

impl<V: Drop> Line<V> {
    /// The line without cuts. It takes no memory.
    pub(crate) fn even(alloc: Global, inside: bool) -> Line<V>
        ensures starts { result.starts ≡ inside }
        ensures pieces { result.pieces ≡ [] }
    {
        Line {
            starts: inside,
            pieces: List::new(alloc),
        }
    }

    /// The line joined with one that has no cuts, and lies in or out as a whole. It takes no
    /// memory.
    pub(crate) fn join_even(self, both: bool, inside: bool) -> Line<V>
        ensures starts { result.starts ≡ join_by both inside self.starts }
        ensures pieces { result.pieces ≡ join_right both inside self.pieces }
    {
        if inside == both {
            return self;
        }
        let Line { starts: _, pieces } = self;
        let mut pieces = pieces.into_vec();
        for piece in pieces.iter_mut() {
            piece.inside = inside;
        }
        Line {
            starts: inside,
            pieces: List::from_vec(pieces),
        }
    }

    /// The cuts at which the pieces change, from in to out or from out to in.
    pub(crate) fn changes(self, alloc: Global) -> Result<Cuts<V>, NoMemory>
        ensures { IfOk result (λ cuts. cuts ≡ changes_of self.starts self.pieces) }
    {
        let Line { starts, pieces } = self;
        let mut cuts = Cuts::with_room(alloc, pieces.len())?;
        let mut inside = starts;
        for LinePiece { cut, inside: above } in pieces.into_vec() {
            push_change(&mut cuts, inside, above, cut)?;
            inside = above;
        }
        Ok(cuts)
    }
}

/// The line of a span: nothing is in where its cuts do not rise, but they are on the line all the
/// same.
pub(crate) fn line_of_span<C: Compares<L>, L: Ledger>(
    alloc: Global,
    span: Span<C::Item>,
    steps: &mut Steps<L>,
) -> Result<Line<C::Item>, NoMemory>
    ensures starts { IfOk result (λ line. line.starts ≡ is_absent span.lower) }
    ensures pieces { IfOk result (λ line. line.pieces ≡ span_pieces C.order span) }
    ensures cost { steps.new ≤ steps.old + length (cut_list span.lower ++ cut_list span.upper) }
{
    let Span { lower, upper } = span;
    match (lower, upper) {
        (None, None) => Ok(Line::even(alloc, true)),
        (None, Some(end)) => Ok(Line {
            starts: true,
            pieces: List::one(alloc, above(end, false))?,
        }),
        (Some(start), None) => Ok(Line {
            starts: false,
            pieces: List::one(alloc, above(start, true))?,
        }),
        (Some(start), Some(end)) => Ok(Line {
            starts: false,
            pieces: pieces_between::<C, L>(alloc, start, end, steps)?,
        }),
    }
}

/// The pieces above the cuts of a span that has both.
fn pieces_between<C: Compares<L>, L: Ledger>(
    alloc: Global,
    start: Cut<C::Item>,
    end: Cut<C::Item>,
    steps: &mut Steps<L>,
) -> Result<Pieces<C::Item>, NoMemory>
    ensures pieces { IfOk result (λ pieces.
        pieces ≡ span_pieces C.order (record { lower = Some start; upper = Some end })) }
    ensures cost { steps.new ≤ steps.old + 1 }
{
    let mut pieces = List::with_room(alloc, 2)?;
    match compare_cuts::<C, L>(&start, &end, steps) {
        Ordering::Less => {
            pieces.push(above(start, true))?;
            pieces.push(above(end, false))?;
        }
        Ordering::Equal => pieces.push(above(least(start, end), false))?,
        Ordering::Greater => {
            pieces.push(above(end, false))?;
            pieces.push(above(start, false))?;
        }
    }
    Ok(pieces)
}

/// The cuts of a span at which it begins and ends, which are none where they do not rise.
pub(crate) fn changes_of_span<C: Compares<L>, L: Ledger>(
    alloc: Global,
    span: Span<C::Item>,
    steps: &mut Steps<L>,
) -> Result<Joined<C::Item>, NoMemory>
    ensures starts { IfOk result (λ joined. joined.starts_in ≡ is_absent span.lower) }
    ensures cuts { IfOk result (λ joined. joined.cuts ≡ changes_of (is_absent span.lower) (span_pieces C.order span)) }
    ensures cost { steps.new ≤ steps.old + length (cut_list span.lower ++ cut_list span.upper) }
{
    let Span { lower, upper } = span;
    match (lower, upper) {
        (None, None) => Ok(Joined {
            starts_in: true,
            cuts: Cuts::new(alloc),
        }),
        (None, Some(end)) => Ok(Joined {
            starts_in: true,
            cuts: Cuts::one(alloc, end)?,
        }),
        (Some(start), None) => Ok(Joined {
            starts_in: false,
            cuts: Cuts::one(alloc, start)?,
        }),
        (Some(start), Some(end)) => Ok(Joined {
            starts_in: false,
            cuts: changes_between::<C, L>(alloc, start, end, steps)?,
        }),
    }
}

/// The cuts of a span that has both, where they rise.
fn changes_between<C: Compares<L>, L: Ledger>(
    alloc: Global,
    start: Cut<C::Item>,
    end: Cut<C::Item>,
    steps: &mut Steps<L>,
) -> Result<Cuts<C::Item>, NoMemory>
    ensures cuts { IfOk result (λ cuts.
        cuts ≡ changes_of false (span_pieces C.order (record { lower = Some start; upper = Some end }))) }
    ensures cost { steps.new ≤ steps.old + 1 }
{
    match compare_cuts::<C, L>(&start, &end, steps) {
        Ordering::Less => {
            let mut cuts = Cuts::with_room(alloc, 2)?;
            cuts.push(start)?;
            cuts.push(end)?;
            Ok(cuts)
        }
        Ordering::Equal | Ordering::Greater => Ok(Cuts::new(alloc)),
    }
}

/// The piece above a cut.
fn above<V>(cut: Cut<V>, inside: bool) -> LinePiece<Cut<V>>
    ensures cut { result.cut ≡ cut }
    ensures inside { result.inside ≡ inside }
{
    LinePiece { cut, inside }
}

/// Of a cut and a later one, the later only where its mark is less.
fn least<V: Drop>(x: Cut<V>, y: Cut<V>) -> Cut<V>
    ensures { result ≡ least_of mark_of x y }
{
    if y.mark < x.mark { y } else { x }
}

/// What is left of a line on the way up: its cuts, and whether the piece below the next of them
/// is in.
#[derive(Drop)]
struct Rest<V> {
    inside: bool,
    pieces: VecDeque<LinePiece<Cut<V>>>,
}

impl<V: Drop> Rest<V> {
    /// The whole line. It takes no memory.
    fn of(line: Line<V>) -> Rest<V>
        ensures inside { result.inside ≡ line.starts }
        ensures pieces { result.pieces.items ≡ line.pieces }
    {
        let Line { starts, pieces } = line;
        Rest {
            inside: starts,
            pieces: VecDeque::from_vec(pieces.into_vec()),
        }
    }

    /// Moves past the next cut, which is there, and gives it.
    fn pass(&mut self) -> Cut<V>
        requires { 0 < length self.old.pieces.items }
        ensures { self.old.pieces.items ≡ record { cut = result; inside = self.new.inside } ∷ self.new.pieces.items }
    {
        let LinePiece { cut, inside } = take_first(&mut self.pieces);
        self.inside = inside;
        cut
    }
}

/// Which line has the next cut: the first by `Less`, both by `Equal`, the second by `Greater`.
fn next_of<C: Compares<L>, L: Ledger>(
    a: &Rest<C::Item>,
    b: &Rest<C::Item>,
    steps: &mut Steps<L>,
) -> Option<Ordering>
    ensures value { result ≡ turn_of (piece_cmp C.order) a.now.pieces.items b.now.pieces.items }
    ensures cost { MatchOption result (steps.new ≡ steps.old) (λ _. steps.new ≤ steps.old + 1) }
{
    match (a.pieces.front(), b.pieces.front()) {
        (None, None) => None,
        (Some(_), None) => Some(Ordering::Less),
        (None, Some(_)) => Some(Ordering::Greater),
        (Some(x), Some(y)) => Some(compare_cuts::<C, L>(&x.cut, &y.cut, steps)),
    }
}

/// Moves past the lowest cut that is left, and gives the piece above it. Of two order-equal cuts
/// it moves past both, and the piece has the one with the lesser mark.
fn next_piece<C: Compares<L>, L: Ledger>(
    both: bool,
    a: &mut Rest<C::Item>,
    b: &mut Rest<C::Item>,
    steps: &mut Steps<L>,
) -> Option<LinePiece<Cut<C::Item>>>
    ensures whole { MatchOption result
        (join_pieces mark_of (cut_cmp C.order) both a.old.inside a.old.pieces.items b.old.inside b.old.pieces.items ≡ [])
        (λ piece. join_pieces mark_of (cut_cmp C.order) both a.old.inside a.old.pieces.items b.old.inside b.old.pieces.items ≡
        piece ∷ join_pieces mark_of (cut_cmp C.order) both a.new.inside a.new.pieces.items b.new.inside b.new.pieces.items) }
    ensures fewer { MatchOption result (steps.new ≡ steps.old) (λ _.
        length a.new.pieces.items + length b.new.pieces.items < length a.old.pieces.items + length b.old.pieces.items) }
    ensures bound { MatchOption result (steps.new ≡ steps.old) (λ _.
        steps.new + (length a.new.pieces.items + length b.new.pieces.items) ≤
        steps.old + (length a.old.pieces.items + length b.old.pieces.items)) }
{
    match next_of::<C, L>(a, b, steps)? {
        Ordering::Less => {
            let cut = a.pass();
            Some(above(cut, join_values(both, a.inside, b.inside)))
        }
        Ordering::Equal => {
            let first = a.pass();
            let second = b.pass();
            Some(above(least(first, second), join_values(both, a.inside, b.inside)))
        }
        Ordering::Greater => {
            let cut = b.pass();
            Some(above(cut, join_values(both, a.inside, b.inside)))
        }
    }
}

/// What is in both lines, or in one of them, in one pass that keeps every cut: of two order-equal
/// ones the one with the lesser mark, and that of `a` where the marks are the same.
pub(crate) fn join_lines<C: Compares<L>, L: Ledger>(
    alloc: Global,
    both: bool,
    a: Line<C::Item>,
    b: Line<C::Item>,
    steps: &mut Steps<L>,
) -> Result<Line<C::Item>, NoMemory>
    ensures starts { IfOk result (λ line. line.starts ≡ join_by both a.starts b.starts) }
    ensures pieces { IfOk result (λ line.
        line.pieces ≡ join_pieces mark_of (cut_cmp C.order) both a.starts a.pieces b.starts b.pieces) }
    ensures cost { steps.new ≤ steps.old + (length a.pieces + length b.pieces) }
{
    let starts = join_values(both, a.starts, b.starts);
    let mut pieces = List::with_room(alloc, a.pieces.len().saturating_add(b.pieces.len()))?;
    let mut first = Rest::of(a);
    let mut second = Rest::of(b);
    while let Some(piece) = next_piece::<C, L>(both, &mut first, &mut second, steps) {
        pieces.push(piece)?;
    }
    Ok(Line { starts, pieces })
}
