ghost use Rattle.std.specs.Prelude.{◌≡◌, ◌≤◌, ◌+◌, ◌*◌, ◌-◌, ◌++◌, ◌∷◌, [], ℕ, List, false, length, drop, IfOk, OnOk};
ghost use Rattle.vx_line.specs.Logarithm.{log2_up};
ghost use Rattle.vx_interval.specs.Steps.Lines.{IsLineOf, AreChangesOf, line_cost, has_item, all_cuts, with_cuts, all_at};

use crate::bounds::Joined;
use crate::compares::Compares;
use crate::counter::Steps;
use crate::line::{Line, changes_of_span, join_lines, line_of_span};
use crate::merging::join_values;
use std::alloc::Global;
use std::sync::ledger::Ledger;
use vx_scheme::{Alternative, List, NoMemory, Span, Spans};

/// What lines are made of: a span, a term or an alternative.
pub(crate) trait Part<C: Compares<L>, L: Ledger>: Drop {
    ghost use Rattle.std.specs.Prelude.{Bool};
    ghost use Rattle.vx_scheme.specs.declared.span.Cut.{Cut};

    /// Its cuts, from left to right, lower before upper.
    ghost cuts: { Self → List (Cut C.Item) };

    /// It holds the place that is given by the cuts that stand below it.
    ghost at: { (Cut C.Item → Bool) → Self → Bool };

    /// How many lists stand one in the other down to its spans.
    ghost depth: { ℕ };

    /// Whether there is a cut. It takes no memory.
    fn has_cut(&self) -> bool
        ensures { result ≡ has_item (cuts self.now) };

    /// Its line. What has no cut takes no memory. A call that is refused keeps within the same
    /// bound on its steps.
    fn line(self, alloc: Global, steps: &mut Steps<L>) -> Result<Line<C::Item>, NoMemory>
        ensures line { IfOk result (λ line. IsLineOf C.order (cuts self) (λ below. at below self) line) }
        ensures cost { steps.new ≤ steps.old + line_cost depth (length (cuts self)) };

    /// The cuts at which its line changes, within the same bound.
    fn changes(self, alloc: Global, steps: &mut Steps<L>) -> Result<Joined<C::Item>, NoMemory>
        ensures changes { IfOk result (AreChangesOf C.order (cuts self) (λ below. at below self)) }
        ensures cost { steps.new ≤ steps.old + line_cost depth (length (cuts self)) };
}

impl<C: Compares<L>, L: Ledger> Part<C, L> for Span<C::Item> {
    ghost use Rattle.std.specs.Prelude.{◌++◌};
    ghost use Rattle.vx_scheme.specs.Cuts.{cut_list, span_at};

    ghost cuts = { λ span. cut_list span.lower ++ cut_list span.upper };

    ghost at = { λ below span. span_at below span };

    ghost depth = { 0 };

    fn has_cut(&self) -> bool {
        self.lower.is_some() || self.upper.is_some()
    }

    fn line(self, alloc: Global, steps: &mut Steps<L>) -> Result<Line<C::Item>, NoMemory> {
        line_of_span::<C, L>(alloc, self, steps)
    }

    fn changes(self, alloc: Global, steps: &mut Steps<L>) -> Result<Joined<C::Item>, NoMemory> {
        let joined = changes_of_span::<C, L>(alloc, self, steps)?;
        Ok(joined)
    }
}

impl<C: Compares<L>, L: Ledger> Part<C, L> for Spans<C::Item> {
    ghost use Rattle.vx_scheme.specs.Cuts.{cuts_of, spans_at};

    ghost cuts = { λ term. cuts_of term };

    ghost at = { λ below term. spans_at below term };

    ghost depth = { 1 };

    fn has_cut(&self) -> bool {
        count_with_cuts::<Span<C::Item>, C, L>(self) > 0
    }

    fn line(self, alloc: Global, steps: &mut Steps<L>) -> Result<Line<C::Item>, NoMemory> {
        join_parts::<Span<C::Item>, C, L>(alloc, false, self, steps)
    }

    fn changes(self, alloc: Global, steps: &mut Steps<L>) -> Result<Joined<C::Item>, NoMemory> {
        join_changes::<Span<C::Item>, C, L>(alloc, false, self, steps)
    }
}

impl<C: Compares<L>, L: Ledger> Part<C, L> for Alternative<C::Item> {
    ghost use Rattle.vx_scheme.specs.Cuts.{terms_at};
    ghost use Rattle.vx_interval.specs.Joined.{terms_cuts};

    ghost cuts = { λ terms. terms_cuts terms };

    ghost at = { λ below terms. terms_at below terms };

    ghost depth = { 2 };

    fn has_cut(&self) -> bool {
        count_with_cuts::<Spans<C::Item>, C, L>(self) > 0
    }

    fn line(self, alloc: Global, steps: &mut Steps<L>) -> Result<Line<C::Item>, NoMemory> {
        join_parts::<Spans<C::Item>, C, L>(alloc, true, self, steps)
    }

    fn changes(self, alloc: Global, steps: &mut Steps<L>) -> Result<Joined<C::Item>, NoMemory> {
        join_changes::<Spans<C::Item>, C, L>(alloc, true, self, steps)
    }
}

/// How many of the parts have a cut. It takes no memory.
fn count_with_cuts<X: Part<C, L>, C: Compares<L>, L: Ledger>(parts: &List<X>) -> usize
    ensures { result ≡ with_cuts X.cuts parts.now }
{
    let mut count = 0;
    for part in parts.as_slice() {
        if part.has_cut() {
            count += 1;
        }
    }
    count
}

/// Takes off the last part that has a cut, with those behind it, and gives their line. Where none
/// has a cut, it takes all parts.
fn last_line<X: Part<C, L>, C: Compares<L>, L: Ledger>(
    alloc: Global,
    both: bool,
    parts: &mut List<X>,
    steps: &mut Steps<L>,
) -> Result<Line<C::Item>, NoMemory>
    ensures split { parts.old ≡ parts.new ++ drop (length parts.new) parts.old }
    ensures left { OnOk result (with_cuts X.cuts parts.new ≡ with_cuts X.cuts parts.old - 1) }
    ensures all { OnOk result (with_cuts X.cuts parts.old ≡ 0 → parts.new ≡ []) }
    ensures line { IfOk result (λ line. IsLineOf C.order
        (all_cuts X.cuts (drop (length parts.new) parts.old))
        (λ below. all_at both (X.at below) (drop (length parts.new) parts.old)) line) }
    ensures cost { steps.new ≤ steps.old + line_cost X.depth (length (all_cuts X.cuts (drop (length parts.new) parts.old))) }
{
    let mut inside = both;
    while let Some(part) = parts.pop() {
        let has_cut = part.has_cut();
        let line = part.line(alloc, steps)?;
        if has_cut {
            return Ok(line.join_even(both, inside));
        }
        inside = join_values(both, line.starts, inside);
    }
    Ok(Line::even(alloc, inside))
}

/// Takes off the last parts that have a cut, so many, with those between and behind them, and
/// gives their line. It halves their number, so that a cut is looked at once for each halving.
/// `sort` of the standard library has no bound on its comparisons, so the halving is done here.
fn last_lines<X: Part<C, L>, C: Compares<L>, L: Ledger>(
    alloc: Global,
    both: bool,
    parts: &mut List<X>,
    count: usize,
    steps: &mut Steps<L>,
) -> Result<Line<C::Item>, NoMemory>
    requires some { 1 ≤ count }
    requires there { count ≤ with_cuts X.cuts parts.old }
    ensures split { parts.old ≡ parts.new ++ drop (length parts.new) parts.old }
    ensures left { OnOk result (with_cuts X.cuts parts.old ≡ with_cuts X.cuts parts.new + count) }
    ensures line { IfOk result (λ line. IsLineOf C.order
        (all_cuts X.cuts (drop (length parts.new) parts.old))
        (λ below. all_at both (X.at below) (drop (length parts.new) parts.old)) line) }
    ensures cost { (most : ℕ) → length (all_cuts X.cuts parts.old) ≤ most →
        steps.new ≤ steps.old + length (all_cuts X.cuts (drop (length parts.new) parts.old)) *
        (X.depth * log2_up most + log2_up count + 1) }
{
    if count == 1 {
        return last_line::<X, C, L>(alloc, both, parts, steps);
    }
    let half = count / 2;
    let second = last_lines::<X, C, L>(alloc, both, parts, half, steps)?;
    let first = last_lines::<X, C, L>(alloc, both, parts, count - half, steps)?;
    let line = join_lines::<C, L>(alloc, both, first, second, steps)?;
    Ok(line)
}

/// Takes the one part that there is out of its list.
fn only_part<X: Drop>(parts: List<X>) -> X
    requires { length parts ≡ 1 }
    ensures { parts ≡ result ∷ [] }
{
    let mut parts = parts;
    match parts.pop() {
        Some(part) => part,
        None => unreachable!(),
    }
}

/// The line of what all of the parts hold, or one of them.
pub(crate) fn join_parts<X: Part<C, L>, C: Compares<L>, L: Ledger>(
    alloc: Global,
    both: bool,
    parts: List<X>,
    steps: &mut Steps<L>,
) -> Result<Line<C::Item>, NoMemory>
    ensures line { IfOk result (λ line.
        IsLineOf C.order (all_cuts X.cuts parts) (λ below. all_at both (X.at below) parts) line) }
    ensures cost { steps.new ≤ steps.old + line_cost (X.depth + 1) (length (all_cuts X.cuts parts)) }
{
    if parts.len() == 1 {
        return only_part(parts).line(alloc, steps);
    }
    let mut parts = parts;
    let count = count_with_cuts::<X, C, L>(&parts);
    if count == 0 {
        return last_line::<X, C, L>(alloc, both, &mut parts, steps);
    }
    let line = last_lines::<X, C, L>(alloc, both, &mut parts, count, steps)?;
    if parts.is_empty() {
        return Ok(line);
    }
    let rest = last_line::<X, C, L>(alloc, both, &mut parts, steps)?;
    Ok(line.join_even(both, rest.starts))
}

/// The cuts at which the line of the parts changes.
pub(crate) fn join_changes<X: Part<C, L>, C: Compares<L>, L: Ledger>(
    alloc: Global,
    both: bool,
    parts: List<X>,
    steps: &mut Steps<L>,
) -> Result<Joined<C::Item>, NoMemory>
    ensures changes { IfOk result
        (AreChangesOf C.order (all_cuts X.cuts parts) (λ below. all_at both (X.at below) parts)) }
    ensures cost { steps.new ≤ steps.old + line_cost (X.depth + 1) (length (all_cuts X.cuts parts)) }
{
    if parts.len() == 1 {
        return only_part(parts).changes(alloc, steps);
    }
    let line = join_parts::<X, C, L>(alloc, both, parts, steps)?;
    let starts_in = line.starts;
    let cuts = line.changes(alloc)?;
    Ok(Joined { starts_in, cuts })
}
