//! Laws of the definitions, each as the contract of a function that does nothing.

ghost use Rattle.std.specs.Prelude.{◌≡◌, ◌≢◌, ◌≤◌, [], true, List, length};
ghost use Rattle.vx_scheme.specs.declared.span.Span.{Span};
ghost use Rattle.vx_scheme.specs.Cuts.{IsInOrder, cut_cmp, cuts_of, starts_of, in_spans};
ghost use Rattle.vx_line.specs.Line.{IsLevel};
ghost use Rattle.vx_vers.specs.declared.constraints.Constraint.{Constraint};
ghost use Rattle.vx_vers.specs.Again.{IsSameList};
ghost use Rattle.vx_vers.specs.Meaning.{kind, meaning};
ghost use Rattle.vx_vers.specs.Sorted.{IsSorted};
ghost use Rattle.vx_vers.specs.Validity.{is_valid};
ghost use Rattle.vx_simplify.specs.Edges.{starts_in, edges_of, spans_of_list};
ghost use Rattle.vx_simplify.specs.Listed.{list_of};
ghost use Rattle.vx_simplify.specs.Simplified.{simplified};

use vx_scheme::Scheme;

/// The list of spans in order means them, where there is a span.
pub fn list_means<S: Scheme>()
    ensures { (spans : List (Span S.Version)) (v : S.Version) → IsInOrder S.order spans → spans ≢ [] →
        meaning S.order v (list_of S.order spans) ≡ in_spans S.order spans v }
{}

/// The list of spans in order is sorted.
pub fn list_is_sorted<S: Scheme>()
    ensures { (spans : List (Span S.Version)) → IsInOrder S.order spans → IsSorted S.order (list_of S.order spans) }
{}

/// The list of spans has at most as many constraints as there are cuts.
pub fn list_is_short<S: Scheme>()
    ensures { (spans : List (Span S.Version)) → length (list_of S.order spans) ≤ length (cuts_of spans) }
{}

/// The list of spans in order has their cuts, each up to order-equal ones, where there is a span.
pub fn list_keeps_cuts<S: Scheme>()
    ensures starts { (spans : List (Span S.Version)) → IsInOrder S.order spans → spans ≢ [] →
        starts_in (list_of S.order spans) ≡ starts_of spans }
    ensures cuts { (spans : List (Span S.Version)) → IsInOrder S.order spans → spans ≢ [] →
        IsLevel (cut_cmp S.order) (edges_of (list_of S.order spans)) (cuts_of spans) }
{}

/// The spans of a sorted list are in order, and hold what the list means.
pub fn edges_mean<S: Scheme>()
    ensures in_order { (list : List (Constraint S.Version)) → IsSorted S.order list →
        IsInOrder S.order (spans_of_list list) }
    ensures members { (list : List (Constraint S.Version)) (v : S.Version) → IsSorted S.order list →
        in_spans S.order (spans_of_list list) v ≡ meaning S.order v list }
{}

/// The list of the spans of a sorted list means what the list means.
pub fn list_again_means<S: Scheme>()
    ensures { (list : List (Constraint S.Version)) (v : S.Version) → IsSorted S.order list →
        meaning S.order v (list_of S.order (spans_of_list list)) ≡ meaning S.order v list }
{}

/// What is the same as a simplified list, but for order-equal versions, is valid and simplifies no further.
pub fn same_stays_simple<S: Scheme>()
    ensures valid { (a list : List (Constraint S.Version)) → IsSameList S.order a (simplified kind list) → is_valid kind a ≡ true }
    ensures once { (a list : List (Constraint S.Version)) → IsSameList S.order a (simplified kind list) → simplified kind a ≡ a }
{}
