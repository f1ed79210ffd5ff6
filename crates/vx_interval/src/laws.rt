//! Laws of the definitions, each as the contract of a function that does nothing.

ghost use Rattle.std.specs.Prelude.{◌≡◌, ◌≤◌, [], Bool, false, List, length};
ghost use Rattle.vx_spec.specs.Ascending.{IsAscending};
ghost use Rattle.vx_scheme.specs.declared.span.Cut.{Cut};
ghost use Rattle.vx_scheme.specs.declared.span.Span.{Span};
ghost use Rattle.vx_scheme.specs.Cuts.{cut_cmp, cuts_of, bounds_at};
ghost use Rattle.vx_line.specs.Line.{IsMerged};
ghost use Rattle.vx_interval.specs.Places.{AtEachPlace};
ghost use Rattle.vx_interval.specs.Joined.{IsJoined, IsLine, made_cuts, judged_spans};

use crate::compares::Compares;
use std::sync::ledger::Ledger;
use vx_scheme::Scheme;

/// Bounds have one list of joined spans.
pub fn joined_unique<S: Scheme>()
    ensures { (bounds : List (List (List (Span S.Version)))) (spans others : List (Span S.Version)) →
        IsJoined S.order bounds spans → IsJoined S.order bounds others →
        spans ≡ others }
{}

/// The plain reading: the joined spans come of judging each piece between neighbouring made cuts.
pub fn judged_joined<S: Scheme>()
    ensures { (bounds : List (List (List (Span S.Version))))
        (line : List (Cut S.Version)) (spans : List (Span S.Version)) →
        IsLine S.order (made_cuts bounds) line → IsJoined S.order bounds spans →
        spans ≡ judged_spans S.order bounds line }
{}

/// Where no place of the line is in, there is no joined span.
pub fn joined_none<S: Scheme>()
    ensures { (bounds : List (List (List (Span S.Version)))) (spans : List (Span S.Version)) →
        IsJoined S.order bounds spans → AtEachPlace S.order (λ below. bounds_at below bounds ≡ false) →
        spans ≡ [] }
{}

/// Joined spans have at most as many cuts as were made.
pub fn joined_is_short<S: Scheme>()
    ensures { (bounds : List (List (List (Span S.Version)))) (spans : List (Span S.Version)) →
        IsJoined S.order bounds spans → length (cuts_of spans) ≤ length (made_cuts bounds) }
{}

/// Two lists of cuts in order have one merged list.
pub fn merged_unique<C: Compares<L>, L: Ledger>()
    ensures { (both a_starts b_starts : Bool) (a b cuts others : List (Cut C.Item)) →
        IsAscending (cut_cmp C.order) a → IsAscending (cut_cmp C.order) b →
        IsMerged (cut_cmp C.order) both a_starts a b_starts b cuts →
        IsMerged (cut_cmp C.order) both a_starts a b_starts b others →
        cuts ≡ others }
{}
