ghost use Rattle.std.specs.Prelude.{◌≡◌};
ghost use Rattle.vx_range.specs.Gaps.{gap_fault, is_hole, mark_of};

use crate::points::is_point;
use vx_scheme::{BackFault, Cut, Scheme};

/// What a language of one interval refuses a gap for, which begins at the end of one span and ends where the next begins:
/// `PointHole` exactly where it is a hole of one order class, and `NotOneInterval` where it is any other, with the mark of the
/// cut that begins the next span. It takes no memory.
pub fn gap_fault<S: Scheme>(
    upper: &Option<Cut<S::Version>>,
    lower: &Option<Cut<S::Version>>,
) -> BackFault
    ensures { result ≡ gap_fault S.order upper.now lower.now }
{
    if is_hole::<S>(upper, lower) {
        BackFault::PointHole(mark_of(lower))
    } else {
        BackFault::NotOneInterval(mark_of(lower))
    }
}

fn is_hole<S: Scheme>(upper: &Option<Cut<S::Version>>, lower: &Option<Cut<S::Version>>) -> bool
    ensures { result ≡ is_hole S.order upper.now lower.now }
{
    match (upper, lower) {
        (Some(upper), Some(lower)) => is_point::<S>(upper, lower),
        _ => false,
    }
}

fn mark_of<V>(cut: &Option<Cut<V>>) -> u64
    ensures { result ≡ mark_of cut.now }
{
    match cut {
        Some(cut) => cut.mark,
        None => 0,
    }
}
