//! Whether the first range constraint of a list closes.

ghost use Rattle.std.specs.Prelude.{◌≡◌, ◌<◌, ◌+◌, false, drop, length};
ghost use Rattle.vx_vers.specs.Meaning.{closes_first, kind};

use vx_vers::{Comparator, Constraint};

/// Whether the first range constraint closes. It takes no memory.
pub(crate) fn closes_at_first<V>(list: &[Constraint<V>]) -> bool
    ensures { result ≡ closes_first kind list.now false }
{
    for constraint in list {
        match constraint.comparator {
            Comparator::Equal | Comparator::NotEqual => {}
            Comparator::Less | Comparator::LessEqual => return true,
            Comparator::Greater | Comparator::GreaterEqual => return false,
        }
    }
    false
}

/// Whether the first range constraint behind a place closes. `closes` says so of the list from that place on, so only
/// behind a range constraint is there something to look for. It takes no memory.
pub(crate) fn closes_behind<V>(list: &[Constraint<V>], i: usize, closes: bool) -> bool
    requires within { i < length list.now }
    requires closes { closes ≡ closes_first kind (drop i list.now) false }
    ensures { result ≡ closes_first kind (drop (i + 1) list.now) false }
{
    match list[i].comparator {
        Comparator::Equal | Comparator::NotEqual => closes,
        Comparator::Less | Comparator::LessEqual | Comparator::Greater | Comparator::GreaterEqual =>
            closes_at_first(&list[i + 1..]),
    }
}
