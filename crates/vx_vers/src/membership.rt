//! Which versions a list of constraints holds.

ghost use Rattle.std.specs.Prelude.{◌≡◌};
ghost use Rattle.vx_vers.specs.Meaning.{meaning};
ghost use Rattle.vx_vers.specs.Steps.Passing.{holds_below, holds_own};

use crate::constraints::{Comparator, Constraint, Constraints};
use std::cmp::Ordering;
use vx_scheme::Scheme;

impl<S: Scheme> Constraints<S> {
    /// Whether the list holds the version. It takes no memory.
    pub fn contains(&self, version: &S::Version) -> bool
        ensures { result ≡ meaning S.order version.now self.now }
    {
        let list = self.as_slice();
        let mut opens = false;
        let mut only_holes = true;
        for (i, constraint) in list.iter().enumerate() {
            let comparator = constraint.comparator;
            match S::compare(&constraint.version, version) {
                Ordering::Less => {
                    opens = comparator.opens_after(opens);
                    only_holes = only_holes && comparator.is_not_equal();
                }
                Ordering::Equal => return has_own(opens, comparator, &list[i + 1..]),
                Ordering::Greater => return has_below(opens, only_holes, &list[i..]),
            }
        }
        opens || only_holes
    }
}

/// Whether a list holds the version of one of its constraints, with what stands behind it. `opens` says whether the
/// last cut in front of it opens.
fn has_own<V>(opens: bool, comparator: Comparator, behind: &[Constraint<V>]) -> bool
    ensures { result ≡ holds_own opens comparator behind.now }
{
    match comparator {
        Comparator::Equal | Comparator::LessEqual | Comparator::GreaterEqual => true,
        Comparator::NotEqual => false,
        Comparator::Less => has_below(false, false, behind),
        Comparator::Greater => opens,
    }
}

/// Whether a list holds the versions directly below some constraints. `opens` says whether the last cut in front of
/// them opens, and `only_holes` whether nothing but `!=` stands there.
fn has_below<V>(opens: bool, only_holes: bool, list: &[Constraint<V>]) -> bool
    ensures { result ≡ holds_below opens only_holes list.now }
{
    let mut only_holes = only_holes;
    for constraint in list {
        match constraint.comparator {
            Comparator::NotEqual => {}
            Comparator::Equal => only_holes = false,
            Comparator::Less | Comparator::LessEqual => return true,
            Comparator::Greater | Comparator::GreaterEqual => return opens,
        }
    }
    opens || only_holes
}
