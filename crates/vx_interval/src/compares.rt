ghost use Rattle.std.specs.Prelude.{◌≡◌, ◌+◌};
ghost use Rattle.std.specs.Cmp.{IsTotalOrder};
ghost use Rattle.std.specs.declared.cmp.Ordering.{Ordering};
ghost use Rattle.vx_scheme.specs.Cuts.{cut_cmp};

use crate::counter::Steps;
use std::cmp::Ordering;
use std::marker::PhantomData;
use std::sync::ledger::Ledger;
use vx_scheme::{Cut, Scheme};

/// Items of an order, each comparison of which counts one step in the counter of one ledger. The
/// ledger is the caller's, so that code that is generic over these items can compare them in no
/// other counter than the one that it was given.
pub trait Compares<L: Ledger> {
    /// What is compared.
    type Item: Drop;

    /// The order.
    ghost order: { Self.Item → Self.Item → Ordering };

    /// How two items compare. It counts exactly one step, and takes no memory.
    fn compare_counted(a: &Self::Item, b: &Self::Item, steps: &mut Steps<L>) -> Ordering
        ensures value { result ≡ order a.now b.now }
        ensures step { steps.new ≡ steps.old + 1 };

    /// The order is total and transitive, and items that compare equal compare alike with every
    /// third one.
    ghost total: { IsTotalOrder order };
}

/// The versions of a scheme.
pub struct Counted<S: Scheme> {
    scheme: PhantomData<S>,
}

impl<S: Scheme, L: Ledger> Compares<L> for Counted<S> {
    type Item = S::Version;

    ghost order = { S.order };

    fn compare_counted(a: &S::Version, b: &S::Version, steps: &mut Steps<L>) -> Ordering {
        steps.tick();
        S::compare(a, b)
    }

    ghost total = { S.total };
}

/// How two cuts compare: by their versions, and before stands below after. It counts one step.
pub(crate) fn compare_cuts<C: Compares<L>, L: Ledger>(
    a: &Cut<C::Item>,
    b: &Cut<C::Item>,
    steps: &mut Steps<L>,
) -> Ordering
    ensures value { result ≡ cut_cmp C.order a.now b.now }
    ensures step { steps.new ≡ steps.old + 1 }
{
    C::compare_counted(&a.version, &b.version, steps).then(a.after.cmp(&b.after))
}
