//! Laws of the definitions, each as the contract of a function that does nothing.

ghost use Rattle.std.specs.Prelude.{◌≡◌, true, List};
ghost use Rattle.vx_vers.specs.declared.constraints.Constraint.{Constraint};
ghost use Rattle.vx_vers.specs.Again.{IsSameList};
ghost use Rattle.vx_vers.specs.Alike.{EachAlike};
ghost use Rattle.vx_vers.specs.Meaning.{kind, meaning};
ghost use Rattle.vx_vers.specs.Sorted.{IsSorted};
ghost use Rattle.vx_vers.specs.Validity.{is_valid};
ghost use Rattle.vx_vers.specs.Walk.{walk};

use vx_scheme::Scheme;

/// On a valid sorted list the specification's walk says what the list means, for every version.
pub fn walk_means<S: Scheme>()
    ensures { (list : List (Constraint S.Version)) (v : S.Version) → IsSorted S.order list → is_valid kind list ≡ true →
        meaning S.order v list ≡ walk S.order v list }
{}

/// Lists with the same comparators and order-equal versions, place by place, mean the same.
pub fn same_lists_mean<S: Scheme>()
    ensures { (a b : List (Constraint S.Version)) (v : S.Version) → IsSameList S.order a b →
        meaning S.order v a ≡ meaning S.order v b }
{}

/// A list means the same at two versions with which each of its versions compares alike.
pub fn alike_mean_alike<S: Scheme>()
    ensures { (list : List (Constraint S.Version)) (v w : S.Version) → EachAlike S.order list v w →
        meaning S.order v list ≡ meaning S.order w list }
{}
