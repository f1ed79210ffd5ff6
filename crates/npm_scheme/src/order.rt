ghost use Rattle.std.specs.Prelude.{◌≡◌};
ghost use Rattle.npm_scheme.specs.Version.{Fields};
ghost use Rattle.npm_scheme.specs.Order.{order_of, AnswersKeys};

use crate::version::NpmVersion;
use std::cmp::Ordering;
use vx_order::{EmptyPlace, IdentRule, NumberPlace, WordOrder, compare_idents};

// How pre-releases compare.
const PRE_RULE: IdentRule = IdentRule {
    numbers: NumberPlace::BelowWords,
    words: WordOrder::Exact,
    empty: EmptyPlace::Highest,
};

/// How two versions compare. It takes no memory.
pub(crate) fn compare_versions(a: &NpmVersion, b: &NpmVersion) -> Ordering
    ensures order { result ≡ order_of a.now b.now }
    ensures places { AnswersKeys a.now b.now result }
{
    compare_fields(a, b)
}

fn compare_fields(a: &NpmVersion, b: &NpmVersion) -> Ordering
    ensures { result ≡ order_of a.now b.now }
{
    a.major
        .cmp(&b.major)
        .then(a.minor.cmp(&b.minor))
        .then(a.patch.cmp(&b.patch))
        .then_with(|| compare_idents(a.pre.as_slice(), b.pre.as_slice(), PRE_RULE))
}

/// The order goes by the first place at which the keys of two versions differ, with numerals of any size.
pub fn order_by_first_difference()
    ensures { (a b : Fields) → AnswersKeys a b (order_of a b) }
{}
