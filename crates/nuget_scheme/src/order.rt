ghost use Rattle.std.specs.Prelude.{◌≡◌};
ghost use Rattle.nuget_scheme.specs.Version.{Fields};
ghost use Rattle.nuget_scheme.specs.Order.{order_of, AnswersKeys};

use crate::version::NugetVersion;
use std::cmp::Ordering;
use vx_order::{EmptyPlace, IdentRule, NumberPlace, WordOrder, compare_idents};

// How labels compare.
const LABEL_RULE: IdentRule = IdentRule {
    numbers: NumberPlace::BelowWords,
    words: WordOrder::Folded,
    empty: EmptyPlace::Highest,
};

/// How two versions compare. It takes no memory.
pub(crate) fn compare_versions(a: &NugetVersion, b: &NugetVersion) -> Ordering
    ensures order { result ≡ order_of a.now b.now }
    ensures places { AnswersKeys a.now b.now result }
{
    compare_fields(a, b)
}

fn compare_fields(a: &NugetVersion, b: &NugetVersion) -> Ordering
    ensures { result ≡ order_of a.now b.now }
{
    a.major
        .cmp(&b.major)
        .then(a.minor.cmp(&b.minor))
        .then(a.patch.cmp(&b.patch))
        .then(a.fourth.cmp(&b.fourth))
        .then_with(|| compare_idents(a.labels.as_slice(), b.labels.as_slice(), LABEL_RULE))
}

/// The order goes by the first place at which the keys of two versions differ, with numerals of any size.
pub fn order_by_first_difference()
    ensures { (a b : Fields) → AnswersKeys a b (order_of a b) }
{}
