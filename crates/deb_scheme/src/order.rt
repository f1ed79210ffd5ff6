ghost use Rattle.std.specs.Prelude.{◌≡◌};
ghost use Rattle.deb_scheme.specs.Version.{Fields};
ghost use Rattle.deb_scheme.specs.Order.{order_of, AnswersKeys};

use crate::version::DebVersion;
use std::cmp::Ordering;
use vx_order::compare_letters;

// The end of a list of letters.
const END_RANK: u32 = 1;

/// How two versions compare. It takes no memory.
pub(crate) fn compare_versions(a: &DebVersion, b: &DebVersion) -> Ordering
    ensures order { result ≡ order_of a.now b.now }
    ensures places { AnswersKeys a.now b.now result }
{
    compare_parts(a, b)
}

fn compare_parts(a: &DebVersion, b: &DebVersion) -> Ordering
    ensures { result ≡ order_of a.now b.now }
{
    a.epoch
        .cmp(&b.epoch)
        .then_with(|| compare_letters(&a.upstream, &b.upstream, END_RANK))
        .then_with(|| compare_letters(&a.revision, &b.revision, END_RANK))
}

/// The order goes by the first place at which the keys of two versions differ, with numerals of any size.
pub fn order_by_first_difference()
    ensures { (a b : Fields) → AnswersKeys a b (order_of a b) }
{}
