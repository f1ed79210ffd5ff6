ghost use Rattle.std.specs.Prelude.{◌≡◌};
ghost use Rattle.rpm_scheme.specs.Order.{AnswersKeys, order_of, release_key};
ghost use Rattle.vx_order.specs.Letters.{letters_cmp};
ghost use Rattle.rpm_scheme.specs.Version.{Fields, end_rank, without_release};

use crate::version::RpmVersion;
use std::cmp::Ordering;
use vx_order::{Letters, compare_letters};

// The end of a list of letters.
const END_RANK: u32 = 1;

/// How two versions compare. It takes no memory.
pub(crate) fn compare_versions(a: &RpmVersion, b: &RpmVersion) -> Ordering
    ensures order { result ≡ order_of a.now b.now }
    ensures places { AnswersKeys a.now b.now result }
{
    compare_parts(a, b)
}

fn compare_parts(a: &RpmVersion, b: &RpmVersion) -> Ordering
    ensures { result ≡ order_of a.now b.now }
{
    a.epoch
        .cmp(&b.epoch)
        .then_with(|| compare_letters(&a.version, &b.version, END_RANK))
        .then_with(|| compare_releases(&a.release, &b.release))
}

// No release is below any.
fn compare_releases(a: &Option<Letters>, b: &Option<Letters>) -> Ordering
    ensures { result ≡ letters_cmp end_rank (release_key a.now) (release_key b.now) }
{
    match (a, b) {
        (Some(a), Some(b)) => compare_letters(a, b, END_RANK),
        (Some(_), None) => Ordering::Greater,
        (None, Some(_)) => Ordering::Less,
        (None, None) => Ordering::Equal,
    }
}

/// How two versions compare without their releases. It takes no memory.
pub fn compare_without_release(a: &RpmVersion, b: &RpmVersion) -> Ordering
    ensures { result ≡ order_of (without_release a.now) (without_release b.now) }
{
    let epochs = a.epoch.cmp(&b.epoch);
    epochs.then_with(|| compare_letters(&a.version, &b.version, END_RANK))
}

/// The order goes by the first place at which the keys of two versions differ, with numerals of any size.
pub fn order_by_first_difference()
    ensures { (a b : Fields) → AnswersKeys a b (order_of a b) }
{}
