ghost use Rattle.std.specs.Prelude.{◌≡◌, map};
ghost use Rattle.std.specs.Ordering.{nat_cmp};
ghost use Rattle.vx_spec.specs.Places.{endless};
ghost use Rattle.vx_spec.specs.Rows.{rows_cmp};
ghost use Rattle.vx_order.specs.Letters.{letter_cmp, letters_cmp};
ghost use Rattle.pep440_scheme.specs.Version.{Fields};
ghost use Rattle.pep440_scheme.specs.Order.{AnswersKeys, dev_letter, end_rank, kind_rank, local_letter, number_letter, order_of, post_letter, pre_letter};

use crate::version::{Pep440Version, PreKind};
use std::cmp::Ordering;
use vx_order::{EmptyPlace, IdentRule, NumberPlace, WordOrder, compare_idents, compare_places};
use vx_scheme::Ident;

// How local version labels compare.
const LOCAL_RULE: IdentRule = IdentRule {
    numbers: NumberPlace::AboveWords,
    words: WordOrder::Exact,
    empty: EmptyPlace::Lowest,
};

/// How two versions compare. It takes no memory.
pub(crate) fn compare_versions(a: &Pep440Version, b: &Pep440Version) -> Ordering
    ensures order { result ≡ order_of a.now b.now }
    ensures places { AnswersKeys a.now b.now result }
{
    compare_fields(a, b)
}

fn compare_fields(a: &Pep440Version, b: &Pep440Version) -> Ordering
    ensures { result ≡ order_of a.now b.now }
{
    a.epoch
        .cmp(&b.epoch)
        .then_with(|| compare_releases(a.release.as_slice(), b.release.as_slice()))
        .then_with(|| compare_pres(a, b))
        .then_with(|| compare_posts(a.post, b.post))
        .then_with(|| compare_devs(a.dev, b.dev))
        .then_with(|| compare_locals(a.local.as_slice(), b.local.as_slice()))
}

fn compare_releases(a: &[u128], b: &[u128]) -> Ordering
    ensures { result ≡ letters_cmp end_rank (map number_letter a.now) (map number_letter b.now) }
{
    compare_places(a.len().max(b.len()), |i| {
        number_at(a, i).cmp(&number_at(b, i))
    })
}

// The number at a place of a release, which is 0 where it is missing.
fn number_at(release: &[u128], i: usize) -> u128
    ensures { result ≡ endless 0 release.now i }
{
    match release.get(i) {
        Some(number) => *number,
        None => 0,
    }
}

fn compare_pres(a: &Pep440Version, b: &Pep440Version) -> Ordering
    ensures { result ≡ letter_cmp (pre_letter a.now.pre a.now.post a.now.dev) (pre_letter b.now.pre b.now.post b.now.dev) }
{
    let (left, right) = (pre_place(a), pre_place(b));
    left.0.cmp(&right.0).then(left.1.cmp(&right.1))
}

// The rank of the pre-release, and its number.
fn pre_place(version: &Pep440Version) -> (u32, u128)
    ensures rank { result.0 ≡ (pre_letter version.now.pre version.now.post version.now.dev).rank }
    ensures number { result.1 ≡ (pre_letter version.now.pre version.now.post version.now.dev).number }
{
    match (version.pre, version.post, version.dev) {
        (Some(pre), _, _) => (kind_rank(pre.kind), pre.number),
        (None, None, Some(_)) => (0, 0),
        (None, _, _) => (4, 0),
    }
}

fn kind_rank(kind: PreKind) -> u32
    ensures { result ≡ kind_rank kind }
{
    match kind {
        PreKind::A => 1,
        PreKind::B => 2,
        PreKind::Rc => 3,
    }
}

fn compare_posts(a: Option<u128>, b: Option<u128>) -> Ordering
    ensures { result ≡ letter_cmp (post_letter a) (post_letter b) }
{
    match (a, b) {
        (Some(m), Some(n)) => m.cmp(&n),
        (Some(_), None) => Ordering::Greater,
        (None, Some(_)) => Ordering::Less,
        (None, None) => Ordering::Equal,
    }
}

fn compare_devs(a: Option<u128>, b: Option<u128>) -> Ordering
    ensures { result ≡ letter_cmp (dev_letter a) (dev_letter b) }
{
    match (a, b) {
        (Some(m), Some(n)) => m.cmp(&n),
        (Some(_), None) => Ordering::Less,
        (None, Some(_)) => Ordering::Greater,
        (None, None) => Ordering::Equal,
    }
}

fn compare_locals(a: &[Ident], b: &[Ident]) -> Ordering
    ensures { result ≡ letters_cmp end_rank (map local_letter a.now) (map local_letter b.now) }
{
    compare_idents(a, b, LOCAL_RULE)
}

/// The order goes by the first place at which the keys of two versions differ, with numerals of any size.
pub fn order_by_first_difference()
    ensures { (a b : Fields) → AnswersKeys a b (order_of a b) }
{}
