ghost use Rattle.std.specs.Prelude.{◌≡◌, suc, [], ◌∷◌, List, map};
ghost use Rattle.std.specs.Cmp.{IsTotalOrder};
ghost use Rattle.std.specs.Cmp.Lexicographic.{slice_cmp};
ghost use Rattle.std.specs.Ordering.{nat_cmp};
ghost use Rattle.vx_spec.specs.Places.{endless};
ghost use Rattle.vx_spec.specs.Rows.{rows_cmp};
ghost use Rattle.vx_scheme.specs.declared.ident.Ident.{Ident};
ghost use Rattle.vx_text.specs.Folding.{lowered};
ghost use Rattle.vx_order.specs.Idents.{empty_key, entry, entry_cmp, idents_cmp, IdentsCompareAs, number_rank, word_key};

use crate::places::compare_places;
use std::cmp::Ordering;
use vx_scheme::Ident;

/// Where numbers stand among the identifiers.
#[derive(Debug, Clone, Copy, PartialEq, Eq)]
pub enum NumberPlace {
    /// Below every word.
    BelowWords,
    /// Above every word.
    AboveWords,
}

/// How words compare.
#[derive(Debug, Clone, Copy, PartialEq, Eq)]
pub enum WordOrder {
    /// By their bytes.
    Exact,
    /// By their bytes, with the capital letters of ASCII lower-cased.
    Folded,
}

/// Where the empty list of identifiers stands.
#[derive(Debug, Clone, Copy, PartialEq, Eq)]
pub enum EmptyPlace {
    /// Below every other list.
    Lowest,
    /// Above every other list.
    Highest,
}

/// The rule by which the identifiers of a scheme compare.
#[derive(Debug, Clone, Copy, PartialEq, Eq)]
pub struct IdentRule {
    /// Where numbers stand.
    pub numbers: NumberPlace,
    /// How words compare.
    pub words: WordOrder,
    /// Where the empty list stands.
    pub empty: EmptyPlace,
}

/// How two lists of identifiers compare by the rule: the first place at which they differ decides, and a list that is not
/// empty is below a longer one that it begins. It takes no memory.
pub fn compare_idents(a: &[Ident], b: &[Ident], rule: IdentRule) -> Ordering
    ensures value { result ≡ idents_cmp rule a.now b.now }
    ensures places { IdentsCompareAs rule a.now b.now result }
{
    compare_keys(a, b, rule)
}

fn compare_keys(a: &[Ident], b: &[Ident], rule: IdentRule) -> Ordering
    ensures { result ≡ idents_cmp rule a.now b.now }
{
    match (a, b) {
        ([], []) => Ordering::Equal,
        ([], [ident, ..]) => compare_empty(ident, rule),
        ([ident, ..], []) => compare_empty(ident, rule).reverse(),
        _ => compare_entries(a, b, rule),
    }
}

// The empty list and one that begins with the identifier.
fn compare_empty(ident: &Ident, rule: IdentRule) -> Ordering
    ensures { (more : List Ident) → result ≡ idents_cmp rule [] (ident.now ∷ more) }
{
    match rule.empty {
        EmptyPlace::Lowest => Ordering::Less,
        EmptyPlace::Highest => Ordering::Greater,
    }
}

fn compare_entries(a: &[Ident], b: &[Ident], rule: IdentRule) -> Ordering
    ensures { result ≡ rows_cmp entry_cmp [] (map (entry rule) a.now) (map (entry rule) b.now) }
{
    compare_places(a.len().max(b.len()), |i| compare_at(a, b, rule, i))
}

// The identifiers at a place, where one list may have ended.
fn compare_at(a: &[Ident], b: &[Ident], rule: IdentRule, i: usize) -> Ordering
    ensures { result ≡ entry_cmp (endless [] (map (entry rule) a.now) i) (endless [] (map (entry rule) b.now) i) }
{
    match (a.get(i), b.get(i)) {
        (Some(x), Some(y)) => compare_ident(x, y, rule),
        (Some(_), None) => Ordering::Greater,
        (None, Some(_)) => Ordering::Less,
        (None, None) => Ordering::Equal,
    }
}

fn compare_ident(a: &Ident, b: &Ident, rule: IdentRule) -> Ordering
    ensures { result ≡ entry_cmp (entry rule a.now) (entry rule b.now) }
{
    match (a, b) {
        (Ident::Number(n), Ident::Number(m)) => n.cmp(m),
        (Ident::Word(v), Ident::Word(w)) => compare_words(v.as_str(), w.as_str(), rule.words),
        (Ident::Number(_), Ident::Word(_)) => compare_number_with_word(rule.numbers),
        (Ident::Word(_), Ident::Number(_)) => compare_number_with_word(rule.numbers).reverse(),
    }
}

fn compare_number_with_word(numbers: NumberPlace) -> Ordering
    ensures { result ≡ nat_cmp (number_rank numbers) 2 }
{
    match numbers {
        NumberPlace::BelowWords => Ordering::Less,
        NumberPlace::AboveWords => Ordering::Greater,
    }
}

fn compare_words(a: &str, b: &str, words: WordOrder) -> Ordering
    ensures { result ≡ slice_cmp nat_cmp (word_key words a.now) (word_key words b.now) }
{
    match words {
        WordOrder::Exact => a.as_bytes().cmp(b.as_bytes()),
        WordOrder::Folded => compare_folded(a.as_bytes(), b.as_bytes()),
    }
}

fn compare_folded(a: &[u8], b: &[u8]) -> Ordering
    ensures { result ≡ slice_cmp nat_cmp (lowered a.now) (lowered b.now) }
{
    compare_places(a.len().max(b.len()), |i| {
        folded_at(a, i).cmp(&folded_at(b, i))
    })
}

// The byte at a place, lower-cased and raised by one: 0 stands for the end, which is below every byte.
fn folded_at(text: &[u8], i: usize) -> u16
    ensures { result ≡ endless 0 (map suc (lowered text.now)) i }
{
    match text.get(i) {
        Some(byte) => u16::from(byte.to_ascii_lowercase()) + 1,
        None => 0,
    }
}

/// The order of lists of identifiers by a rule is total and transitive, and goes by the first place at which their keys
/// differ, with numbers of any size.
pub fn order_by_idents(rule: IdentRule)
    ensures total { IsTotalOrder (idents_cmp rule) }
    ensures places { (a b : List Ident) → IdentsCompareAs rule a b (idents_cmp rule a b) }
{}
