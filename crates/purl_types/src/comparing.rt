ghost use Rattle.std.specs.Prelude.{◌≡◌, ◌↔◌, IsTrue, map};
ghost use Rattle.purl_core.specs.Value.{pair_view};
ghost use Rattle.vx_spec.specs.Each.{AreEach};
ghost use Rattle.purl_types.specs.Same.{IsDash, Same, SameLetter, SameSign, SameText};
ghost use Rattle.purl_types.specs.Canonical.{IsComparedAs};

use crate::table::{Folding, Row, row_of};
use purl_core::{Pair, Purl, PurlFault, read};
use std::alloc::Global;
use vx_scheme::Text;
use vx_text::same_folded;

/// Whether two texts spell package URLs that mean the same package. The refusal is that of the first text; only where it
/// has none, that of the second. One text given twice is read once.
pub fn same(alloc: Global, a: &str, b: &str) -> Result<bool, PurlFault>
    ensures { IsComparedAs a.now b.now result }
{
    let first = match read(alloc, a) {
        Ok(first) => first,
        Err(fault) => return Err(fault),
    };
    if a == b {
        return Ok(true);
    }
    match read(alloc, b) {
        Ok(second) => Ok(is_same(&first, &second)),
        Err(fault) => Err(fault),
    }
}

/// Whether two package URLs mean the same package by their types. It takes no memory.
pub fn is_same(a: &Purl, b: &Purl) -> bool
    ensures { IsTrue result ↔ Same a.now b.now }
{
    if a.kind.as_str() != b.kind.as_str() {
        return false;
    }
    let row = row_of(a.kind.as_str());
    same_path(row, a, b) && equal_rest(a, b)
}

/// Whether the namespaces and the names are one, as a row of the type table says.
fn same_path(row: Row, a: &Purl, b: &Purl) -> bool
    ensures { IsTrue result ↔ (AreEach (SameText row.namespace) a.now.namespace b.now.namespace × SameText row.name a.now.name b.now.name) }
{
    same_texts(
        row.namespace,
        a.namespace.as_slice(),
        b.namespace.as_slice(),
    ) && same_text(row.name, a.name.as_str(), b.name.as_str())
}

/// Whether all behind the names is equal.
fn equal_rest(a: &Purl, b: &Purl) -> bool
    ensures { IsTrue result ↔ ((a.now.version ≡ b.now.version) × ((a.now.qualifiers ≡ b.now.qualifiers) × (a.now.subpath ≡ b.now.subpath))) }
{
    equal_options(&a.version, &b.version) && equal_ends(a, b)
}

/// Whether the qualifiers and the subpaths are equal.
fn equal_ends(a: &Purl, b: &Purl) -> bool
    ensures { IsTrue result ↔ ((a.now.qualifiers ≡ b.now.qualifiers) × (a.now.subpath ≡ b.now.subpath)) }
{
    equal_pairs(a.qualifiers.as_slice(), b.qualifiers.as_slice())
        && equal_texts(a.subpath.as_slice(), b.subpath.as_slice())
}

fn same_texts(folding: Folding, a: &[Text], b: &[Text]) -> bool
    ensures { IsTrue result ↔ AreEach (SameText folding) a.now b.now }
{
    if a.len() != b.len() {
        return false;
    }
    'texts: for i in 0..a.len() {
        if !same_text(folding, a[i].as_str(), b[i].as_str()) {
            return false;
        }
    }
    true
}

fn same_text(folding: Folding, a: &str, b: &str) -> bool
    ensures { IsTrue result ↔ SameText folding a.now b.now }
{
    match folding {
        Folding::Kept => a == b,
        Folding::Lowered => same_letters(a, b),
        Folding::Dashed => same_signs(a.as_bytes(), b.as_bytes()),
    }
}

fn same_letters(a: &str, b: &str) -> bool
    ensures { IsTrue result ↔ AreEach SameLetter a.now b.now }
{
    same_folded(a, b)
}

fn same_signs(a: &[u8], b: &[u8]) -> bool
    ensures { IsTrue result ↔ AreEach SameSign a.now b.now }
{
    if a.len() != b.len() {
        return false;
    }
    'bytes: for i in 0..a.len() {
        if !same_sign(a[i], b[i]) {
            return false;
        }
    }
    true
}

fn same_sign(a: u8, b: u8) -> bool
    ensures { IsTrue result ↔ SameSign a b }
{
    a.to_ascii_lowercase() == b.to_ascii_lowercase() || (is_dash(a) && is_dash(b))
}

fn is_dash(byte: u8) -> bool
    ensures { IsTrue result ↔ IsDash byte }
{
    byte == b'-' || byte == b'_'
}

fn equal_options(a: &Option<Text>, b: &Option<Text>) -> bool
    ensures { IsTrue result ↔ (a.now ≡ b.now) }
{
    match (a, b) {
        (Some(a), Some(b)) => a.as_str() == b.as_str(),
        (None, None) => true,
        _ => false,
    }
}

fn equal_pairs(a: &[Pair], b: &[Pair]) -> bool
    ensures { IsTrue result ↔ (map pair_view a.now ≡ map pair_view b.now) }
{
    each_equal(a, b)
}

fn each_equal(a: &[Pair], b: &[Pair]) -> bool
    ensures { IsTrue result ↔ AreEach (λ x y. pair_view x ≡ pair_view y) a.now b.now }
{
    if a.len() != b.len() {
        return false;
    }
    'pairs: for i in 0..a.len() {
        if !equal_pair(&a[i], &b[i]) {
            return false;
        }
    }
    true
}

fn equal_pair(a: &Pair, b: &Pair) -> bool
    ensures { IsTrue result ↔ (pair_view a.now ≡ pair_view b.now) }
{
    a.key.as_str() == b.key.as_str() && a.value.as_str() == b.value.as_str()
}

fn equal_texts(a: &[Text], b: &[Text]) -> bool
    ensures { IsTrue result ↔ (a.now ≡ b.now) }
{
    same_texts(Folding::Kept, a, b)
}
