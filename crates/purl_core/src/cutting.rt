ghost use Rattle.std.specs.Prelude.{◌≡◌, ◌≢◌, ◌==◌, ◌<◌, ◌-◌, ◌↔◌, ℕ, length, slice_index, map, IsTrue, List, not, Option, Some, None, MatchOption};
ghost use Rattle.std.specs.Option.{option_copied};
ghost use Rattle.std.specs.List.{list_all, list_any};
ghost use Rattle.vx_spec.specs.Marks.{IsLastCut};
ghost use Rattle.purl_core.specs.Cuts.{IsVersionCut};
ghost use Rattle.purl_core.specs.Grammar.{is_kind_byte, is_kind, IsEnded, HasScheme, HasType, HasSegment};
ghost use Rattle.purl_core.specs.Steps.Cutting.{IsPurlCut};

use vx_text::{ByteClass, cut_bytes, cut_run, last_cut};

/// Whether an '@' stands at this place that is not directly behind a '/'.
fn counts(text: &[u8], at: usize) -> bool
    requires { at < length text.now }
    ensures { IsTrue result ↔ ((slice_index text.now at ≡ 64) × (0 < at) × (slice_index text.now (at - 1) ≢ 47)) }
{
    text[at] == b'@' && at > 0 && text[at - 1] != b'/'
}

/// Where the last '@' stands that is not directly behind a '/'.
fn version_place(text: &[u8]) -> Option<usize>
    ensures { MatchOption result
        ((i : ℕ) → i < length text.now → slice_index text.now i ≡ 64 → 0 < i → slice_index text.now (i - 1) ≡ 47)
        (λ at. (at < length text.now) × (slice_index text.now at ≡ 64) × (0 < at) × (slice_index text.now (at - 1) ≢ 47)
        × ((i : ℕ) → at < i → i < length text.now → slice_index text.now i ≡ 64 → slice_index text.now (i - 1) ≡ 47)) }
{
    'places: for at in (0..text.len()).rev() {
        if counts(text, at) {
            return Some(at);
        }
    }
    None
}

/// A text behind a '/' is a path and a version.
fn version_cut(text: &[u8]) -> (&[u8], Option<&[u8]>)
    ensures { IsVersionCut text.now result.0.now (option_copied result.1) }
{
    match version_place(text) {
        Some(at) => (&text[..at], Some(&text[at + 1..])),
        None => (text, None),
    }
}

fn has_kind_bytes(text: &[u8]) -> bool
    ensures { result ≡ list_all is_kind_byte text.now }
{
    text.iter().all(|byte| {
        byte.is_ascii_alphanumeric() || *byte == b'.' || *byte == b'+' || *byte == b'-'
    })
}

fn is_kind(text: &[u8]) -> bool
    ensures { result ≡ is_kind text.now }
{
    match text {
        [first, rest @ ..] => first.is_ascii_alphabetic() && has_kind_bytes(rest),
        _ => false,
    }
}

/// The slash.
struct Slashes;

impl ByteClass for Slashes {
    ghost holds = { λ b. b == 47 };

    fn is_one(byte: u8) -> bool {
        byte == b'/'
    }
}

/// Why a text is not cut.
#[derive(Clone, Copy)]
pub(crate) enum CutFault {
    Scheme,
    BadType,
    Name,
}

/// The raw parts of the text of a package URL.
#[derive(Clone, Copy)]
pub(crate) struct Raw<'a> {
    pub scheme: &'a [u8],
    pub slashes: &'a [u8],
    pub kind: &'a [u8],
    pub path: &'a [u8],
    pub version: Option<&'a [u8]>,
    pub qualifiers: Option<&'a [u8]>,
    pub subpath: Option<&'a [u8]>,
}

/// The bytes before the last mark, and those behind it. Most texts lack it, which a search in any order tells soonest.
fn cut_last(text: &[u8], mark: u8) -> (&[u8], Option<&[u8]>)
    ensures { IsLastCut mark text.now result.0.now (option_copied result.1) }
{
    if text.contains(&mark) {
        last_cut(text, mark)
    } else {
        (text, None)
    }
}

/// The body, the qualifiers and the subpath.
fn cut_ends(text: &[u8]) -> (&[u8], Option<&[u8]>, Option<&[u8]>)
    ensures { IsEnded text.now result.0.now (option_copied result.1) (option_copied result.2) }
{
    let (front, subpath) = cut_last(text, b'#');
    let (body, qualifiers) = cut_last(front, b'?');
    (body, qualifiers, subpath)
}

/// The scheme and what stands behind its ':'.
fn cut_scheme(body: &[u8]) -> Option<(&[u8], &[u8])>
    ensures { MatchOption result ((scheme rest : List ℕ) → ¬ (HasScheme body.now scheme rest)) (λ p. HasScheme body.now p.0.now p.1.now) }
{
    let (scheme, behind) = cut_bytes(body, b':');
    let Some(rest) = behind else {
        return None;
    };
    if scheme.eq_ignore_ascii_case(b"pkg") {
        Some((scheme, rest))
    } else {
        None
    }
}

/// The slashes, the type, and what stands behind the next slash.
fn cut_type(rest: &[u8]) -> Option<(&[u8], &[u8], Option<&[u8]>)>
    ensures { MatchOption result
        ((slashes kind : List ℕ) (behind : Option (List ℕ)) → ¬ (HasType rest.now slashes kind behind))
        (λ p. HasType rest.now p.0.now p.1.now (option_copied p.2)) }
{
    let (slashes, text) = cut_run::<Slashes>(rest);
    let (kind, behind) = cut_bytes(text, b'/');
    if is_kind(kind) {
        Some((slashes, kind, behind))
    } else {
        None
    }
}

fn has_other(path: &[u8]) -> bool
    ensures { result ≡ list_any (λ b. not (b == 47)) path.now }
{
    path.iter().any(|byte| *byte != b'/')
}

/// Whether the path has a segment that is not empty.
fn has_segment(path: &[u8]) -> bool
    ensures { IsTrue result ↔ HasSegment path.now }
{
    has_other(path)
}

/// The raw parts of a text.
pub(crate) fn cut_raw(text: &[u8]) -> Result<Raw<'_>, CutFault>
    ensures { IsPurlCut text.now result }
{
    let (body, qualifiers, subpath) = cut_ends(text);
    let Some((scheme, rest)) = cut_scheme(body) else {
        return Err(CutFault::Scheme);
    };
    let Some((slashes, kind, behind)) = cut_type(rest) else {
        return Err(CutFault::BadType);
    };
    let Some(behind) = behind else {
        return Err(CutFault::Name);
    };
    let (path, version) = version_cut(behind);
    if has_segment(path) {
        Ok(Raw {
            scheme,
            slashes,
            kind,
            path,
            version,
            qualifiers,
            subpath,
        })
    } else {
        Err(CutFault::Name)
    }
}
