ghost use Rattle.std.specs.Prelude.{◌≡◌, ◌++◌, [], ◌∷◌, map, codes, IfOk, IsTrue, OnOk, OnErr};
ghost use Rattle.std.specs.List.{list_all};
ghost use Rattle.std.specs.Option.{option_map};
ghost use Rattle.vx_spec.specs.Marks.{marked};
ghost use Rattle.vx_text.specs.Escapes.{escaped, is_left};
ghost use Rattle.purl_core.specs.Value.{IsValid, Package, pair_view};
ghost use Rattle.purl_core.specs.Printed.{pair_text, purl_text};
ghost use Rattle.purl_core.specs.Spelling.{SpellsPurl};
ghost use Rattle.purl_core.specs.Steps.Written.{IsGrown, signed_pairs, signed_segments};

use crate::value::{Pair, Purl};
use percent_encoding::{AsciiSet, NON_ALPHANUMERIC, ascii_set, utf8_percent_encode};
use std::alloc::Global;
use vx_scheme::{NoMemory, Text};
use vx_text::is_left;

/// Every ASCII byte but letters, digits and `. - _ ~ :`.
const ESCAPED: AsciiSet = ascii_set!(
    NON_ALPHANUMERIC
        .remove(b'.')
        .remove(b'-')
        .remove(b'_')
        .remove(b'~')
        .remove(b':')
);

/// Room for what makes the text an answer line, so that the line takes no memory of its own: a word and a tab in front,
/// and a line feed behind.
const ROOM_FOR_A_LINE: usize = 8;

/// The text of a package URL, which is read again as the same. It takes one allocation, with room for a line.
pub fn to_text(alloc: Global, purl: &Purl) -> Result<Text, NoMemory>
    ensures text { IfOk result (λ text. text ≡ purl_text purl.now) }
    ensures again { IfOk result (λ text. SpellsPurl text purl.now) }
{
    let mut text = Text::with_room(alloc, room(purl).saturating_add(ROOM_FOR_A_LINE))?;
    push_purl(&mut text, purl)?;
    Ok(text)
}

/// Appends the text of a package URL, which is read again as the same. A refused call leaves `out` as it was. It takes
/// no memory where `out` has room.
pub fn write(purl: &Purl, out: &mut Text) -> Result<(), NoMemory>
    ensures ok { OnOk result (out.new ≡ out.old ++ purl_text purl.now) }
    ensures err { OnErr result (out.new ≡ out.old) }
    ensures valid { IsValid purl.now }
    ensures again { SpellsPurl (purl_text purl.now) purl.now }
{
    let len = out.as_str().len();
    match push_purl(out, purl) {
        Ok(()) => Ok(()),
        Err(fault) => {
            out.cut(len);
            Err(fault)
        }
    }
}

/// How many bytes the text of a package URL has at most: each byte of its components may be escaped, into three.
fn room(purl: &Purl) -> usize {
    let mut bytes = purl.kind.len().saturating_add("pkg:".len());
    bytes = bytes.saturating_add(segments_room(purl.namespace.as_slice()));
    bytes = bytes.saturating_add(signed_room(&purl.name));
    if let Some(version) = &purl.version {
        bytes = bytes.saturating_add(signed_room(version));
    }
    bytes = bytes.saturating_add(pairs_room(purl.qualifiers.as_slice()));
    bytes.saturating_add(segments_room(purl.subpath.as_slice()))
}

fn segments_room(segments: &[Text]) -> usize {
    let mut bytes: usize = 0;
    for segment in segments {
        bytes = bytes.saturating_add(signed_room(segment));
    }
    bytes
}

fn pairs_room(pairs: &[Pair]) -> usize {
    let mut bytes: usize = 0;
    for pair in pairs {
        bytes = bytes
            .saturating_add(pair.key.len())
            .saturating_add(1)
            .saturating_add(signed_room(&pair.value));
    }
    bytes
}

/// The same of a sign and an escaped text.
fn signed_room(text: &Text) -> usize {
    text.len().saturating_mul(3).saturating_add(1)
}

fn push_purl(out: &mut Text, purl: &Purl) -> Result<(), NoMemory>
    ensures ok { OnOk result (out.new ≡ out.old ++ purl_text purl.now) }
    ensures err { OnErr result (IsGrown out.old out.new) }
    ensures valid { IsValid purl.now }
{
    push_body(out, purl)?;
    push_pairs(out, purl.qualifiers.as_slice())?;
    push_segments(out, "#", purl.subpath.as_slice())
}

/// Appends the scheme, the type, the path and the version.
fn push_body(out: &mut Text, purl: &Purl) -> Result<(), NoMemory>
    ensures ok { OnOk result (out.new ≡ out.old ++ codes "pkg:" ++ purl.now.kind
        ++ signed_segments (codes "/") purl.now.namespace ++ (codes "/" ++ escaped purl.now.name)
        ++ marked 64 (option_map escaped purl.now.version)) }
    ensures err { OnErr result (IsGrown out.old out.new) }
    ensures valid { IsValid purl.now }
{
    let kind = purl.kind.as_str();
    out.push_str("pkg:")?;
    out.push_str(kind)?;
    push_segments(out, "/", purl.namespace.as_slice())?;
    push_signed(out, "/", purl.name.as_str())?;
    match &purl.version {
        Some(version) => push_signed(out, "@", version.as_str()),
        None => Ok(()),
    }
}

/// Appends the segments, the first behind its sign and the others behind a '/'.
fn push_segments(out: &mut Text, first: &str, segments: &[Text]) -> Result<(), NoMemory>
    ensures ok { OnOk result (out.new ≡ out.old ++ signed_segments first.now segments.now) }
    ensures err { OnErr result (IsGrown out.old out.new) }
{
    let mut sign = first;
    for segment in segments {
        push_signed(out, sign, segment.as_str())?;
        sign = "/";
    }
    Ok(())
}

/// Appends the pairs, the first behind a '?' and the others behind a '&'.
fn push_pairs(out: &mut Text, pairs: &[Pair]) -> Result<(), NoMemory>
    ensures ok { OnOk result (out.new ≡ out.old ++ signed_pairs (codes "?") (map pair_view pairs.now)) }
    ensures err { OnErr result (IsGrown out.old out.new) }
{
    let mut sign = "?";
    for pair in pairs {
        push_pair(out, sign, pair)?;
        sign = "&";
    }
    Ok(())
}

fn push_pair(out: &mut Text, sign: &str, pair: &Pair) -> Result<(), NoMemory>
    ensures ok { OnOk result (out.new ≡ out.old ++ (sign.now ++ pair_text (pair_view pair.now))) }
    ensures err { OnErr result (IsGrown out.old out.new) }
{
    out.push_str(sign)?;
    out.push_str(pair.key.as_str())?;
    push_signed(out, "=", pair.value.as_str())
}

/// Appends a sign and the escaped text.
fn push_signed(out: &mut Text, sign: &str, text: &str) -> Result<(), NoMemory>
    ensures ok { OnOk result (out.new ≡ out.old ++ (sign.now ++ escaped text.now)) }
    ensures err { OnErr result (IsGrown out.old out.new) }
{
    out.push_str(sign)?;
    push_escaped(out, text)
}

/// Appends the escaped text, as a whole where it stands for itself.
fn push_escaped(out: &mut Text, text: &str) -> Result<(), NoMemory>
    ensures ok { OnOk result (out.new ≡ out.old ++ escaped text.now) }
    ensures err { OnErr result (IsGrown out.old out.new) }
{
    if is_left(text.as_bytes()) {
        return push_left(out, text);
    }
    for piece in utf8_percent_encode(text, ESCAPED) {
        out.push_str(piece)?;
    }
    Ok(())
}

/// Appends a text that stands for itself.
fn push_left(out: &mut Text, text: &str) -> Result<(), NoMemory>
    requires { IsTrue (list_all is_left text.now) }
    ensures ok { OnOk result (out.new ≡ out.old ++ escaped text.now) }
    ensures err { OnErr result (IsGrown out.old out.new) }
{
    out.push_str(text)
}

/// The law that the printed text spells the package URL, and no two have one text.
pub fn printed_spells()
    ensures spells { (p : Package) → IsValid p → SpellsPurl (purl_text p) p }
    ensures one { (p q : Package) → IsValid p → IsValid q → purl_text p ≡ purl_text q → p ≡ q }
{}
