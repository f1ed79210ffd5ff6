ghost use Rattle.std.specs.Prelude.{◌≡◌, ◌≢◌, ◌++◌, ◌↔◌, [], ◌∷◌, ℕ, List, IfOk, OnOk, IsTrue, MatchOption};
ghost use Rattle.vx_spec.specs.Marks.{Lacks};
ghost use Rattle.vx_text.specs.Escapes.{unescaped};
ghost use Rattle.purl_core.specs.Value.{is_dots};
ghost use Rattle.purl_core.specs.Places.{IsText, value_in, values};
ghost use Rattle.purl_core.specs.Steps.Placing.{EndsWithin, IsWithin, left, listed_part, part_view};
ghost use Rattle.purl_core.specs.Steps.Reads.{IsDecoded, IsNothing, IsPath, IsSubpath, IsTheText, IsVersionOf, without_dots};

use crate::checking::value_of;
use crate::fault::PurlFault;
use crate::placing::{Part, Walk};
use crate::value::Segments;
use percent_encoding::{DecodeError, percent_decode};
use std::alloc::Global;
use std::str;
use vx_scheme::{NoMemory, Text};

/// Whether there is no '%', so that the bytes stand for themselves. It takes no memory.
pub(crate) fn is_plain(bytes: &[u8]) -> bool
    ensures { IsTrue result → Lacks 37 bytes.now }
{
    !bytes.contains(&b'%')
}

/// The text that the bytes stand for, or `None` where they stand for no UTF-8. It takes one allocation.
pub(crate) fn decode(alloc: Global, bytes: &[u8]) -> Result<Option<Text>, NoMemory>
    ensures { IfOk result (λ found. MatchOption found (¬ (IsText bytes.now)) (λ text. IsText bytes.now × (text ≡ unescaped bytes.now))) }
{
    if is_plain(bytes) {
        return copy_plain(alloc, bytes);
    }
    match percent_decode(bytes).decode_utf8(alloc) {
        Ok(plain) => Ok(Some(Text::from_string(plain.into_owned(alloc)?))),
        Err(DecodeError::Utf8(_)) => Ok(None),
        Err(DecodeError::OutOfMemory) => Err(NoMemory),
    }
}

/// The same of bytes without a '%'.
fn copy_plain(alloc: Global, bytes: &[u8]) -> Result<Option<Text>, NoMemory>
    requires { Lacks 37 bytes.now }
    ensures { IfOk result (λ found. MatchOption found (¬ (IsText bytes.now)) (λ text. IsText bytes.now × (text ≡ unescaped bytes.now))) }
{
    match str::from_utf8(bytes) {
        Ok(text) => Ok(Some(Text::copy_of(alloc, text)?)),
        Err(_) => Ok(None),
    }
}

/// Whether the bytes stand for UTF-8. Bytes without an escape take no memory.
fn is_text(alloc: Global, bytes: &[u8]) -> Result<bool, NoMemory>
    ensures { IfOk result (λ told. IsTrue told ↔ IsText bytes.now) }
{
    match percent_decode(bytes).decode_utf8(alloc) {
        Ok(_) => Ok(true),
        Err(DecodeError::Utf8(_)) => Ok(false),
        Err(DecodeError::OutOfMemory) => Err(NoMemory),
    }
}

fn read_text(alloc: Global, part: Part) -> Result<Text, PurlFault>
    ensures { IsDecoded IsTheText (part_view part.entry ∷ []) result }
{
    match decode(alloc, part.bytes)? {
        Some(text) => Ok(text),
        None => Err(PurlFault::NotText(part.at)),
    }
}

/// The segments before the last one, and the last one, which is the name.
pub(crate) fn read_path(alloc: Global, path: Walk) -> Result<(Segments, Text), PurlFault>
    requires within { IsWithin path }
    requires some { left path ≢ [] }
    ensures { IsDecoded IsPath (left path.entry) result }
{
    let mut walk = path;
    let Some(first) = walk.next_part() else {
        unreachable!();
    };
    let mut part = first;
    let mut namespace = Segments::with_room(alloc, walk.count())?;
    'segments: while let Some(next) = walk.next_part() {
        namespace.push(read_text(alloc, part)?)?;
        part = next;
    }
    let name = read_text(alloc, part)?;
    Ok((namespace, name))
}

/// The version, where there is one.
pub(crate) fn read_version(alloc: Global, version: Option<Part>) -> Result<Option<Text>, PurlFault>
    ensures { IsDecoded IsVersionOf (listed_part version.entry) result }
{
    match version {
        Some(part) => Ok(Some(read_text(alloc, part)?)),
        None => Ok(None),
    }
}

/// Refuses a value of a piece that stands for no UTF-8.
pub(crate) fn check_values(alloc: Global, pieces: Walk) -> Result<(), PurlFault>
    requires { IsWithin pieces }
    ensures { IsDecoded IsNothing (values (left pieces.entry)) result }
{
    let mut walk = pieces;
    'pieces: while let Some(piece) = walk.next_part() {
        check_value(alloc, value_of(piece))?;
    }
    Ok(())
}

fn check_value(alloc: Global, value: Option<Part>) -> Result<(), PurlFault>
    ensures { IsDecoded IsNothing (listed_part value.entry) result }
{
    let Some(part) = value else {
        return Ok(());
    };
    if is_text(alloc, part.bytes)? {
        Ok(())
    } else {
        Err(PurlFault::NotText(part.at))
    }
}

/// The segments of a subpath that are neither '.' nor '..'.
pub(crate) fn read_subpath(alloc: Global, subpath: Walk) -> Result<Segments, PurlFault>
    requires { IsWithin subpath }
    ensures { IsDecoded IsSubpath (left subpath.entry) result }
{
    let mut walk = subpath;
    let mut segments = Segments::with_room(alloc, walk.count())?;
    'segments: while let Some(part) = walk.next_part() {
        push_segment(&mut segments, read_text(alloc, part)?)?;
    }
    Ok(segments)
}

/// Appends a segment, unless it is '.' or '..'.
fn push_segment(segments: &mut Segments, segment: Text) -> Result<(), NoMemory>
    ensures { OnOk result (segments.new ≡ segments.old ++ without_dots (segment ∷ [])) }
{
    if is_dots(segment.as_str()) {
        return Ok(());
    }
    segments.push(segment)
}

/// Whether the segment is '.' or '..'.
fn is_dots(segment: &str) -> bool
    ensures { result ≡ is_dots segment.now }
{
    segment == "." || segment == ".."
}
