ghost use Rattle.std.specs.Prelude.{◌≡◌, map, IfOk, IfSome, IsTrue, IsUtf8, Ok, false, string_bytes};
ghost use Rattle.vx_text.specs.Escapes.{unescaped};
ghost use Rattle.vx_text.specs.Folding.{lowered};
ghost use Rattle.purl_core.specs.Value.{Ascending, IsAboveLast, pair_view};
ghost use Rattle.purl_core.specs.Places.{AllPieces, AllText, HasPiece, IsText, value_in, values};
ghost use Rattle.purl_core.specs.Steps.Placing.{IsWithin, left, part_view};
ghost use Rattle.purl_core.specs.Steps.Pairing.{IsPaired, MayPair, PutsPair, PutsPiece, entry_view};
ghost use Rattle.purl_core.specs.Steps.Reads.{IsDecoded};

use crate::checking::{cut_piece, first_bad};
use crate::decoding::{check_values, decode};
use crate::fault::PurlFault;
use crate::placing::{Part, Walk};
use crate::value::{Pair, Pairs};
use std::alloc::Global;
use std::cmp::Ordering;
use std::collections::BTreeMap;
use std::str;
use vx_scheme::{NoMemory, Text};

/// The qualifiers of the pieces, where each piece is a pair whose key is above those before it; `None` for other pieces
/// whose values stand for UTF-8. It takes no memory where there is no pair.
pub(crate) fn read_values(alloc: Global, pieces: Walk) -> Result<Option<Pairs>, PurlFault>
    requires { IsWithin pieces }
    ensures { IsDecoded (λ found _. MayPair (left pieces.entry) found) (values (left pieces.entry)) result }
{
    match read_ascending(alloc, pieces)? {
        Some(pairs) => Ok(Some(pairs)),
        None => checked(alloc, pieces),
    }
}

/// No qualifiers, where the values stand for UTF-8.
fn checked(alloc: Global, pieces: Walk) -> Result<Option<Pairs>, PurlFault>
    requires { IsWithin pieces }
    ensures { IsDecoded (λ found _. MayPair (left pieces.entry) found) (values (left pieces.entry)) result }
{
    match check_values(alloc, pieces) {
        Ok(()) => Ok(None),
        Err(fault) => Err(fault),
    }
}

/// The qualifiers of the pieces, in the order of their keys. The first piece that is no pair is refused, and where each is
/// one, the first whose key stands in an earlier one. Pairs without a value are left out. It takes no memory where there
/// is no pair.
pub(crate) fn read_pairs(alloc: Global, pieces: Walk) -> Result<Pairs, PurlFault>
    requires within { IsWithin pieces }
    requires text { AllText (values (left pieces)) }
    ensures { IsPaired (left pieces.entry) result }
{
    if let Some(at) = first_bad(pieces) {
        return Err(PurlFault::Qualifier(at));
    }
    read_unordered(alloc, pieces)
}

/// The qualifiers of pieces of which each is a pair whose key is above those before it. Other pieces give `None`.
fn read_ascending(alloc: Global, pieces: Walk) -> Result<Option<Pairs>, NoMemory>
    requires { IsWithin pieces }
    ensures { IfOk result (λ found. IfSome found (λ pairs. AllText (values (left pieces.entry)) × IsPaired (left pieces.entry) (Ok pairs))) }
{
    let mut walk = pieces;
    let mut pairs = Pairs::new(alloc);
    'pieces: while let Some(piece) = walk.next_part() {
        let pushed = push_piece(alloc, &mut pairs, piece)?;
        if !pushed {
            return Ok(None);
        }
    }
    Ok(Some(pairs))
}

/// Appends the pair of a piece, and answers whether the piece is a pair of texts and its key is above the last one.
fn push_piece(alloc: Global, pairs: &mut Pairs, piece: Part) -> Result<bool, NoMemory>
    ensures { IfOk result (λ pushed. IsTrue pushed → AllText (value_in piece.entry.at piece.entry.bytes.now)
        × PutsPiece (map pair_view pairs.old) (map pair_view pairs.new) (part_view piece.entry) false) }
{
    let Some((key, value)) = cut_piece(piece.bytes) else {
        return Ok(false);
    };
    if value.is_empty() {
        return Ok(true);
    }
    push_pair(alloc, pairs, key, value)
}

fn push_pair(alloc: Global, pairs: &mut Pairs, key: &[u8], value: &[u8]) -> Result<bool, NoMemory>
    requires { IsUtf8 key.now }
    ensures { IfOk result (λ pushed. IsTrue pushed → IsText value.now
        × PutsPair (map pair_view pairs.old) (map pair_view pairs.new) (lowered key.now, unescaped value.now) false) }
{
    let key = Text::from_string(low_key(alloc, key)?);
    if !is_above_last(pairs.as_slice(), key.as_str()) {
        return Ok(false);
    }
    let Some(value) = decode(alloc, value)? else {
        return Ok(false);
    };
    pairs.push(Pair { key, value })?;
    Ok(true)
}

/// Whether a key is above that of the last pair.
fn is_above_last(pairs: &[Pair], key: &str) -> bool
    ensures { IsTrue result → IsAboveLast (map pair_view pairs.now) key.now }
{
    match pairs {
        [] => true,
        [.., last] => matches!(last.key.as_str().cmp(key), Ordering::Less),
    }
}

/// The qualifiers of pieces that are pairs, in any order, or where the first key stands twice.
fn read_unordered(alloc: Global, pieces: Walk) -> Result<Pairs, PurlFault>
    requires within { IsWithin pieces }
    requires good { AllPieces (left pieces) }
    requires text { AllText (values (left pieces)) }
    ensures { IsPaired (left pieces.entry) result }
{
    let mut walk = pieces;
    let mut found: BTreeMap<String, Text> = BTreeMap::new(alloc);
    'pieces: while let Some(piece) = walk.next_part() {
        let twice = put_piece(alloc, &mut found, piece)?;
        if twice {
            return Err(PurlFault::DuplicateKey(piece.at));
        }
    }
    Ok(in_order(alloc, found)?)
}

/// Puts the pair of a piece among those found, and answers whether its key stood there.
fn put_piece(
    alloc: Global,
    found: &mut BTreeMap<String, Text>,
    piece: Part,
) -> Result<bool, NoMemory>
    requires piece { HasPiece piece.bytes.now }
    requires text { AllText (value_in piece.at piece.bytes.now) }
    ensures { IfOk result (λ twice. PutsPiece (map entry_view found.old.entries) (map entry_view found.new.entries) (part_view piece.entry) twice) }
{
    let Some((key, value)) = cut_piece(piece.bytes) else {
        unreachable!();
    };
    if value.is_empty() {
        return Ok(false);
    }
    put_pair(alloc, found, key, value)
}

fn put_pair(
    alloc: Global,
    found: &mut BTreeMap<String, Text>,
    key: &[u8],
    value: &[u8],
) -> Result<bool, NoMemory>
    requires key { IsUtf8 key.now }
    requires text { IsText value.now }
    ensures { IfOk result (λ twice. PutsPair (map entry_view found.old.entries) (map entry_view found.new.entries) (lowered key.now, unescaped value.now) twice) }
{
    let low = low_key(alloc, key)?;
    let Some(plain) = decode(alloc, value)? else {
        unreachable!();
    };
    match found.insert(low, plain) {
        Ok(old) => Ok(old.is_some()),
        Err(_) => Err(NoMemory),
    }
}

fn low_key(alloc: Global, key: &[u8]) -> Result<String, NoMemory>
    requires { IsUtf8 key.now }
    ensures { IfOk result (λ low. string_bytes low ≡ lowered key.now) }
{
    match str::from_utf8(key) {
        Ok(text) => Ok(text.to_ascii_lowercase(alloc)?),
        Err(_) => unreachable!(),
    }
}

/// The pairs of a map, in the order of their keys.
fn in_order(alloc: Global, found: BTreeMap<String, Text>) -> Result<Pairs, NoMemory>
    requires { Ascending (map entry_view found.entries) }
    ensures { IfOk result (λ pairs. map pair_view pairs ≡ map entry_view found.entries) }
{
    let mut found = found;
    let mut pairs = Pairs::with_room(alloc, found.len())?;
    'entries: while let Some((key, value)) = found.pop_first() {
        let key = Text::from_string(key);
        pairs.push(Pair { key, value })?;
    }
    Ok(pairs)
}
