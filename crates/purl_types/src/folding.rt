ghost use Rattle.std.specs.Prelude.{◌≡◌, ◌==◌, ◌&&◌, map, not, IfOk, IsTrue, OnOk};
ghost use Rattle.std.specs.Char.{is_ascii_uppercase, to_ascii_lowercase};
ghost use Rattle.std.specs.List.{list_all};
ghost use Rattle.vx_text.specs.Folding.{lowered};
ghost use Rattle.purl_core.specs.Value.{IsValid};
ghost use Rattle.purl_types.specs.Folding.{dash, fold_text, folded_purl};
ghost use Rattle.purl_types.specs.Canonical.{FoldingIsDone, FoldingIsValid};

use crate::table::{Folding, row_of};
use purl_core::{Purl, Segments};
use std::alloc::Global;
use vx_scheme::{NoMemory, Text};
use vx_text::lower;

/// The package URL with its namespace and its name folded as its type says. A refused call drops it.
pub fn fold(alloc: Global, purl: Purl) -> Result<Purl, NoMemory>
    ensures { IfOk result (λ fold. fold ≡ folded_purl purl) }
{
    let mut purl = purl;
    let row = row_of(purl.kind.as_str());
    fold_text(alloc, row.name, &mut purl.name)?;
    fold_segments(alloc, row.namespace, &mut purl.namespace)?;
    Ok(purl)
}

fn fold_segments(alloc: Global, folding: Folding, segments: &mut Segments) -> Result<(), NoMemory>
    ensures { OnOk result (segments.new ≡ map (fold_text folding) segments.old) }
{
    let mut texts = std::mem::replace(segments, Segments::new(alloc)).into_vec();
    fold_all(alloc, folding, &mut texts)?;
    *segments = Segments::from_vec(texts);
    Ok(())
}

fn fold_all(alloc: Global, folding: Folding, texts: &mut Vec<Text>) -> Result<(), NoMemory>
    ensures { OnOk result (texts.new.items ≡ map (fold_text folding) texts.old.items) }
{
    for text in texts.iter_mut() {
        fold_text(alloc, folding, text)?;
    }
    Ok(())
}

fn fold_text(alloc: Global, folding: Folding, text: &mut Text) -> Result<(), NoMemory>
    ensures { OnOk result (text.new ≡ fold_text folding text.old) }
{
    match folding {
        Folding::Kept => Ok(()),
        Folding::Lowered => lower_text(alloc, text),
        Folding::Dashed => dash_text(alloc, text),
    }
}

/// A text without letters in upper case stays, and takes no memory.
fn lower_text(alloc: Global, text: &mut Text) -> Result<(), NoMemory>
    ensures { OnOk result (text.new ≡ lowered text.old) }
{
    if !is_low(text.as_str().as_bytes()) {
        *text = lower(alloc, text.as_str())?;
    }
    Ok(())
}

fn is_low(bytes: &[u8]) -> bool
    ensures { result ≡ list_all (λ b. not (is_ascii_uppercase b)) bytes.now }
{
    bytes.iter().all(|byte| !byte.is_ascii_uppercase())
}

/// A text without letters in upper case and without '_' stays, and takes no memory.
fn dash_text(alloc: Global, text: &mut Text) -> Result<(), NoMemory>
    ensures { OnOk result (text.new ≡ map dash (lowered text.old)) }
{
    if !has_dashes(text.as_str().as_bytes()) {
        *text = dash_copy(alloc, text.as_str())?;
    }
    Ok(())
}

fn has_dashes(bytes: &[u8]) -> bool
    ensures { result ≡ list_all (λ b. not (is_ascii_uppercase b) && not (b == 95)) bytes.now }
{
    bytes
        .iter()
        .all(|byte| !byte.is_ascii_uppercase() && *byte != b'_')
}

/// The text in lower case, and then with '-' for each '_'.
fn dash_copy(alloc: Global, text: &str) -> Result<Text, NoMemory>
    ensures { IfOk result (λ copy. copy ≡ map dash (lowered text.now)) }
{
    let bytes = dash_bytes(alloc, text.as_bytes())?;
    match String::from_utf8(bytes) {
        Ok(copy) => Ok(Text::from_string(copy)),
        Err(_) => unreachable!(),
    }
}

fn dash_bytes(alloc: Global, bytes: &[u8]) -> Result<Vec<u8>, NoMemory>
    ensures { IfOk result (λ copy. copy.items ≡ map (λ b. dash (to_ascii_lowercase b)) bytes.now) }
{
    let copy = bytes
        .iter()
        .map(|byte| dash(byte.to_ascii_lowercase()))
        .collect(alloc)?;
    Ok(copy)
}

fn dash(byte: u8) -> u8
    ensures { result ≡ dash byte }
{
    if byte == b'_' { b'-' } else { byte }
}

/// The laws that folding keeps the form of a package URL, and that what is folded stays as it is when it is folded again.
pub fn folds_once()
    ensures valid { FoldingIsValid }
    ensures done { FoldingIsDone }
{}
