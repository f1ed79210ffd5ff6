ghost use Rattle.std.specs.Prelude.{◌≡◌, ◌+◌, ◌++◌, ◌<◌, ◌^◌, [], ◌∷◌, ℕ, List, map, IfOk, IsUtf8};
ghost use Rattle.std.specs.List.{AllByRecursion};
ghost use Rattle.vx_text.specs.Escapes.{IsWhole};
ghost use Rattle.vx_text.specs.Folding.{lowered};
ghost use Rattle.purl_core.specs.Grammar.{HasSegment, IsPurlWritten};
ghost use Rattle.purl_core.specs.Value.{IsValid, Package, pair_view};
ghost use Rattle.purl_core.specs.Spelling.{SpellsPurl};
ghost use Rattle.purl_core.specs.Places.{AllText, AllWhole, IsBrokenAt, components, pieces_of, values};
ghost use Rattle.purl_core.specs.Reading.{IsPurlRead, OneRefusal, RefusedIsUnspelled};
ghost use Rattle.purl_core.specs.Steps.Cutting.{parts};
ghost use Rattle.purl_core.specs.Steps.Pairing.{IsPaired, MayPair};
ghost use Rattle.purl_core.specs.Steps.Placing.{size};
ghost use Rattle.purl_core.specs.Steps.Reads.{AreDecoded, AreTexts, FindsFirst};

use crate::checking::first_escape;
use crate::cutting::{CutFault, Raw, cut_raw};
use crate::decoding::{is_plain, read_path, read_subpath, read_version};
use crate::fault::PurlFault;
use crate::pairing::{read_pairs, read_values};
use crate::value::{Pairs, Purl, Segments};
use std::alloc::Global;
use std::str;
use vx_scheme::{NoMemory, Text};
use vx_text::lower;

/// Reads the text of a package URL. Each refusal comes exactly where it applies and no earlier one does.
pub fn read(alloc: Global, text: &str) -> Result<Purl, PurlFault>
    ensures { IsPurlRead text.now result }
{
    match cut_raw(text.as_bytes()) {
        Ok(raw) => read_parts(alloc, text, &raw),
        Err(CutFault::Scheme) => Err(PurlFault::Scheme),
        Err(CutFault::BadType) => Err(PurlFault::BadType),
        Err(CutFault::Name) => Err(PurlFault::Name),
    }
}

fn read_parts(alloc: Global, text: &str, raw: &Raw) -> Result<Purl, PurlFault>
    requires { IsPurlWritten text.now (parts raw.now) }
    ensures { IsPurlRead text.now result }
{
    if let Some(at) = broken_escape(text, raw) {
        return Err(PurlFault::Escape(at));
    }
    match read_texts(alloc, raw) {
        Ok((texts, found)) => read_qualifiers(alloc, text, raw, texts, found),
        Err(fault) => Err(fault),
    }
}

/// Where the first broken escape of all parts stands. A text without '%' has none.
fn broken_escape(text: &str, raw: &Raw) -> Option<usize>
    requires { IsPurlWritten text.now (parts raw.now) }
    ensures { FindsFirst IsWhole IsBrokenAt (components (parts raw.now)) result }
{
    if is_plain(text.as_bytes()) {
        return None;
    }
    first_escape(raw)
}

/// The texts of a path, a version and a subpath.
#[derive(Drop)]
struct Texts {
    namespace: Segments,
    name: Text,
    version: Option<Text>,
    subpath: Segments,
}

/// The decoded texts, and the qualifiers where their keys are in order as they stand. Other values are checked here, and
/// decoded when they are put in order.
fn read_texts(alloc: Global, raw: &Raw) -> Result<(Texts, Option<Pairs>), PurlFault>
    requires size { size (parts raw.now) + 1 < 2 ^ 64 }
    requires segment { HasSegment (parts raw.now).path }
    ensures { AreDecoded (parts raw.now) result }
{
    let (namespace, name) = read_path(alloc, raw.path_walk())?;
    let version = read_version(alloc, raw.version_part())?;
    let found = read_values(alloc, raw.pieces_walk())?;
    let subpath = read_subpath(alloc, raw.subpath_walk())?;
    let texts = Texts {
        namespace,
        name,
        version,
        subpath,
    };
    Ok((texts, found))
}

fn read_qualifiers(
    alloc: Global,
    text: &str,
    raw: &Raw,
    texts: Texts,
    found: Option<Pairs>,
) -> Result<Purl, PurlFault>
    requires written { IsPurlWritten text.now (parts raw.now) }
    requires whole { AllWhole (components (parts raw.now)) }
    requires text { AllText (components (parts raw.now)) }
    requires texts { AreTexts (parts raw.now) texts }
    requires found { MayPair (pieces_of (parts raw.now)) found }
    ensures { IsPurlRead text.now result }
{
    let kind = low_kind(alloc, raw.kind)?;
    match pairs_of(alloc, raw, found) {
        Ok(qualifiers) => Ok(assemble(text, kind, texts, qualifiers)),
        Err(fault) => Err(fault),
    }
}

/// The qualifiers that were found, or those of the pieces in any order.
fn pairs_of(alloc: Global, raw: &Raw, found: Option<Pairs>) -> Result<Pairs, PurlFault>
    requires size { size (parts raw.now) + 1 < 2 ^ 64 }
    requires text { AllText (values (pieces_of (parts raw.now))) }
    requires found { MayPair (pieces_of (parts raw.now)) found }
    ensures { IsPaired (pieces_of (parts raw.now)) result }
{
    match found {
        Some(pairs) => Ok(pairs),
        None => read_pairs(alloc, raw.pieces_walk()),
    }
}

fn low_kind(alloc: Global, kind: &[u8]) -> Result<Text, NoMemory>
    requires { IsUtf8 kind.now }
    ensures { IfOk result (λ low. low ≡ lowered kind.now) }
{
    match str::from_utf8(kind) {
        Ok(text) => lower(alloc, text),
        Err(_) => unreachable!(),
    }
}

/// The value of components that the text spells.
fn assemble(text: &str, kind: Text, texts: Texts, qualifiers: Pairs) -> Purl
    requires { SpellsPurl text.now (record {
      kind = kind;
      namespace = texts.namespace;
      name = texts.name;
      version = texts.version;
      qualifiers = map pair_view qualifiers;
      subpath = texts.subpath;
    }) }
    ensures { SpellsPurl text.now result }
{
    let Texts {
        namespace,
        name,
        version,
        subpath,
    } = texts;
    Purl {
        kind,
        namespace,
        name,
        version,
        qualifiers,
        subpath,
    }
}

/// The law that no text spells two package URLs.
pub fn one_purl()
    ensures { (text : List ℕ) (p q : Package) → SpellsPurl text p → SpellsPurl text q → p ≡ q }
{}

/// The law that what a text spells has the form of a package URL.
pub fn spelled_is_valid()
    ensures { (text : List ℕ) (p : Package) → AllByRecursion (λ b. b < 256) text → SpellsPurl text p → IsValid p }
{}

/// The law that a text which is refused for another cause than want of memory spells no package URL.
pub fn refused_is_unspelled()
    ensures { RefusedIsUnspelled }
{}

/// The law that a text is refused for one cause, at one place, want of memory aside.
pub fn one_refusal()
    ensures { OneRefusal }
{}
