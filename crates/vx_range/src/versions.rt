ghost use Rattle.std.specs.Prelude.{◌≡◌, ◌≢◌, ◌+◌, ◌<◌, ◌^◌, ◌↔◌, ℕ, List, None, Some, IfOk, IfErr, length};
ghost use Rattle.vx_scheme.specs.Scheme.{Refuses};
ghost use Rattle.vx_range.specs.Reading.{Answers};

use crate::piece::PieceReading;
use std::alloc::Global;
use std::str;
use vx_scheme::{NoMemory, Scheme, VersionFault};

/// A scheme whose versions are read in the texts of the range language `L`, with the place of the first numeral past the
/// limit. The language is named so that its own crate can say this of a scheme of another crate.
pub trait PlacedVersions<L>: Scheme {
    ghost use Rattle.std.specs.Prelude.{Option};
    ghost use Rattle.std.specs.Str.{IsUtf8};

    /// Where in a version's text that begins at this place the first numeral past the limit begins.
    ghost first_past: { ℕ → List ℕ → Option ℕ };

    /// Where in a version's text that begins at this place the first numeral past the limit begins. It takes no memory.
    fn first_past(text: &[u8], at: usize) -> Option<usize>
        requires { at + length text.now < 2 ^ 64 }
        ensures { result ≡ first_past at text.now };

    /// Texts of versions are UTF-8.
    ghost utf8: { (text : List ℕ) (v : Self.Version) → Self.Spells text v → IsUtf8 text };

    /// A version is within the limit exactly where no numeral of its text is past it.
    ghost limits: { (text : List ℕ) (v : Self.Version) (at : ℕ) →
        Self.Spells text v → Self.IsWithin v ↔ (first_past at text ≡ None) };
}

/// What the bytes spell, which begin at this place.
pub fn read_version<L, S: PlacedVersions<L>>(
    alloc: Global,
    bytes: &[u8],
    at: usize,
) -> Result<PieceReading<S::Version>, NoMemory>
    requires { at + length bytes.now < 2 ^ 64 }
    ensures { IfOk result (Answers (S.Spells bytes.now) (S.first_past at bytes.now)) }
{
    match version::<L, S>(alloc, bytes) {
        Ok(version) => Ok(PieceReading::Construct(version)),
        Err(VersionFault::NotAVersion) => Ok(PieceReading::NoConstruct),
        Err(VersionFault::Numeral) => Ok(PieceReading::Past(past_place::<L, S>(bytes, at))),
        Err(VersionFault::NoMemory) => Err(NoMemory),
    }
}

/// The version that the bytes spell.
fn version<L, S: PlacedVersions<L>>(alloc: Global, bytes: &[u8]) -> Result<S::Version, VersionFault>
    ensures ok { IfOk result (λ version. S.Spells bytes.now version × S.IsWithin version) }
    ensures err { IfErr result (Refuses S.Spells S.IsWithin bytes.now) }
{
    match str::from_utf8(bytes) {
        Ok(text) => S::read(alloc, text),
        Err(_) => Err(VersionFault::NotAVersion),
    }
}

/// Where the first numeral past the limit begins, of which there is one. It takes no memory.
fn past_place<L, S: PlacedVersions<L>>(text: &[u8], at: usize) -> usize
    requires place { at + length text.now < 2 ^ 64 }
    requires past { S.first_past at text.now ≢ None }
    ensures { S.first_past at text.now ≡ Some result }
{
    match S::first_past(text, at) {
        Some(place) => place,
        None => unreachable!(),
    }
}
