ghost use Rattle.std.specs.Prelude.{◌≡◌, ◌↔◌, ◌+◌, ◌<◌, ◌^◌, ℕ, List, None, length};
ghost use Rattle.npm_scheme.specs.Version.{Fields, IsWithin};
ghost use Rattle.npm_scheme.specs.Spelling.{Parts, Spells, AreVersionParts, version_of, whole};
ghost use Rattle.npm_scheme.specs.Written.{parts};
ghost use Rattle.npm_scheme.specs.Past.{past_numeral_of};

use crate::spelling::Written;
use vx_order::{first_past_part, is_past_numeral};

/// Where in the text of a version that begins at this place the first numeral begins that passes 2^128-1: among the three
/// numbers and the pre-release identifiers, since the build has no numbers. It takes no memory.
pub fn past_numeral(written: &Written, at: usize) -> Option<usize>
    requires { at + length (whole (parts written.now)) < 2 ^ 64 }
    ensures { result ≡ past_numeral_of at (parts written.now) }
{
    if is_past_numeral(written.major.as_bytes()) {
        return Some(at);
    }
    let minor_at = at + written.major.len() + 1;
    if is_past_numeral(written.minor.as_bytes()) {
        return Some(minor_at);
    }
    let patch_at = minor_at + written.minor.len() + 1;
    if is_past_numeral(written.patch.as_bytes()) {
        return Some(patch_at);
    }
    match written.pre {
        Some(pre) => first_past_part(pre.as_bytes(), patch_at + written.patch.len() + 1),
        None => None,
    }
}

/// A version is within the limit exactly where none of the numerals of its text passes 2^128-1.
pub fn limits_agree()
    ensures parts { (p : Parts) (at : ℕ) → AreVersionParts p → IsWithin (version_of p) ↔ (past_numeral_of at p ≡ None) }
    ensures version { (text : List ℕ) (v : Fields) (at : ℕ) → (spelled : Spells text v)
        → IsWithin v ↔ (past_numeral_of at spelled.parts ≡ None) }
{}
