ghost use Rattle.std.specs.Prelude.{◌≡◌, IfOk};

use std::alloc::Global;
use std::marker::Model;
use vx_scheme::{NoMemory, copy_idents};

/// A segment of a version: a number, or a word of letters.
pub use vx_scheme::Ident as Segment;
/// A list of segments.
pub use vx_scheme::Idents as Segments;

/// A version of RubyGems: the first of its segments is a number, each word is letters, and its numbers are within 2^128-1.
#[derive(Debug, Drop)]
pub struct GemVersion {
    /// The segments, from left to right.
    pub segments: Segments,
}

impl Model for GemVersion {
    ghost use Rattle.gem_scheme.specs.Version.{Fields, IsVersion, IsWithin};

    ghost Value = { Fields };

    ghost view = { λ v. record { segments = v.segments } };

    ghost invariant = { λ v. IsVersion (record { segments = v.segments }) × IsWithin (record { segments = v.segments }) };
}

/// The same version once more.
pub(crate) fn copy(alloc: Global, version: &GemVersion) -> Result<GemVersion, NoMemory>
    ensures { IfOk result (λ copied. copied ≡ version.now) }
{
    let segments = copy_idents(alloc, &version.segments)?;
    Ok(GemVersion { segments })
}
