ghost use Rattle.std.specs.Prelude.{◌≡◌, ◌&&◌, nat_le, is_none, length};
ghost use Rattle.pep440_scheme.specs.Version.{Fields};
ghost use Rattle.pep440_scheme.specs.Spelling.{Spells};
ghost use Rattle.pep440_scheme.specs.Steps.Apart.{fields_of, release_parts};
ghost use Rattle.pep440_scheme.specs.Steps.Written.{parts};
ghost use Rattle.pep440_scheme.specs.Shape.{HasShape};

use crate::spelling::{NoDots, Written, cut_apart, cut_part};
use crate::version::Pep440Version;

/// What a version is, its numbers apart.
#[derive(Clone, Copy, Debug, PartialEq, Eq)]
pub struct Shape {
    /// Whether the release has two numbers or more.
    pub has_two_numbers: bool,
    /// Whether it has no local version label, PEP 440, "Public version identifiers".
    pub is_public: bool,
    /// Whether it is neither a pre- nor a post- nor a developmental release.
    pub is_bare: bool,
}

/// The shape of a version. It takes no memory.
pub fn shape_of_version(version: &Pep440Version) -> Shape
    ensures { HasShape result version.now }
{
    Shape {
        has_two_numbers: version.release.len() >= 2,
        is_public: version.local.is_empty(),
        is_bare: version.pre.is_none() && version.post.is_none() && version.dev.is_none(),
    }
}

/// The shape of the version that the text spells, with numerals of any length, if it spells one. It takes no memory.
pub fn shape_of_text(text: &[u8]) -> Shape
    ensures { (v : Fields) → Spells text.now v → HasShape result v }
{
    shape_of_parts(&cut_apart(text))
}

// The shape of the version that the parts stand for.
fn shape_of_parts(written: &Written) -> Shape
    ensures { HasShape result (fields_of (parts written.now)) }
{
    Shape {
        has_two_numbers: has_dot(written.release),
        is_public: written.label.is_empty(),
        is_bare: has_no_suffix(written),
    }
}

// Whether the parts have neither a pre- nor a post- nor a developmental release.
fn has_no_suffix(written: &Written) -> bool
    ensures { result ≡ ((is_none written.now.pre && is_none written.now.post) && is_none written.now.dev) }
{
    written.pre.is_none() && written.post.is_none() && written.dev.is_none()
}

// Whether the release is of two numerals or more.
fn has_dot(release: &[u8]) -> bool
    ensures { result ≡ nat_le 2 (length (release_parts release.now)) }
{
    let (_, behind) = cut_part::<NoDots>(release);
    behind.is_some()
}
