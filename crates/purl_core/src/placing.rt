ghost use Rattle.std.specs.Prelude.{◌≡◌, ◌+◌, ◌<◌, ◌^◌, [], ◌∷◌, Some, MatchOption};
ghost use Rattle.std.specs.Option.{option_copied};
ghost use Rattle.purl_core.specs.Grammar.{Parts};
ghost use Rattle.purl_core.specs.Steps.Cutting.{parts};
ghost use Rattle.purl_core.specs.Places.{path_at, pieces_of, placed_parts, placed_whole, qualifiers_at, subpath_at, version_at, with_sign};
ghost use Rattle.purl_core.specs.Steps.Placing.{EndsWithin, IsWithin, left, listed_part, part_view, size};

use crate::cutting::Raw;
use vx_text::cut_bytes;

/// A part of a text, and where it begins.
#[derive(Clone, Copy)]
pub(crate) struct Part<'a> {
    pub(crate) at: usize,
    pub(crate) bytes: &'a [u8],
}

/// A walk over the parts between the marks of a text that are not empty.
#[derive(Clone, Copy)]
pub(crate) struct Walk<'a> {
    pub(crate) at: usize,
    pub(crate) rest: Option<&'a [u8]>,
    pub(crate) mark: u8,
}

impl<'a> Walk<'a> {
    /// Takes the next part. It takes no memory.
    pub(crate) fn next_part(&mut self) -> Option<Part<'a>>
        requires { IsWithin self.old }
        ensures part { MatchOption result (left self.old ≡ [])
            (λ part. left self.old ≡ part_view part ∷ left self.new) }
        ensures ends { MatchOption result (left self.new ≡ []) (λ part. EndsWithin part) }
        ensures within { IsWithin self.new }
    {
        'parts: while let Some(text) = self.rest {
            let at = self.at;
            let (bytes, behind) = cut_bytes(text, self.mark);
            self.at += bytes.len() + 1;
            self.rest = behind;
            if !bytes.is_empty() {
                return Some(Part { at, bytes });
            }
        }
        None
    }

    /// How many parts are left, for the room of a list. It takes no memory.
    pub(crate) fn count(self) -> usize
        requires { IsWithin self }
    {
        let mut walk = self;
        let mut count: usize = 0;
        'counted: while walk.next_part().is_some() {
            count = count.saturating_add(1);
        }
        count
    }
}

impl<'a> Raw<'a> {
    fn path_at(&self) -> usize
        requires { size (parts self.now) + 1 < 2 ^ 64 }
        ensures { result ≡ path_at (parts self.now) }
    {
        self.scheme.len() + 1 + self.slashes.len() + self.kind.len() + 1
    }

    /// The segments of the path.
    pub(crate) fn path_walk(&self) -> Walk<'a>
        requires { size (parts self.now) + 1 < 2 ^ 64 }
        ensures parts { left result ≡ placed_parts (path_at (parts self.now)) 47 (Some (parts self.now).path) }
        ensures within { IsWithin result }
    {
        Walk {
            at: self.path_at(),
            rest: Some(self.path),
            mark: b'/',
        }
    }

    /// The version, where there is one that is not empty.
    pub(crate) fn version_part(&self) -> Option<Part<'a>>
        requires { size (parts self.now) + 1 < 2 ^ 64 }
        ensures part { listed_part result ≡ placed_whole (version_at (parts self.now)) (parts self.now).version }
        ensures ends { MatchOption result (Unit {0}) (λ part. EndsWithin part) }
    {
        match self.version {
            Some(bytes) if !bytes.is_empty() => Some(Part {
                at: self.path_at() + self.path.len() + 1,
                bytes,
            }),
            _ => None,
        }
    }

    /// The pieces of the qualifiers.
    pub(crate) fn pieces_walk(&self) -> Walk<'a>
        requires { size (parts self.now) + 1 < 2 ^ 64 }
        ensures parts { left result ≡ pieces_of (parts self.now) }
        ensures within { IsWithin result }
    {
        Walk {
            at: self.path_at() + self.path.len() + with_sign(self.version) + 1,
            rest: self.qualifiers,
            mark: b'&',
        }
    }

    /// The segments of the subpath.
    pub(crate) fn subpath_walk(&self) -> Walk<'a>
        requires { size (parts self.now) + 1 < 2 ^ 64 }
        ensures parts { left result ≡ placed_parts (subpath_at (parts self.now)) 47 (parts self.now).subpath }
        ensures within { IsWithin result }
    {
        Walk {
            at: self.path_at()
                + self.path.len()
                + with_sign(self.version)
                + with_sign(self.qualifiers)
                + 1,
            rest: self.subpath,
            mark: b'/',
        }
    }
}

fn with_sign(part: Option<&[u8]>) -> usize
    requires { with_sign (option_copied part) < 2 ^ 64 }
    ensures { result ≡ with_sign (option_copied part.entry) }
{
    match part {
        Some(bytes) => bytes.len() + 1,
        None => 0,
    }
}
