ghost use Rattle.std.specs.Prelude.{◌≡◌, ◌↔◌, ◌<◌, [], ◌∷◌, ◌++◌, map, IfOk, OnOk, OnErr, MatchOption, IsTrue, Some, length, slice_get};

use std::alloc::Global;
use std::marker::Model;
use vx_scheme::{List, NoMemory, Text};

/// The segments of a namespace or a subpath.
pub type Segments = List<Text>;

/// A qualifier.
#[derive(Debug, Drop)]
pub struct Pair {
    /// The key, in lower case.
    pub key: Text,
    /// The value, decoded.
    pub value: Text,
}

/// Qualifiers in the order of their keys by bytes; no key stands twice.
#[derive(Debug, Drop)]
pub struct Pairs {
    list: List<Pair>,
}

impl Model for Pairs {
    ghost use Rattle.std.specs.Prelude.{List, map};
    ghost use Rattle.purl_core.specs.declared.value.Pair.{Pair};
    ghost use Rattle.purl_core.specs.Value.{Ascending, pair_view};

    ghost Value = { List Pair };

    ghost view = { λ pairs. pairs.list };

    ghost invariant = { λ pairs. Ascending (map pair_view pairs.list) };
}

impl Pairs {
    ghost use Rattle.purl_core.specs.Value.{Ascending, IsAboveLast, pair_view};

    /// The empty list. It takes no memory.
    pub fn new(alloc: Global) -> Pairs
        ensures { result ≡ [] }
    {
        Pairs {
            list: List::new(alloc),
        }
    }

    /// The empty list, with room for so many pairs.
    pub fn with_room(alloc: Global, count: usize) -> Result<Pairs, NoMemory>
        ensures { IfOk result (λ pairs. pairs ≡ []) }
    {
        Ok(Pairs {
            list: List::with_room(alloc, count)?,
        })
    }

    /// How many pairs there are.
    pub fn len(&self) -> usize
        ensures { result ≡ length self.now }
    {
        self.list.len()
    }

    /// Whether there is no pair.
    pub fn is_empty(&self) -> bool
        ensures { IsTrue result ↔ (self.now ≡ []) }
    {
        self.list.is_empty()
    }

    /// The pair at a place, counted from 0.
    pub fn get(&self, i: usize) -> &Pair
        requires { i < length self.now }
        ensures { slice_get self.now i ≡ Some result.now }
    {
        self.list.get(i)
    }

    /// The pairs, as a slice.
    pub fn as_slice(&self) -> &[Pair]
        ensures items { result.now ≡ self.now }
        ensures ascending { Ascending (map pair_view self.now) }
    {
        self.list.as_slice()
    }

    /// Appends a pair whose key is above that of the last one. A refused push drops it and leaves the list as it was.
    pub fn push(&mut self, pair: Pair) -> Result<(), NoMemory>
        requires { IsAboveLast (map pair_view self.old) pair.key }
        ensures ok { OnOk result (self.new ≡ self.old ++ pair ∷ []) }
        ensures err { OnErr result (self.new ≡ self.old) }
    {
        self.list.push(pair)
    }

    /// Takes the last pair off. It answers `None` exactly where the list is empty.
    pub fn pop(&mut self) -> Option<Pair>
        ensures { MatchOption result ((self.old ≡ []) × (self.new ≡ [])) (λ last. self.old ≡ self.new ++ last ∷ []) }
    {
        self.list.pop()
    }
}

/// A package URL. All its texts are decoded, the type and the keys are in lower case, the name and every segment,
/// value and version is not empty, and no segment of the subpath is `.` or `..`.
#[derive(Debug, Drop)]
pub struct Purl {
    /// The type.
    pub kind: Text,
    /// The segments before the name.
    pub namespace: Segments,
    /// The name.
    pub name: Text,
    /// The version, where there is one.
    pub version: Option<Text>,
    /// The qualifiers.
    pub qualifiers: Pairs,
    /// The segments of the subpath.
    pub subpath: Segments,
}

impl Model for Purl {
    ghost use Rattle.std.specs.Prelude.{map};
    ghost use Rattle.purl_core.specs.Value.{IsValid, Package, pair_view};

    ghost Value = { Package };

    ghost view = { λ p. record {
      kind = p.kind;
      namespace = p.namespace;
      name = p.name;
      version = p.version;
      qualifiers = map pair_view p.qualifiers;
      subpath = p.subpath;
    } };

    ghost invariant = { λ p. IsValid (record {
      kind = p.kind;
      namespace = p.namespace;
      name = p.name;
      version = p.version;
      qualifiers = map pair_view p.qualifiers;
      subpath = p.subpath;
    }) };
}
