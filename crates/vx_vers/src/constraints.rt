ghost use Rattle.std.specs.Prelude.{◌≡◌, ◌↔◌, ◌<◌, [], ◌∷◌, ◌++◌, IfOk, OnOk, OnErr, MatchOption, IsTrue, Some, length, slice_get};

use std::alloc::Global;
use std::marker::Model;
use vx_scheme::{List, NoMemory, Scheme};

/// How a version has to compare with that of a constraint.
#[derive(Debug, Clone, Copy, PartialEq, Eq)]
pub enum Comparator {
    /// `=`
    Equal,
    /// `!=`
    NotEqual,
    /// `<`
    Less,
    /// `<=`
    LessEqual,
    /// `>`
    Greater,
    /// `>=`
    GreaterEqual,
}

/// A comparator and a version.
#[derive(Debug, Drop)]
pub struct Constraint<V> {
    /// How a version has to compare.
    pub comparator: Comparator,
    /// The version that it is compared with.
    pub version: V,
}

/// A list of constraints sorted by version, no two of them order-equal. The empty list stands for every version.
#[derive(Drop)]
pub struct Constraints<S: Scheme> {
    list: List<Constraint<S::Version>>,
}

impl<S: Scheme> Model for Constraints<S> {
    ghost use Rattle.std.specs.Prelude.{List};
    ghost use Rattle.vx_vers.specs.declared.constraints.Constraint.{Constraint};

    ghost Value = { List (Constraint S.Version) };

    ghost use Rattle.vx_vers.specs.Sorted.{IsSorted};

    ghost view = { λ list. list.list };

    ghost invariant = { λ list. IsSorted S.order list.list };
}

impl<S: Scheme> Constraints<S> {
    ghost use Rattle.vx_vers.specs.Sorted.{IsSorted, IsAboveLast};

    /// The empty list. It takes no memory.
    pub fn new(alloc: Global) -> Constraints<S>
        ensures { result ≡ [] }
    {
        Constraints {
            list: List::new(alloc),
        }
    }

    /// The empty list, with room for so many constraints.
    pub fn with_room(alloc: Global, count: usize) -> Result<Constraints<S>, NoMemory>
        ensures { IfOk result (λ list. list ≡ []) }
    {
        match List::with_room(alloc, count) {
            Ok(list) => Ok(Constraints { list }),
            Err(_) => Err(NoMemory),
        }
    }

    /// The list of these constraints, which are sorted. It takes no memory.
    pub fn from_sorted(list: List<Constraint<S::Version>>) -> Constraints<S>
        requires { IsSorted S.order list }
        ensures { result ≡ list }
    {
        Constraints { list }
    }

    /// The constraints. It takes no memory.
    pub fn into_list(self) -> List<Constraint<S::Version>>
        ensures items { result ≡ self }
        ensures sorted { IsSorted S.order self }
    {
        let Constraints { list } = self;
        list
    }

    /// The allocator that the list was made with.
    pub fn alloc(&self) -> Global {
        self.list.alloc()
    }

    /// How many constraints there are.
    pub fn len(&self) -> usize
        ensures { result ≡ length self.now }
    {
        self.list.len()
    }

    /// Whether there is no constraint.
    pub fn is_empty(&self) -> bool
        ensures { IsTrue result ↔ (self.now ≡ []) }
    {
        self.list.is_empty()
    }

    /// The constraint at a place, counted from 0.
    pub fn get(&self, i: usize) -> &Constraint<S::Version>
        requires { i < length self.now }
        ensures { slice_get self.now i ≡ Some result.now }
    {
        self.list.get(i)
    }

    /// The constraints, as a slice.
    pub fn as_slice(&self) -> &[Constraint<S::Version>]
        ensures items { result.now ≡ self.now }
        ensures sorted { IsSorted S.order self.now }
    {
        self.list.as_slice()
    }

    /// Appends a constraint whose version is above that of the last one. A refused push drops it and leaves the list
    /// as it was.
    pub fn push(&mut self, constraint: Constraint<S::Version>) -> Result<(), NoMemory>
        requires { IsAboveLast S.order self.old constraint.version }
        ensures ok { OnOk result (self.new ≡ self.old ++ constraint ∷ []) }
        ensures err { OnErr result (self.new ≡ self.old) }
    {
        self.list.push(constraint)
    }

    /// Takes the last constraint off. It answers `None` exactly where the list is empty.
    pub fn pop(&mut self) -> Option<Constraint<S::Version>>
        ensures { MatchOption result ((self.old ≡ []) × (self.new ≡ [])) (λ last. self.old ≡ self.new ++ last ∷ []) }
    {
        self.list.pop()
    }
}
