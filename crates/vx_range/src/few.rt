ghost use Rattle.std.specs.Prelude.{◌≡◌, [], ◌∷◌, ◌++◌, ◌<◌, length, slice_get, Some, OnOk, OnErr, IsTrue, ◌↔◌};

use crate::piece::Piece;
use std::alloc::{AllocError, Global};
use std::marker::Model;

/// A list whose first two items take no memory, which contracts see as that list.
#[derive(Debug, Drop)]
pub struct Few<T> {
    first: Option<T>,
    second: Option<T>,
    rest: Vec<T>,
}

impl<T> Model for Few<T> {
    ghost use Rattle.std.specs.Prelude.{List};
    ghost use Rattle.std.specs.Coded.{coded_list};
    ghost use Rattle.vx_range.specs.Few.{few_items, IsFilledInOrder};

    ghost Value = { List T };

    ghost coded = { coded_list T.code };

    ghost view = { λ few. few_items few.first few.second few.rest.items };

    ghost invariant = { λ few. IsFilledInOrder few.first few.second few.rest.items };
}

/// A group of pieces.
pub type Pieces<'t, K> = Few<Piece<'t, K>>;

/// The groups of pieces of a text.
pub type Groups<'t, K> = Few<Pieces<'t, K>>;

impl<T> Few<T> {
    /// The empty list. It takes no memory.
    pub fn new(alloc: Global) -> Self
        ensures { result ≡ [] }
    {
        Few {
            first: None,
            second: None,
            rest: Vec::new(alloc),
        }
    }

    /// How many items there are.
    pub fn len(&self) -> usize
        ensures { result ≡ length self.now }
    {
        if self.first.is_none() {
            0
        } else if self.second.is_none() {
            1
        } else {
            2 + self.rest.len()
        }
    }

    /// Whether there is no item.
    pub fn is_empty(&self) -> bool
        ensures { IsTrue result ↔ (self.now ≡ []) }
    {
        self.first.is_none()
    }

    /// The item at a place, counted from 0. It takes the same time at each place.
    pub fn get(&self, i: usize) -> &T
        requires { i < length self.now }
        ensures { slice_get self.now i ≡ Some result.now }
    {
        match (i, &self.first, &self.second) {
            (0, Some(first), _) => first,
            (1, _, Some(second)) => second,
            _ => &self.rest[i - 2],
        }
    }
}

impl<T: Drop> Few<T> {
    /// Appends an item, which takes memory from the third item on. A refused push drops the item and leaves the list as
    /// it was.
    pub fn push(&mut self, item: T) -> Result<(), AllocError>
        ensures ok { OnOk result (self.new ≡ self.old ++ item ∷ []) }
        ensures err { OnErr result (self.new ≡ self.old) }
    {
        if self.first.is_none() {
            self.first = Some(item);
            return Ok(());
        }
        if self.second.is_none() {
            self.second = Some(item);
            return Ok(());
        }
        match self.rest.push(item) {
            Ok(()) => Ok(()),
            Err(error) => Err(AllocError::from(error)),
        }
    }
}
