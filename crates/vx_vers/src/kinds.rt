//! What one more constraint says of the range constraints of a list.

ghost use Rattle.std.specs.Prelude.{◌≡◌};
ghost use Rattle.vx_vers.specs.Meaning.{kind_of_comparator, is_hole, opens_next, closes_here};

use crate::constraints::Comparator;

impl Comparator {
    /// Whether it is `!=`.
    pub fn is_not_equal(self) -> bool
        ensures { result ≡ is_hole (kind_of_comparator self) }
    {
        matches!(self, Comparator::NotEqual)
    }

    /// Whether the last range constraint so far opens, with one of this comparator behind it. `opens` says so of those
    /// in front.
    pub fn opens_after(self, opens: bool) -> bool
        ensures { result ≡ opens_next opens (kind_of_comparator self) }
    {
        match self {
            Comparator::Equal | Comparator::NotEqual => opens,
            Comparator::Less | Comparator::LessEqual => false,
            Comparator::Greater | Comparator::GreaterEqual => true,
        }
    }

    /// Whether the first range constraint closes, with one of this comparator in front of it. `closes` says so of
    /// those behind.
    pub fn closes_before(self, closes: bool) -> bool
        ensures { result ≡ closes_here (kind_of_comparator self) closes }
    {
        match self {
            Comparator::Equal | Comparator::NotEqual => closes,
            Comparator::Less | Comparator::LessEqual => true,
            Comparator::Greater | Comparator::GreaterEqual => false,
        }
    }
}
