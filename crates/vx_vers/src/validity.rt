//! The rules of a valid list.

ghost use Rattle.std.specs.Prelude.{◌≡◌};
ghost use Rattle.vx_vers.specs.Meaning.{kind};
ghost use Rattle.vx_vers.specs.Validity.{is_valid};

use crate::constraints::{Comparator, Constraints};
use vx_scheme::Scheme;

impl<S: Scheme> Constraints<S> {
    /// Whether the list is valid: with the `!=` left out, an `=` is followed only by `=`, `>`, `>=` or nothing; and
    /// with `=` and `!=` left out, the comparators alternate between greater and lesser. It takes no memory.
    pub fn is_valid(&self) -> bool
        ensures { result ≡ is_valid kind self.now }
    {
        let mut after_equal = false;
        let mut opens = None;
        for constraint in self.as_slice() {
            match constraint.comparator {
                Comparator::NotEqual => {}
                Comparator::Equal => after_equal = true,
                Comparator::Less | Comparator::LessEqual => {
                    if after_equal || matches!(opens, Some(false)) {
                        return false;
                    }
                    opens = Some(false);
                }
                Comparator::Greater | Comparator::GreaterEqual => {
                    if matches!(opens, Some(true)) {
                        return false;
                    }
                    after_equal = false;
                    opens = Some(true);
                }
            }
        }
        true
    }
}
