ghost use Rattle.std.specs.Prelude.{◌≡◌};
ghost use Rattle.vx_range.specs.Spans.{is_point};

use vx_scheme::{Cut, Scheme};

/// Whether two cuts stand before and after one order class. It takes no memory.
pub fn is_point<S: Scheme>(lower: &Cut<S::Version>, upper: &Cut<S::Version>) -> bool
    ensures { result ≡ is_point S.order lower.now upper.now }
{
    !lower.after && upper.after && S::compare(&lower.version, &upper.version).is_eq()
}
