ghost use Rattle.std.specs.Prelude.{◌≡◌, ◌<◌, ℕ};
ghost use Rattle.std.specs.declared.cmp.Ordering.{Ordering};
ghost use Rattle.vx_order.specs.Places.{AnswersAt, first_difference};

use std::cmp::Ordering;

/// What a comparison of two rows answers, given how they compare at each of `count` places: the first place at which they
/// differ decides, and rows that differ at none are equal. The rows themselves are the caller's, who needs no list of
/// their entries. It takes no memory.
pub fn compare_places<F: Fn(usize) -> Ordering + Drop>(count: usize, compare_at: F) -> Ordering
    requires { F.IsAlwaysCallable compare_at }
    ensures { (at : ℕ → Ordering) → AnswersAt (λ i answer. F.post compare_at i answer) count at → result ≡ first_difference count at }
{
    for i in 0..count {
        let order = compare_at(i);
        if order.is_ne() {
            return order;
        }
    }
    Ordering::Equal
}
