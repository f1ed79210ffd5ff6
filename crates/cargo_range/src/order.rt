ghost use Rattle.std.specs.Prelude.{◌≡◌};
ghost use Rattle.cargo_range.specs.Order.{precedence};

use crate::version::CargoVersion;
use std::cmp::Ordering;

/// How two versions compare by precedence. It takes no memory.
pub(crate) fn compare_versions(a: &CargoVersion, b: &CargoVersion) -> Ordering
    ensures { result ≡ precedence a.now b.now }
{
    a.inner.cmp_precedence(&b.inner)
}
