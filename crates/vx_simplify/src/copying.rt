ghost use Rattle.std.specs.Prelude.{◌≡◌, ◌++◌, ◌∷◌, [], IfOk, OnOk};

use std::alloc::Global;
use vx_scheme::{List, NoMemory, Scheme};
use vx_vers::{Constraint, Constraints};

/// A copy of the list.
pub(crate) fn copy_of<S: Scheme>(
    alloc: Global,
    list: &Constraints<S>,
) -> Result<Constraints<S>, NoMemory>
    ensures { IfOk result (λ copied. copied ≡ list.now) }
{
    let mut copied = List::with_room(alloc, list.len())?;
    for constraint in list.as_slice() {
        push_copy::<S>(alloc, &mut copied, constraint)?;
    }
    Ok(Constraints::from_sorted(copied))
}

/// Appends a copy of the constraint.
fn push_copy<S: Scheme>(
    alloc: Global,
    list: &mut List<Constraint<S::Version>>,
    constraint: &Constraint<S::Version>,
) -> Result<(), NoMemory>
    ensures { OnOk result (list.new ≡ list.old ++ constraint.now ∷ []) }
{
    let version = S::copy(alloc, &constraint.version)?;
    list.push(Constraint {
        comparator: constraint.comparator,
        version,
    })
}
