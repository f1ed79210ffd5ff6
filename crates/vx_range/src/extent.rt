ghost use Rattle.std.specs.Prelude.{◌≡◌, ◌+◌, ◌++◌, OnOk, length};
ghost use Rattle.vx_scheme.specs.Cuts.{cuts_of};
ghost use Rattle.vx_range.specs.Extents.{extent_spans};

use crate::spans::{
    push_above, push_below, push_between, push_closed, push_every, push_from, push_point,
    push_up_to,
};
use std::alloc::Global;
use vx_scheme::{NoMemory, Scheme, Spans};

/// What a row of a table makes of a construct: one span by its ends, or none.
#[derive(Drop)]
pub enum Extent<V> {
    /// No version.
    Nothing,
    /// Every version.
    Every,
    /// `[V, V]`
    Point(V),
    /// `[V, -)`
    From(V),
    /// `(V, -)`
    Above(V),
    /// `(-, V)`
    Below(V),
    /// `(-, V]`
    UpTo(V),
    /// `[V, W)`
    Between(V, V),
    /// `[V, W]`
    Closed(V, V),
}

/// Appends the span of an extent, if it has one. The marks of its cuts run on from the given one.
pub fn push_extent<S: Scheme>(
    alloc: Global,
    extent: Extent<S::Version>,
    marks: &mut u64,
    out: &mut Spans<S::Version>,
) -> Result<(), NoMemory>
    ensures span { OnOk result (out.new ≡ out.old ++ extent_spans marks.old extent) }
    ensures marks { OnOk result (marks.new ≡ marks.old + length (cuts_of (extent_spans marks.old extent))) }
{
    match extent {
        Extent::Nothing => Ok(()),
        Extent::Every => push_every(out),
        Extent::Point(version) => push_point::<S>(alloc, marks, version, out),
        Extent::From(version) => push_from(marks, version, out),
        Extent::Above(version) => push_above(marks, version, out),
        Extent::Below(version) => push_below(marks, version, out),
        Extent::UpTo(version) => push_up_to(marks, version, out),
        Extent::Between(version, end) => push_between(marks, version, end, out),
        Extent::Closed(version, end) => push_closed(marks, version, end, out),
    }
}
