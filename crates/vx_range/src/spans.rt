ghost use Rattle.std.specs.Prelude.{◌≡◌, ◌+◌, ◌++◌, IfOk, OnOk};
ghost use Rattle.vx_range.specs.Spans.{before, after, every, point, from, above, below, up_to, between, closed};

use std::alloc::Global;
use vx_scheme::{Cut, NoMemory, Scheme, Span, Spans};

/// The mark of the next cut. Each cut lies in memory, so memory ends before the marks do.
pub fn next_mark(marks: &mut u64) -> Result<u64, NoMemory>
    ensures { IfOk result (λ mark. (mark ≡ marks.old) × (marks.new ≡ marks.old + 1)) }
{
    let mark = *marks;
    let Some(next) = mark.checked_add(1) else {
        return Err(NoMemory);
    };
    *marks = next;
    Ok(mark)
}

/// The cut directly before a version.
fn before<V>(version: V, mark: u64) -> Option<Cut<V>>
    ensures { result ≡ before mark version }
{
    Some(Cut {
        version,
        after: false,
        mark,
    })
}

/// The cut directly after a version.
fn after<V>(version: V, mark: u64) -> Option<Cut<V>>
    ensures { result ≡ after mark version }
{
    Some(Cut {
        version,
        after: true,
        mark,
    })
}

/// Appends the span of every version.
pub fn push_every<V: Drop>(out: &mut Spans<V>) -> Result<(), NoMemory>
    ensures { OnOk result (out.new ≡ out.old ++ every) }
{
    out.push(Span {
        lower: None,
        upper: None,
    })
}

/// Appends `[V, V]`.
pub fn push_point<S: Scheme>(
    alloc: Global,
    marks: &mut u64,
    version: S::Version,
    out: &mut Spans<S::Version>,
) -> Result<(), NoMemory>
    ensures span { OnOk result (out.new ≡ out.old ++ point marks.old version) }
    ensures marks { OnOk result (marks.new ≡ marks.old + 2) }
{
    let copied = S::copy(alloc, &version)?;
    let first = next_mark(marks)?;
    let second = next_mark(marks)?;
    out.push(Span {
        lower: before(version, first),
        upper: after(copied, second),
    })
}

/// Appends `[V, -)`.
pub fn push_from<V: Drop>(marks: &mut u64, version: V, out: &mut Spans<V>) -> Result<(), NoMemory>
    ensures span { OnOk result (out.new ≡ out.old ++ from marks.old version) }
    ensures marks { OnOk result (marks.new ≡ marks.old + 1) }
{
    let mark = next_mark(marks)?;
    out.push(Span {
        lower: before(version, mark),
        upper: None,
    })
}

/// Appends `(V, -)`.
pub fn push_above<V: Drop>(marks: &mut u64, version: V, out: &mut Spans<V>) -> Result<(), NoMemory>
    ensures span { OnOk result (out.new ≡ out.old ++ above marks.old version) }
    ensures marks { OnOk result (marks.new ≡ marks.old + 1) }
{
    let mark = next_mark(marks)?;
    out.push(Span {
        lower: after(version, mark),
        upper: None,
    })
}

/// Appends `(-, V)`.
pub fn push_below<V: Drop>(marks: &mut u64, version: V, out: &mut Spans<V>) -> Result<(), NoMemory>
    ensures span { OnOk result (out.new ≡ out.old ++ below marks.old version) }
    ensures marks { OnOk result (marks.new ≡ marks.old + 1) }
{
    let mark = next_mark(marks)?;
    out.push(Span {
        lower: None,
        upper: before(version, mark),
    })
}

/// Appends `(-, V]`.
pub fn push_up_to<V: Drop>(marks: &mut u64, version: V, out: &mut Spans<V>) -> Result<(), NoMemory>
    ensures span { OnOk result (out.new ≡ out.old ++ up_to marks.old version) }
    ensures marks { OnOk result (marks.new ≡ marks.old + 1) }
{
    let mark = next_mark(marks)?;
    out.push(Span {
        lower: None,
        upper: after(version, mark),
    })
}

/// Appends `[V, W)`.
pub fn push_between<V: Drop>(
    marks: &mut u64,
    version: V,
    end: V,
    out: &mut Spans<V>,
) -> Result<(), NoMemory>
    ensures span { OnOk result (out.new ≡ out.old ++ between marks.old version end) }
    ensures marks { OnOk result (marks.new ≡ marks.old + 2) }
{
    let first = next_mark(marks)?;
    let second = next_mark(marks)?;
    out.push(Span {
        lower: before(version, first),
        upper: before(end, second),
    })
}

/// Appends `[V, W]`.
pub fn push_closed<V: Drop>(
    marks: &mut u64,
    version: V,
    end: V,
    out: &mut Spans<V>,
) -> Result<(), NoMemory>
    ensures span { OnOk result (out.new ≡ out.old ++ closed marks.old version end) }
    ensures marks { OnOk result (marks.new ≡ marks.old + 2) }
{
    let first = next_mark(marks)?;
    let second = next_mark(marks)?;
    out.push(Span {
        lower: before(version, first),
        upper: after(end, second),
    })
}
