ghost use Rattle.std.specs.Prelude.{◌≡◌, ◌+◌, ◌++◌, MatchOption, OnOk, length};
ghost use Rattle.vx_scheme.specs.Cuts.{cuts_of};
ghost use Rattle.relation_ranges.specs.Comparison.{HasSigns, signs_of, spans_of};

use std::alloc::Global;
use vx_range::{push_above, push_below, push_from, push_point, push_up_to};
use vx_scheme::{NoMemory, Scheme, Spans};
use vx_text::ByteClass;

/// An operator that compares with one version. The signs are those of `Strict::Single`.
#[derive(Debug, Clone, Copy, PartialEq, Eq)]
pub enum Comparison {
    /// `<`
    Less,
    /// `<=`
    LessOrEqual,
    /// `=`
    Equal,
    /// `>=`
    GreaterOrEqual,
    /// `>`
    Greater,
}

/// How the two strict comparisons are written.
#[derive(Debug, Clone, Copy, PartialEq, Eq)]
pub enum Strict {
    /// `<` and `>`, as RubyGems and RPM have them.
    Single,
    /// `<<` and `>>`, as Debian has them.
    Doubled,
}

/// The bytes `<`, `=` and `>`, of which comparisons are written.
pub struct RelationSigns;

impl ByteClass for RelationSigns {
    ghost use Rattle.relation_ranges.specs.Comparison.{is_sign};

    ghost holds = { is_sign };

    fn is_one(byte: u8) -> bool {
        byte == b'<' || byte == b'=' || byte == b'>'
    }
}

/// The comparison that is written so; `None` exactly where none is.
pub(crate) fn comparison_of(strict: Strict, signs: &[u8]) -> Option<Comparison>
    ensures { MatchOption result
        ((comparison : Comparison) → ¬ (HasSigns strict comparison signs.now))
        (λ comparison. HasSigns strict comparison signs.now) }
{
    match (strict, signs) {
        (_, b"<=") => Some(Comparison::LessOrEqual),
        (_, b"=") => Some(Comparison::Equal),
        (_, b">=") => Some(Comparison::GreaterOrEqual),
        (Strict::Single, b"<") | (Strict::Doubled, b"<<") => Some(Comparison::Less),
        (Strict::Single, b">") | (Strict::Doubled, b">>") => Some(Comparison::Greater),
        _ => None,
    }
}

/// How the comparison is written.
pub(crate) fn signs(strict: Strict, comparison: Comparison) -> &'static str
    ensures { result.now ≡ signs_of strict comparison }
{
    match (strict, comparison) {
        (_, Comparison::LessOrEqual) => "<=",
        (_, Comparison::Equal) => "=",
        (_, Comparison::GreaterOrEqual) => ">=",
        (Strict::Single, Comparison::Less) => "<",
        (Strict::Single, Comparison::Greater) => ">",
        (Strict::Doubled, Comparison::Less) => "<<",
        (Strict::Doubled, Comparison::Greater) => ">>",
    }
}

/// Appends the span of a comparison with a version.
pub(crate) fn push_compared<S: Scheme>(
    alloc: Global,
    comparison: Comparison,
    version: S::Version,
    marks: &mut u64,
    out: &mut Spans<S::Version>,
) -> Result<(), NoMemory>
    ensures span { OnOk result (out.new ≡ out.old ++ spans_of marks.old comparison version) }
    ensures marks { OnOk result (marks.new ≡ marks.old + length (cuts_of (spans_of marks.old comparison version))) }
{
    match comparison {
        Comparison::Less => push_below(marks, version, out),
        Comparison::LessOrEqual => push_up_to(marks, version, out),
        Comparison::Equal => push_point::<S>(alloc, marks, version, out),
        Comparison::GreaterOrEqual => push_from(marks, version, out),
        Comparison::Greater => push_above(marks, version, out),
    }
}
