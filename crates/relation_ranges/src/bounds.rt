ghost use Rattle.std.specs.Prelude.{◌≡◌, ◌++◌, OnOk, codes};
ghost use Rattle.relation_ranges.specs.Written.{range_text, relation_text};
ghost use Rattle.relation_ranges.specs.Comparison.{signs_of};
ghost use Rattle.relation_ranges.specs.Bounds.{bound_terms, lower_comparison, lower_relation, span_terms, upper_comparison, upper_relation};
ghost use Rattle.relation_ranges.specs.Steps.Terms.{comma};

use crate::comparison::{Comparison, Strict, signs};
use vx_range::is_point;
use vx_scheme::{Cut, NoMemory, Scheme, Text};

/// Appends the terms of a single span: `= V` of a point, and else its bounds.
pub(crate) fn push_span<S: Scheme>(
    out: &mut Text,
    strict: Strict,
    lower: &Option<Cut<S::Version>>,
    upper: &Option<Cut<S::Version>>,
) -> Result<(), NoMemory>
    ensures { OnOk result (out.new ≡ out.old ++ range_text (signs_of strict) S.normal (span_terms (λ c. c) S.order lower.now upper.now)) }
{
    match (lower, upper) {
        (Some(lower), Some(upper)) if is_point::<S>(lower, upper) => {
            push_compared_with::<S>(out, strict, Comparison::Equal, &lower.version)
        }
        _ => push_bounds::<S>(out, strict, lower, upper),
    }
}

/// Appends the lower bound, then the upper bound.
pub(crate) fn push_bounds<S: Scheme>(
    out: &mut Text,
    strict: Strict,
    lower: &Option<Cut<S::Version>>,
    upper: &Option<Cut<S::Version>>,
) -> Result<(), NoMemory>
    ensures { OnOk result (out.new ≡ out.old ++ range_text (signs_of strict) S.normal (bound_terms (λ c. c) lower.now upper.now)) }
{
    match (lower, upper) {
        (Some(lower), Some(upper)) => {
            push_lower::<S>(out, strict, lower)?;
            out.push_str(", ")?;
            push_upper::<S>(out, strict, upper)
        }
        (Some(lower), None) => push_lower::<S>(out, strict, lower),
        (None, Some(upper)) => push_upper::<S>(out, strict, upper),
        (None, None) => Ok(()),
    }
}

/// Appends the relation of a lower cut.
pub(crate) fn push_lower<S: Scheme>(
    out: &mut Text,
    strict: Strict,
    cut: &Cut<S::Version>,
) -> Result<(), NoMemory>
    ensures { OnOk result (out.new ≡ out.old ++ relation_text (signs_of strict) S.normal (lower_relation (λ c. c) cut.now)) }
{
    push_compared_with::<S>(out, strict, lower_comparison(cut.after), &cut.version)
}

/// Appends the relation of an upper cut.
pub(crate) fn push_upper<S: Scheme>(
    out: &mut Text,
    strict: Strict,
    cut: &Cut<S::Version>,
) -> Result<(), NoMemory>
    ensures { OnOk result (out.new ≡ out.old ++ relation_text (signs_of strict) S.normal (upper_relation (λ c. c) cut.now)) }
{
    push_compared_with::<S>(out, strict, upper_comparison(cut.after), &cut.version)
}

fn lower_comparison(after: bool) -> Comparison
    ensures { result ≡ lower_comparison after }
{
    if after {
        Comparison::Greater
    } else {
        Comparison::GreaterOrEqual
    }
}

/// The comparison of an upper cut on this side of its version.
pub(crate) fn upper_comparison(after: bool) -> Comparison
    ensures { result ≡ upper_comparison after }
{
    if after {
        Comparison::LessOrEqual
    } else {
        Comparison::Less
    }
}

/// Appends a comparison with a version.
pub(crate) fn push_compared_with<S: Scheme>(
    out: &mut Text,
    strict: Strict,
    comparison: Comparison,
    version: &S::Version,
) -> Result<(), NoMemory>
    ensures { OnOk result (out.new ≡ out.old
        ++ relation_text (signs_of strict) S.normal (record { operator = comparison; version = version.now })) }
{
    push_relation::<S>(out, signs(strict, comparison), version)
}

/// Appends what parts a term from those before it, where `some` says that there are such.
pub(crate) fn push_comma(out: &mut Text, some: bool) -> Result<(), NoMemory>
    ensures { OnOk result (out.new ≡ out.old ++ comma some) }
{
    if some { out.push_str(", ") } else { Ok(()) }
}

/// Appends a relation: its signs, a space and the normal text of its version.
pub(crate) fn push_relation<S: Scheme>(
    out: &mut Text,
    signs: &str,
    version: &S::Version,
) -> Result<(), NoMemory>
    ensures { OnOk result (out.new ≡ out.old ++ (signs.now ++ (codes " " ++ S.normal version.now))) }
{
    out.push_str(signs)?;
    out.push_str(" ")?;
    S::write(version, out)
}
