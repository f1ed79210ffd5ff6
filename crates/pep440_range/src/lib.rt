//! PyPI's version specifiers, after PEP 440.
#![tactic(auto)]

mod back;
mod construct;
mod laws;
mod making;
mod operands;
mod range;
mod reading;
mod sizes;
#[cfg(test)]
mod tests;

pub use construct::{Comparison, Construct, Operator};
pub use laws::{
    pypi_construct_is_its_spans, pypi_limits_agree, pypi_no_end_tells_apart, pypi_one_answer,
    pypi_raises_agree,
};
pub use range::PypiRange;
pub use sizes::pypi_is_short;
