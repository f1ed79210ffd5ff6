//! PyPI's versions: PEP 440, with numerals up to 2^128-1.
#![tactic(auto)]

mod next;
mod order;
mod past;
mod scheme;
mod shape;
mod spelling;
#[cfg(test)]
mod tests;
mod version;
mod words;
mod writing;

pub use next::{
    bump, dev0, locals_alone_lie_between, next_pre, steps_make_versions, succ, succ_is_next,
};
pub use order::order_by_first_difference;
pub use past::{limits_agree, past_numeral};
pub use scheme::Pypi;
pub use shape::{Shape, shape_of_text, shape_of_version};
pub use version::{Locals, Numbers, Pep440Version, PreKind, PrePart, copy_numbers};
