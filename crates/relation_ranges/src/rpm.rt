//! RPM's relations: the comparisons of rpm's dependencies. That they stand in one text, parted by commas, and the test of one
//! version are this project's own.

mod back;
mod range;
mod table;

#[cfg(test)]
pub(crate) use back::text_of;
pub use range::{
    RpmRange, rpm_moved_cut_parts_the_same, rpm_one_answer, rpm_refusal_is_necessary,
    rpm_relation_is_its_span,
};
