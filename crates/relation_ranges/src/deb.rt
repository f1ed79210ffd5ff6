//! Debian's relations, after Debian Policy: terms parted by commas, each of relations parted by bars.

mod back;
mod range;
mod table;

#[cfg(test)]
pub(crate) use back::text_of;
pub use range::{DebRange, deb_one_answer, deb_relation_is_its_span, deb_term_is_its_spans};
