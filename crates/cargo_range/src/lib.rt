//! Cargo's versions and its range language, both ways, over the `semver` crate: Semantic Versioning 2.0 with numbers
//! below 2^64, and the requirements of the Cargo book.
#![tactic(auto)]

mod back;
mod bounds;
mod comparators;
mod construct;
mod laws;
mod making;
mod order;
mod range;
mod scheme;
mod sizes;
mod spelling;
#[cfg(test)]
mod tests;
mod version;
mod writing;

pub use construct::{Construct, Partial};
pub use laws::{
    comparator_is_its_span, every_comparator_has_a_form, matches_is_the_answer_of_semver,
    moved_cut_parts_the_same_releases, one_reading_and_one_refusal, printed_requirement_is_read,
    release_matches_each_comparator, spans_among_releases_hold_the_same,
    three_numbers_go_by_precedence,
};
pub use scheme::Cargo;
pub use sizes::cargo_is_short;
pub use version::CargoVersion;
