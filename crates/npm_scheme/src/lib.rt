//! npm's versions: Semantic Versioning 2.0, with numerals up to 2^128-1.
#![tactic(auto)]

mod order;
mod past;
mod scheme;
mod spelling;
#[cfg(test)]
mod tests;
mod version;
mod writing;

pub use order::order_by_first_difference;
pub use past::{limits_agree, past_numeral};
pub use scheme::Npm;
pub use spelling::{
    Written, is_plain_numeral, plain_version_of_parts, take_apart, version_of_parts,
};
pub use version::{NpmVersion, lowest};
