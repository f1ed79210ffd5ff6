//! Maven's versions after the POM reference, "Version Order Specification", with numerals up to 2^128-1.
#![tactic(auto)]

mod letters;
mod order;
mod past;
mod qualifiers;
mod scheme;
mod spelling;
#[cfg(test)]
mod tests;
mod tokens;
mod version;
mod writing;

pub use order::order_by_first_difference;
pub use past::{limits_agree, past_numeral};
pub use scheme::Maven;
pub use spelling::is_version;
pub use version::MavenVersion;
