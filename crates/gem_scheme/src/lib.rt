//! RubyGems' versions, with numerals up to 2^128-1.
#![tactic(auto)]

mod order;
mod past;
mod scheme;
mod segments;
mod spelling;
mod steps;
#[cfg(test)]
mod tests;
mod version;
mod writing;

pub use order::order_by_first_difference;
pub use past::{limits_agree, past_numeral};
pub use scheme::Gem;
pub use spelling::is_version;
pub use steps::bump;
pub use version::{GemVersion, Segment, Segments};
