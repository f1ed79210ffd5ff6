//! NuGet's versions, with numerals up to 2^128-1.
#![tactic(auto)]

mod order;
mod past;
mod scheme;
mod spelling;
#[cfg(test)]
mod tests;
mod version;
mod writing;

pub use order::order_by_first_difference;
pub use past::{limits_agree, past_numeral};
pub use scheme::Nuget;
pub use version::NugetVersion;
