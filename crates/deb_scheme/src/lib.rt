//! Debian's versions, with numerals up to 2^128-1.
#![tactic(auto)]

mod letters;
mod order;
mod past;
mod scheme;
mod spelling;
#[cfg(test)]
mod tests;
mod version;
mod writing;

pub use order::order_by_first_difference;
pub use past::limits_agree;
pub use scheme::Deb;
pub use spelling::is_version;
pub use version::DebVersion;
pub use vx_text::first_past as past_numeral;
