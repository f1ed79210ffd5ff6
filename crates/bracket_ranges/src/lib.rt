//! Range languages of brackets, `[V,W)` and so on, in which a square sign lets its bound in and a round one leaves it out.
//! A language fills in a table: what a version alone means, and whether a text may list brackets. Maven's and NuGet's
//! stand here.
#![tactic(auto)]

mod back;
mod bracket;
mod cutting;
mod laws;
mod making;
mod maven;
mod nuget;
mod range;
mod reading;
mod sizes;
mod table;
#[cfg(test)]
mod tests;

pub use bracket::{Bound, Bracket};
pub use cutting::Kind;
pub use laws::{blank_is_no_range, bracket_is_its_spans, brackets_one_answer};
pub use maven::{MavenRange, maven_version_alone_asks_nothing};
pub use nuget::{NugetRange, nuget_version_alone_is_the_minimum};
pub use range::BracketRange;
pub use sizes::{brackets_are_short, maven_is_short, nuget_is_short};
pub use table::Brackets;
