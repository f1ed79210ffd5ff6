//! npm's version ranges, after the README of node-semver.
#![tactic(auto)]

mod back;
mod construct;
mod cutting;
mod laws;
mod making;
mod partials;
mod range;
mod reading;
mod sizes;
#[cfg(test)]
mod tests;

pub use construct::{Construct, Operator, Partial};
pub use cutting::Kind;
pub use laws::{construct_is_its_spans, npm_limits_agree, npm_one_answer, npm_raises_agree};
pub use range::NpmRange;
pub use sizes::npm_is_short;
