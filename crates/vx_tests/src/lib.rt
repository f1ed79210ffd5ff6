//! Tests of sets of versions, of VERS texts and of their lists, at a small scheme of their own and at npm.
#![tactic(auto)]

#[cfg(test)]
mod lists;
mod scheme;
#[cfg(test)]
mod sets;
#[cfg(test)]
mod simplifying;
#[cfg(test)]
mod vers_texts;
mod version;

pub use scheme::Levels;
pub use version::Level;
