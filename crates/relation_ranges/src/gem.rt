//! RubyGems' requirements, after `Gem::Requirement`: comparisons, `!=` and `~>`. That they stand in one text, parted by commas,
//! is this project's own: `Gem::Requirement` takes a list of texts.

mod back;
mod operators;
mod range;
mod table;

#[cfg(test)]
pub(crate) use back::text_of;
pub use operators::{Operator, RequirementSigns};
pub use range::{GemRange, gem_one_answer, gem_requirement_is_its_spans};
