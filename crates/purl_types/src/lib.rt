//! Package URLs by their types: the type table, canonical texts, when two mean the same package, and the version text
//! that one gives for its scheme.
#![tactic(auto)]

mod candidates;
mod comparing;
mod folding;
mod laws;
mod naming;
mod printing;
mod table;

pub use candidates::candidate;
pub use comparing::{is_same, same};
pub use folding::{fold, folds_once};
pub use laws::{one_candidate, one_canonical_answer, one_comparison};
pub use naming::scheme_of;
pub use printing::{canonical, canonical_again, one_canonical};

#[cfg(test)]
mod tests;
