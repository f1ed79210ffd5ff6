//! Lists of version constraints over any scheme: what they mean, when they are valid, and their VERS text.
#![tactic(auto)]

mod constraints;
mod fault;
mod kinds;
mod laws;
mod membership;
mod naming;
mod parting;
mod reading;
mod sorting;
mod validity;
mod writing;

pub use constraints::{Comparator, Constraint, Constraints};
pub use fault::VersFault;
pub use laws::{alike_mean_alike, same_lists_mean, walk_means};
pub use naming::head;
pub use reading::{one_list, one_refusal, read, read_again, refused_is_unspelled};
pub use writing::write;
