//! Lists of constraints, simplified, and sets of versions, each made of the other.
#![tactic(auto)]

mod closing;
mod copying;
mod laws;
mod listing;
mod simplifying;
mod spanning;

pub use laws::{
    edges_mean, list_again_means, list_is_short, list_is_sorted, list_keeps_cuts, list_means,
    same_stays_simple,
};
pub use listing::{FromSet, from_set};
pub use simplifying::{into_simple, simplify};
pub use spanning::{into_set, to_set};
