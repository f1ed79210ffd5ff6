//! Sets of versions of any scheme, as one sorted list of cuts.
#![tactic(auto)]

mod bounds;
mod compares;
mod counter;
mod laws;
mod line;
mod merging;
mod part;
mod set;

pub use bounds::{Joined, join_bounds};
pub use compares::{Compares, Counted};
pub use counter::Steps;
pub use laws::{joined_is_short, joined_none, joined_unique, judged_joined, merged_unique};
pub use merging::{Cuts, merge};
pub use set::Set;
