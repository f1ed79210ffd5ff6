//! What range languages share: pieces with their places in groups, one way through them that reads each piece once,
//! and the spans that constructs make.
#![tactic(auto)]

mod bounds;
mod extent;
mod few;
mod findings;
mod gaps;
mod language;
mod laws;
mod lists;
mod making;
mod piece;
mod points;
mod shape;
mod spans;
#[cfg(test)]
mod tests;
mod versions;

pub use bounds::{bounds_of_alternatives, bounds_of_terms};
pub use extent::{Extent, push_extent};
pub use few::{Few, Groups, Pieces};
pub use gaps::gap_fault;
pub use language::Language;
pub use laws::{
    bounds_are_short, constructs_are_counted_once, marks_run_on, one_answer, texts_are_short,
};
pub use lists::{group_list, piece_of, pieces_are_those_of_texts, pieces_at};
pub use making::{Making, Outcome};
pub use piece::{Piece, PieceReading};
pub use points::is_point;
pub use spans::{
    next_mark, push_above, push_below, push_between, push_closed, push_every, push_from,
    push_point, push_up_to,
};
pub use versions::{PlacedVersions, read_version};
