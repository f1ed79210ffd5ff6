//! Lines: what a line asks, and what it is answered.
#![tactic(auto)]

mod answering;
mod batching;
mod check_replies;
mod drill_lines;
mod drilling;
mod fields;
mod laws;
mod names;
mod printing;
mod purl_replies;
mod reply;
mod replying;
mod request;
mod row;
#[cfg(test)]
mod tests;
mod vers_replies;

pub use answering::{answer, answer_to_line, answer_to_request, answer_to_row, too_long};
pub use batching::batch;
pub use drill_lines::{MOST_LINES, drill_line};
pub use drilling::{Sums, answer_to_drill, drill};
pub use fields::{Fields, split};
pub use laws::{accepted_lines_say, drill_is_batch, one_answer, one_request};
pub use reply::Answer;
pub use request::{Request, request_of};
pub use row::Row;
pub use vx_lines::{
    Failed, LoopEnd, MemorySink, MemorySource, PlainSource, Sink, Source, StdSink, StdSource,
};
