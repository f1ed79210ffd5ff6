//! Where bytes come from and where they go, and the lines of a source, one at a time in the memory of one line.
#![tactic(auto)]

mod answering;
mod buffers;
mod laws;
mod lines;
mod loop_end;
mod memory_calls;
mod memory_sink;
mod memory_source;
mod next_line;
mod outside;
mod plain_source;
mod standard;
#[cfg(test)]
mod tests;

pub use answering::{Answering, answer_lines};
pub use buffers::{MOST_BYTES, MOST_READ};
pub use laws::one_answer;
pub use lines::{Lines, MOST_INPUT};
pub use loop_end::LoopEnd;
pub use memory_sink::MemorySink;
pub use memory_source::MemorySource;
pub use next_line::NextLine;
pub use outside::{Failed, Sink, Source, write_whole};
pub use plain_source::PlainSource;
pub use standard::{StdSink, StdSource};
