//! Package URLs: values, reading and writing.
#![tactic(auto)]

mod checking;
mod cutting;
mod decoding;
mod fault;
mod pairing;
mod placing;
mod reading;
mod value;
mod writing;

pub use fault::PurlFault;
pub use reading::{one_purl, one_refusal, read, refused_is_unspelled, spelled_is_valid};
pub use value::{Pair, Pairs, Purl, Segments};
pub use writing::{printed_spells, to_text, write};

#[cfg(test)]
mod tests;
