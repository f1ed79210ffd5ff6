//! Texts: numerals, pieces, folding and escapes.
#![tactic(auto)]

mod cutting;
mod epochs;
mod escapes;
mod folding;
mod marks;
mod numerals;
mod past;
mod runs;
mod whole;

pub use cutting::{Piece, Pieces, pieces};
pub use epochs::{
    EpochParts, EpochVersions, epoch_number, epoch_parts, epoch_version, has_epoch_parts,
    is_epoch_version,
};
pub use escapes::{
    EscapeFault, escape, escapes_are_undone, first_broken, is_left, round_trip, unescape,
};
pub use folding::{lower, same_folded};
pub use marks::{cut, cut_bytes, first_cut, last_cut, parts};
pub use numerals::{NumeralFault, is_numeral, numeral};
pub use past::{first_past, is_past, number_of, numeral_of};
pub use runs::{
    Alphabetic, Alphanumeric, Blanks, ByteClass, Digits, Solids, cut_run, is_made_of, past_run,
    trimmed, without_end,
};
pub use whole::{Pushes, push_whole};

#[cfg(test)]
mod tests;
