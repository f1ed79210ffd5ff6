//! Rows of entries that are compared at the first place where they differ: lists of letters, lists of identifiers, and
//! any rows whose places a caller can compare. And how such lists are read: identifiers with dots between them, with
//! their numerals past the limit and their writing, and texts that are scanned from left to right.
#![tactic(auto)]

mod dotted;
mod idents;
mod letter;
mod letters;
mod past_parts;
mod places;
mod scanning;
mod scanning_tokens;
#[cfg(test)]
mod tests;
mod writing;

pub use dotted::{
    IdentifierBytes, Identifiers, MadeOf, PartForm, all_parts, cut_apart, is_identifier,
    read_idents,
};
pub use idents::{EmptyPlace, IdentRule, NumberPlace, WordOrder, compare_idents, order_by_idents};
pub use letter::{Letter, Letters, copy_letters};
pub use letters::{compare_letters, order_by_letters};
pub use past_parts::{first_past_part, is_past_numeral};
pub use places::compare_places;
pub use scanning::{Scan, scan_text};
pub use scanning_tokens::{Tokens, scan_tokens};
pub use writing::{push_dotted, push_pre_release};
