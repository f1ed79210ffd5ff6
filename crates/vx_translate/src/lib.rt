//! Translations by the name of a scheme: native range texts to VERS texts and back, canonical VERS texts, and whether
//! a VERS text holds a version, or that of a package URL.
#![tactic(auto)]

mod backward;
mod by_head;
mod canonical;
mod check_refusal;
mod checking;
mod domains;
mod forward;
mod having;
mod laws;
mod refusal;
mod table;
#[cfg(test)]
mod tests;
mod translating;
mod vers_texts;

pub use by_head::{canon, check, from_vers, has};
pub use check_refusal::CheckRefusal;
pub use domains::{chosen_domain, default_domain};
pub use laws::{
    canonical_again, one_canon, one_canonical, one_check, one_checking, one_from_vers, one_has,
    one_membership, one_to_vers, one_translation, one_translation_back,
};
pub use refusal::{BackKind, Refusal, VersPart};
pub use table::row_name;
pub use translating::to_vers;
