//! Versions of any scheme, the cuts and spans that they make, and what a scheme and its range language promise.
#![tactic(auto)]

mod back_fault;
mod domain;
mod ident;
mod list;
mod memory;
mod name;
mod native;
mod range_fault;
mod scheme;
mod span;
mod step_fault;
#[cfg(test)]
mod tests;
mod text;
mod version_fault;

pub use back_fault::BackFault;
pub use domain::Domain;
pub use ident::{Ident, Idents, copy_ident, copy_idents, copy_text};
pub use list::List;
pub use memory::NoMemory;
pub use name::SchemeName;
pub use native::Native;
pub use range_fault::{EndKind, RangeFault};
pub use scheme::Scheme;
pub use span::{Alternative, Bounds, Cut, Span, Spans};
pub use step_fault::StepFault;
pub use text::Text;
pub use version_fault::VersionFault;
