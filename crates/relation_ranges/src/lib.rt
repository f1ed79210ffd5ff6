//! Range languages of lists of relations, each of an operator and a version, parted by commas. A language fills in a
//! table: its operators, and what each makes of a version. Debian's, RubyGems' and RPM's stand here.
#![tactic(auto)]

mod bounds;
mod comparison;
mod deb;
mod gem;
mod range;
mod reading;
mod relations;
mod rpm;
mod sizes;
#[cfg(test)]
mod tests;

pub use comparison::{Comparison, RelationSigns, Strict};
pub use deb::{DebRange, deb_one_answer, deb_relation_is_its_span, deb_term_is_its_spans};
pub use gem::{
    GemRange, Operator as GemOperator, RequirementSigns, gem_one_answer,
    gem_requirement_is_its_spans,
};
pub use range::RelationRange;
pub use reading::read_relation;
pub use relations::{BackForm, Relation, Relations};
pub use rpm::{
    RpmRange, rpm_moved_cut_parts_the_same, rpm_one_answer, rpm_refusal_is_necessary,
    rpm_relation_is_its_span,
};
pub use sizes::{deb_is_short, gem_is_short, rpm_is_short};
