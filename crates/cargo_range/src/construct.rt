use crate::version::CargoVersion;
use semver::Op;

/// The numbers that a comparator names.
#[derive(Debug, Drop)]
pub enum Partial {
    /// `I`
    Major(u64),
    /// `I.J`
    Minor(u64, u64),
    /// `I.J.K`, with its pre-release where it has one.
    Full(CargoVersion),
}

/// A comparator of a requirement, which has a form of the Cargo book: one, two or three numbers, and a pre-release
/// behind three alone.
#[derive(Debug, Drop)]
pub struct Construct {
    /// Its operator, as `semver` tells it.
    pub operator: Op,
    /// Its numbers.
    pub partial: Partial,
}
