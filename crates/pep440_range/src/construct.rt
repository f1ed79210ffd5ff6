use pep440_scheme::Pep440Version;
use vx_scheme::Text;

/// An operator that takes a public version, PEP 440, "Version specifiers".
#[derive(Debug, Clone, Copy, PartialEq, Eq)]
pub enum Comparison {
    /// `~=`, "Compatible release".
    Compatible,
    /// `<=`
    LessOrEqual,
    /// `>=`
    GreaterOrEqual,
    /// `<`
    Less,
    /// `>`
    Greater,
}

/// An operator of PyPI's range language.
#[derive(Debug, Clone, Copy, PartialEq, Eq)]
pub enum Operator {
    /// `===`
    Identical,
    /// `==`
    Equal,
    /// `!=`
    NotEqual,
    /// An operator that takes a public version.
    Compares(Comparison),
}

/// An operator with what it takes. A release R is held as the version of its epoch and its numbers alone.
#[derive(Debug, Drop)]
pub enum Construct {
    /// `~=V`, `<=V`, `>=V`, `<V`, `>V`: of V no more than its public part counts.
    Compares(Comparison, Pep440Version),
    /// `==V`
    Equal(Pep440Version),
    /// `!=V`
    NotEqual(Pep440Version),
    /// `==R.*`: of R no more than its epoch and its numbers count.
    Within(Pep440Version),
    /// `!=R.*`
    NotWithin(Pep440Version),
    /// `===T`, "Arbitrary equality".
    Identical(Text),
}
