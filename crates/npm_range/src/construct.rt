use npm_scheme::NpmVersion;

/// An operator of npm's range language.
#[derive(Debug, Clone, Copy, PartialEq, Eq)]
pub enum Operator {
    /// Nothing, or `=`.
    Equal,
    /// `<`
    Less,
    /// `<=`, and the upper side of a hyphen range.
    LessEqual,
    /// `>`
    Greater,
    /// `>=`, and the lower side of a hyphen range.
    GreaterEqual,
    /// `~` or `~>`
    Tilde,
    /// `^`
    Caret,
}

/// A version of which the last numbers may be left out.
#[derive(Debug, Drop)]
pub enum Partial {
    /// `x`: no number.
    Any,
    /// `M`: the first number alone.
    Major(u128),
    /// `M.m`: the first two numbers.
    Minor(u128, u128),
    /// `M.m.p`, with its pre-release; the build is left out.
    Full(NpmVersion),
}

/// An operator with its partial.
#[derive(Debug, Drop)]
pub struct Construct {
    /// How a version has to compare.
    pub operator: Operator,
    /// What it is compared with.
    pub partial: Partial,
}
