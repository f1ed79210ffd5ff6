/// A bound of a bracket.
#[derive(Debug, Drop)]
pub struct Bound<V> {
    /// The version at which it stands.
    pub version: V,
    /// Whether the versions that are order-equal to it belong to the bracket: its sign is square.
    pub included: bool,
}

/// What a bracket asks of a version.
#[derive(Debug, Drop)]
pub enum Bracket<V> {
    /// `[V]`: to be order-equal to V.
    Exact(V),
    /// `[V,W]`, `(V,W)` and so on: to lie between a lower and an upper bound, of which each may be missing.
    Between(Option<Bound<V>>, Option<Bound<V>>),
}
