use crate::list::List;

/// A place on the line of versions, directly before or directly after a version's order class.
#[derive(Debug, Drop)]
pub struct Cut<V> {
    /// A version of the order class.
    pub version: V,
    /// Whether the cut stands after the order class.
    pub after: bool,
    /// Where the cut comes from: its number among the made cuts, from 0, or that of its constraint, from 1.
    pub mark: u64,
}

/// The versions between two cuts. `None` means unbounded.
#[derive(Debug, Drop)]
pub struct Span<V> {
    /// The cut that stands below the versions.
    pub lower: Option<Cut<V>>,
    /// The cut that stands above them.
    pub upper: Option<Cut<V>>,
}

/// A list of spans. As a term of a range, it holds a version where one of them does.
pub type Spans<V> = List<Span<V>>;

/// A list of terms, each of which has to hold a version.
pub type Alternative<V> = List<Spans<V>>;

/// A list of alternatives, one of which has to hold a version.
pub type Bounds<V> = List<Alternative<V>>;
