/// The piece of a line that lies directly above a cut.
#[derive(Debug, Drop)]
pub struct LinePiece<C> {
    /// The cut that stands below it.
    pub cut: C,
    /// Whether the piece is in.
    pub inside: bool,
}
