/// A piece of a range text, as it is written.
#[derive(Clone, Copy)]
pub struct Piece<'a, K> {
    /// What its place among the others makes of it.
    pub kind: K,
    /// Where it begins in the range text.
    pub at: usize,
    /// Its bytes.
    pub bytes: &'a [u8],
}

/// What a language answers on one piece.
#[derive(Drop)]
pub enum PieceReading<C> {
    /// It is this construct, and its numerals are within the limit.
    Construct(C),
    /// It is a construct, and its first numeral past the limit begins at this place of the range text.
    Past(usize),
    /// It is no construct.
    NoConstruct,
}
