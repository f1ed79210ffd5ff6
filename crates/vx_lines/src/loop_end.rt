/// How a run over the lines of a source ended.
#[derive(Clone, Copy, Debug, PartialEq, Eq)]
pub enum LoopEnd {
    /// Every answer is an accepted line's, and all was written.
    Done,
    /// An answer is a refused line's, and all was written.
    Refused,
    /// A read failed.
    ReadFault,
    /// A write failed.
    WriteFault,
    /// No memory was found.
    NoMemory,
    /// The input is too long.
    InputLimit,
}
