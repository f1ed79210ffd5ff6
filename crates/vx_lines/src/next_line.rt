ghost use Rattle.std.specs.Prelude.{◌≡◌};
ghost use Rattle.vx_lines.specs.Lines.{stays_open};

/// What a source has next.
#[derive(Clone, Copy, Debug, PartialEq, Eq)]
pub enum NextLine {
    /// A line.
    Line,
    /// A line of more bytes than a line may have. Its bytes are gone.
    TooLong,
    /// The end of the input, and no line before it.
    End,
    /// A read failed.
    Failed,
    /// The input is too long.
    Limit,
}

impl NextLine {
    /// Whether more may be asked for after it: after a line, and after one that is too long. It takes no memory.
    pub fn stays_open(self) -> bool
        ensures { result ≡ stays_open self }
    {
        matches!(self, NextLine::Line | NextLine::TooLong)
    }
}
