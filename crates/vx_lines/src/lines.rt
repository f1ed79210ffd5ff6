ghost use Rattle.std.specs.Prelude.{◌≡◌, ◌≢◌, ◌≤◌, ◌<◌, ◌⊎◌, [], true, false, length, IfOk, IsTrue};
ghost use Rattle.vx_spec.specs.Marks.{Lacks};
ghost use Rattle.vx_lines.specs.Outside.{Rose};
ghost use Rattle.vx_lines.specs.Lines.{line_feed, Reading, Takes, stays_open};
ghost use Rattle.vx_lines.specs.Steps.Buffers.{held_of, reading_of, IsGood};

use crate::buffers::{Buffers, MOST_BYTES, MOST_READ, has_feed, next_of};
use crate::next_line::NextLine;
use crate::outside::Source;
use std::alloc::Global;
use std::marker::Model;
use vx_scheme::NoMemory;

/// The most bytes that may be taken from a source, 2^30.
pub const MOST_INPUT: u64 = 1_073_741_824;

/// The lines of a source, of which one at a time is held. Contracts see it as the limit, the bytes held, the number of
/// bytes taken, whether the end was seen, whether it is open, and the line that was given last.
#[derive(Drop)]
pub struct Lines {
    buffers: Buffers,
    is_open: bool,
}

impl Model for Lines {
    ghost use Rattle.std.specs.Prelude.{◌≡◌, ◌≤◌, ◌<◌, [], true, length};
    ghost use Rattle.vx_lines.specs.declared.buffers.TheConstants.{MOST_BYTES, MOST_READ};
    ghost use Rattle.vx_lines.specs.declared.lines.TheConstants.{MOST_INPUT};
    ghost use Rattle.vx_lines.specs.Lines.{Reading};
    ghost use Rattle.vx_lines.specs.Steps.Buffers.{held_of, reading_of, IsGood};

    ghost Value = { Reading };

    ghost view = { λ lines. reading_of lines.is_open lines.buffers };

    ghost invariant = { λ lines. IsGood lines.buffers
        × (lines.buffers.most ≡ MOST_BYTES)
        × (length lines.buffers.chunk.items ≡ MOST_READ)
        × (lines.buffers.limit ≤ MOST_INPUT)
        × (lines.is_open ≡ true → lines.buffers.taken < lines.buffers.limit)
        × (lines.buffers.ended ≡ true → held_of lines.buffers ≡ []) };
}

impl Lines {
    /// A reader of the lines of a source of fewer bytes than the limit, which lies from 1 to 2^30. Its only refusal is
    /// want of memory.
    pub fn new(alloc: Global, limit: u64) -> Result<Lines, NoMemory>
        requires some { 0 < limit }
        requires most { limit ≤ MOST_INPUT }
        ensures { IfOk result (λ lines. lines
            ≡ record { limit = limit; held = []; taken = 0; ended = false; is_open = true; line = [] }) }
    {
        let line = Vec::with_capacity(alloc, MOST_BYTES)?;
        let chunk = vec![in alloc; 0u8; MOST_READ]?;
        let buffers = Buffers {
            line,
            most: MOST_BYTES,
            is_long: false,
            chunk,
            from: 0,
            to: 0,
            feed: None,
            limit,
            taken: 0,
            ended: false,
        };
        Ok(Lines {
            buffers,
            is_open: true,
        })
    }

    /// Whether a next line may be asked for: exactly where none of `End`, `Failed` and `Limit` was answered. It takes
    /// no memory.
    pub fn is_open(&self) -> bool
        ensures { result ≡ self.now.is_open }
    {
        self.is_open
    }

    /// Whether a whole line is held, so that the next call of `next_line` reads nothing. It takes no memory.
    pub fn has_line(&self) -> bool
        ensures whole { result ≡ true → ¬ Lacks line_feed self.now.held }
        ensures none { result ≡ false → Lacks line_feed self.now.held }
    {
        has_feed(&self.buffers)
    }

    /// What the source has next. A read is made only where no line feed is held and the end was not seen, and asks for
    /// no more bytes than the limit leaves. `Failed` comes only where the source's count of faults rose. It takes no
    /// memory.
    pub fn next_line<R: Source>(&mut self, source: &mut R) -> NextLine
        requires { IsTrue self.old.is_open }

        // The answer is that of the table, and nothing is lost: the bytes held and those taken are the line and the
        // bytes held behind it.
        ensures takes { Takes MOST_BYTES MOST_READ result self.old self.new (R.left source.old) (R.left source.new) }
        ensures limit { self.new.limit ≡ self.old.limit }
        ensures open { self.new.is_open ≡ stays_open result }
        ensures held { length self.new.held ≤ MOST_READ }
        ensures empty { result ≢ NextLine.Line → self.new.line ≡ [] }

        // Once the end was seen, and while a whole line is held, the source is not read.
        ensures unread { (self.old.ended ≡ true) ⊎ ¬ Lacks line_feed self.old.held → source.new ≡ source.old }

        // A failure has its cause, and no other answer hides one.
        ensures failed { result ≡ NextLine.Failed → Rose (R.faults source.old) (R.faults source.new) }
        ensures kept { result ≢ NextLine.Failed → R.faults source.new ≡ R.faults source.old }
    {
        let next = next_of(&mut self.buffers, source);
        self.is_open = next.stays_open();
        if next != NextLine::Line {
            self.buffers.line.clear();
        }
        next
    }

    /// The line that the last call of `next_line` gave as `Line`; empty after every other answer and before the first
    /// call. It takes no memory.
    pub fn line(&self) -> &[u8]
        ensures line { result.now ≡ self.now.line }
        ensures short { length result.now ≤ MOST_BYTES }
    {
        &self.buffers.line
    }
}
