ghost use Rattle.std.specs.Prelude.{◌≡◌, ◌≢◌, ◌≤◌, ◌<◌, ◌++◌, [], List, ℕ, Bool, true, false, length, IfOk, OnOk, OnErr};
ghost use Rattle.std.specs.Io.KnownBytes.{Appends};
ghost use Rattle.vx_lines.specs.Steps.Answers.{Gathers, end_with};
ghost use Rattle.vx_lines.specs.Output.{Ran};
ghost use Rattle.vx_lines.specs.Lines.{stays_open};
ghost use Rattle.vx_lines.specs.Outside.{AppendsFront, HasCause, Rose, StopsAtFault, Succeeds, FailsAtLast};

use crate::buffers::{MOST_BYTES, MOST_READ};
use crate::lines::{Lines, MOST_INPUT};
use crate::loop_end::LoopEnd;
use crate::next_line::NextLine;
use crate::outside::{Failed, Sink, Source, write_whole};
use std::alloc::Global;
use vx_scheme::{NoMemory, Text};

/// What answers lines.
pub trait Answering {
    /// Whether a line is answered so: by whether the answer line is an accepted line's, and the answer line without its
    /// line feed.
    ghost says: { Self → List ℕ → Bool → List ℕ → Type 0 };

    /// Appends the answer line to a line of at most `MOST_BYTES` bytes, without a line feed, and answers whether it is
    /// an accepted line's.
    fn answer(&self, line: &[u8], text: &mut Text) -> Result<bool, NoMemory>
        requires { length line.now ≤ MOST_BYTES }
        ensures { IfOk result (λ ok. (answer : List ℕ) × says self.now line.now ok answer
            × (text.new ≡ text.old ++ answer)) };

    /// Appends the answer line to a line of more bytes, which is the same for all such lines.
    fn answer_long(&self, text: &mut Text) -> Result<bool, NoMemory>
        ensures { IfOk result (λ ok. (answer : List ℕ) × ((line : List ℕ) → MOST_BYTES < length line → says self.now line ok answer)
            × (text.new ≡ text.old ++ answer)) };
}

// Gathers the answer to what the source gave, with a line feed.
fn gather<A: Answering>(
    answering: &A,
    next: NextLine,
    line: &[u8],
    gathered: &mut Text,
) -> Result<bool, NoMemory>
    requires short { length line.now ≤ MOST_BYTES }
    ensures { IfOk result (λ ok. Gathers (A.says answering.now) MOST_BYTES next line.now gathered.old gathered.new ok) }
{
    let ok = if next == NextLine::TooLong {
        answering.answer_long(gathered)?
    } else {
        answering.answer(line, gathered)?
    };
    gathered.push_str("\n")?;
    Ok(ok)
}

// Writes what is gathered, and gathers anew, where the source is to be read.
fn write_gathered<W: Sink>(has_line: bool, gathered: &mut Text, sink: &mut W) -> Result<(), Failed>
    ensures later { has_line ≡ true → OnOk result ((gathered.new ≡ gathered.old) × (sink.new ≡ sink.old)) }
    ensures whole { has_line ≡ false → OnOk result ((gathered.new ≡ [])
        × Appends (W.held sink.old) (W.held sink.new) gathered.old) }
    ensures front { OnErr result (AppendsFront (W.held sink.old) (W.held sink.new) gathered.old) }
    ensures some { OnErr result (gathered.old ≢ []) }
    ensures cause { HasCause (W.faults sink.old) (W.faults sink.new) result }
    ensures calls { StopsAtFault W.write_gives sink.old sink.new result }
{
    if has_line || gathered.is_empty() {
        return Ok(());
    }
    write_whole(sink, gathered.as_str().as_bytes())?;
    gathered.cut(0);
    Ok(())
}

// How a run ends whose source has no more lines.
fn loop_end(is_ok: bool, next: NextLine) -> LoopEnd
    ensures { result ≡ end_with is_ok next }
{
    match next {
        NextLine::Failed => LoopEnd::ReadFault,
        NextLine::Limit => LoopEnd::InputLimit,
        _ if is_ok => LoopEnd::Done,
        _ => LoopEnd::Refused,
    }
}

/// Answers the lines of a source, one after the other, and writes the answer lines, each with a line feed, in the memory
/// of one line and of the answers to one read. The answers to the lines so far are written together before the next read
/// and before the run ends, but for want of memory. The first fault ends the run. `InputLimit` comes exactly where the
/// source gave as many bytes as the limit, which lies from 1 to 2^30, and its end had not been seen; `ReadFault` and
/// `WriteFault` come only where the count of faults rose.
pub fn answer_lines<A: Answering, R: Source, W: Sink>(
    alloc: Global,
    limit: u64,
    answering: &A,
    source: &mut R,
    sink: &mut W,
) -> LoopEnd
    requires some { 0 < limit }
    requires most { limit ≤ MOST_INPUT }

    // What the sink got, and what was taken from the source.
    ensures ran { Ran (A.says answering.now) MOST_READ limit result
        (R.left source.old) (R.left source.new) (W.held sink.old) (W.held sink.new) }

    // A fault has its cause, and no other end hides one.
    ensures read_fault { result ≡ LoopEnd.ReadFault → Rose (R.faults source.old) (R.faults source.new) }
    ensures no_read_fault { result ≢ LoopEnd.ReadFault → R.faults source.new ≡ R.faults source.old }
    ensures write_fault { result ≡ LoopEnd.WriteFault → Rose (W.faults sink.old) (W.faults sink.new) }
    ensures no_write_fault { result ≢ LoopEnd.WriteFault → W.faults sink.new ≡ W.faults sink.old }

    // The first write that fails is the last.
    ensures write_fails { result ≡ LoopEnd.WriteFault → FailsAtLast W.write_gives sink.old sink.new }
    ensures writes { result ≢ LoopEnd.WriteFault → Succeeds W.write_gives sink.old sink.new }
{
    let Ok(mut lines) = Lines::new(alloc, limit) else {
        return LoopEnd::NoMemory;
    };
    let mut gathered = Text::new(alloc);
    let mut is_ok = true;
    loop {
        match write_gathered(lines.has_line(), &mut gathered, sink) {
            Ok(()) => {}
            Err(Failed) => return LoopEnd::WriteFault,
        }
        let next = lines.next_line(source);
        if !next.stays_open() {
            return loop_end(is_ok, next);
        }
        match gather(answering, next, lines.line(), &mut gathered) {
            Ok(ok) => is_ok &= ok,
            Err(NoMemory) => return LoopEnd::NoMemory,
        }
    }
}
