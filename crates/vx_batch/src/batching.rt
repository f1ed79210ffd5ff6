ghost use Rattle.std.specs.Prelude.{◌≡◌, ◌≢◌, ◌<◌, ◌≤◌};
ghost use Rattle.vx_lines.specs.Output.{Ran};
ghost use Rattle.vx_lines.specs.Outside.{FailsAtLast, Rose, Succeeds};
ghost use Rattle.vx_batch.specs.Answers.{IsLineAnswer};

use crate::printing::push_reply;
use crate::reply::{LineFault, Reply};
use crate::replying::line_reply;
use std::alloc::Global;
use vx_lines::{Answering, LoopEnd, MOST_BYTES, MOST_INPUT, MOST_READ, Sink, Source, answer_lines};
use vx_scheme::{NoMemory, Text};

/// The answers to lines, each by its own fields.
#[derive(Debug, Clone, Copy)]
struct LineAnswers;

impl Answering for LineAnswers {
    ghost use Rattle.vx_lines.specs.declared.buffers.TheConstants.{MOST_BYTES};
    ghost use Rattle.vx_batch.specs.Answers.{IsLineAnswer};

    ghost says = { λ _. IsLineAnswer MOST_BYTES };

    fn answer(&self, line: &[u8], text: &mut Text) -> Result<bool, NoMemory> {
        let reply = line_reply(text.alloc(), line)?;
        push_reply(text, &reply)?;
        Ok(reply.is_accepted())
    }

    fn answer_long(&self, text: &mut Text) -> Result<bool, NoMemory> {
        push_reply(text, &Reply::Fault(LineFault::TooLong))?;
        Ok(false)
    }
}

/// Answers the lines of a source, one after the other, in the memory of one line, and writes the answer lines in order,
/// each with a line feed. The answers to the bytes at hand are written before the next read, and before it ends but for
/// want of memory. The first fault ends the run. `InputLimit` comes exactly where the source gave as many bytes as the
/// limit, which lies from 1 to 2^30, and its end had not been seen.
pub fn batch<R: Source, W: Sink>(alloc: Global, limit: u64, source: &mut R, sink: &mut W) -> LoopEnd
    requires some { 0 < limit }
    requires most { limit ≤ MOST_INPUT }

    // After `Done` and `Refused` the sink got the answers to all lines, in order; after every other end a front of them.
    ensures ran { Ran (IsLineAnswer MOST_BYTES) MOST_READ limit result (R.left source.old) (R.left source.new) (W.held sink.old) (W.held sink.new) }

    // A fault has its cause, and no other end hides one.
    ensures read_fault { result ≡ LoopEnd.ReadFault → Rose (R.faults source.old) (R.faults source.new) }
    ensures no_read_fault { result ≢ LoopEnd.ReadFault → R.faults source.new ≡ R.faults source.old }
    ensures write_fault { result ≡ LoopEnd.WriteFault → Rose (W.faults sink.old) (W.faults sink.new) }
    ensures no_write_fault { result ≢ LoopEnd.WriteFault → W.faults sink.new ≡ W.faults sink.old }

    // The first write that fails is the last.
    ensures write_fails { result ≡ LoopEnd.WriteFault → FailsAtLast W.write_gives sink.old sink.new }
    ensures writes { result ≢ LoopEnd.WriteFault → Succeeds W.write_gives sink.old sink.new }
{
    answer_lines(alloc, limit, &LineAnswers, source, sink)
}
