ghost use Rattle.std.specs.Prelude.{◌≡◌, IfOk, IsErrOf, OnOk};
ghost use Rattle.std.specs.Io.KnownBytes.{Appends};
ghost use Rattle.vx_lines.specs.Outside.{AppendsFront, FailsAtLast, Rose, Succeeds};
ghost use Rattle.vx_cli.specs.Runs.{line_of};

use thiserror::Error;
use vx_batch::Answer;
use vx_lines::{Failed, Sink, write_whole};

/// Why an answer was not written whole.
#[derive(Clone, Copy, Debug, PartialEq, Eq, Error)]
pub enum PutFault {
    /// A write failed.
    #[error("Failed")]
    Failed,
    /// No memory was found.
    #[error("NoMemory")]
    NoMemory,
}

/// Writes the answer line and its line feed, and says whether it is an accepted line's.
pub fn put_line<W: Sink>(answer: Answer, sink: &mut W) -> Result<bool, PutFault>
    ensures whole { IfOk result (λ ok. (ok ≡ answer.ok)
        × Appends (W.held sink.old) (W.held sink.new) (line_of answer.text)
        × (W.faults sink.new ≡ W.faults sink.old)) }
    ensures front { AppendsFront (W.held sink.old) (W.held sink.new) (line_of answer.text) }
    ensures write { IsErrOf result PutFault.Failed → Rose (W.faults sink.old) (W.faults sink.new) }
    ensures no_memory { IsErrOf result PutFault.NoMemory → sink.new ≡ sink.old }
    ensures write_fails { IsErrOf result PutFault.Failed → FailsAtLast W.write_gives sink.old sink.new }
    ensures writes { OnOk result (Succeeds W.write_gives sink.old sink.new) }
{
    let Answer { ok, mut text } = answer;
    if text.push_str("\n").is_err() {
        return Err(PutFault::NoMemory);
    }
    match write_whole(sink, text.as_str().as_bytes()) {
        Ok(()) => Ok(ok),
        Err(Failed) => Err(PutFault::Failed),
    }
}
