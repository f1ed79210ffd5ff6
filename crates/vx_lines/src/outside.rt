ghost use Rattle.std.specs.Prelude.{◌≡◌, ◌<◌, ◌≤◌, List, ℕ, Option, length, IfOk, OnOk};
ghost use Rattle.std.specs.Io.{ReadsAtMost, WritesAtMost};
ghost use Rattle.std.specs.Io.KnownBytes.{ReadConsumes, WriteAppends, Appends};
ghost use Rattle.vx_lines.specs.Outside.{HasCause, KeepsRest, AppendsFront, StopsAtFault};

/// A read or a write failed.
#[derive(Clone, Copy, Debug, PartialEq, Eq)]
pub struct Failed;

/// Where bytes come from.
pub trait Source {
    /// The bytes that it has left, where it tells them.
    ghost left: { Self → Option (List ℕ) };

    /// How often it has failed.
    ghost faults: { Self → ℕ };

    /// Reads into the front of the buffer, and answers how many bytes. The answer 0 for a buffer that is not empty is
    /// the end of the input. A failed read takes nothing. It takes no memory.
    fn read(&mut self, buf: &mut [u8]) -> Result<usize, Failed>
        ensures bound { ReadsAtMost result buf.new }
        ensures bytes { ReadConsumes (left self.old) (left self.new) result buf.new }
        ensures rest { KeepsRest result buf.old buf.new }
        ensures cause { HasCause (faults self.old) (faults self.new) result };
}

/// Where bytes go.
pub trait Sink {
    ghost use Rattle.vx_lines.specs.declared.outside.Failed.{Failed};
    ghost use Rattle.std.specs.Prelude.{◌≡◌, ◌<◌, List, ℕ, Option, Result, ⊤, length, IfOk};
    ghost use Rattle.std.specs.Io.{WritesAtMost};
    ghost use Rattle.std.specs.Io.KnownBytes.{WriteAppends};
    ghost use Rattle.vx_lines.specs.Outside.{HasCause};

    /// The bytes that it holds, where it tells them.
    ghost held: { Self → Option (List ℕ) };

    /// How often it has failed.
    ghost faults: { Self → ℕ };

    /// What a call of `write` does to it, by the bytes that it is given and its answer.
    ghost write_gives: { Self → List ℕ → Result ℕ Failed → Self → Type 0 } = { λ _ _ _ _. ⊤ };

    /// Appends a front of the bytes, and answers how many: one at least, where there are any. A failed write appends
    /// nothing. It takes no memory.
    fn write(&mut self, bytes: &[u8]) -> Result<usize, Failed>
        ensures bound { WritesAtMost result bytes.now }
        ensures progress { IfOk result (λ n. 0 < length bytes.now → 0 < n) }
        ensures bytes { WriteAppends (held self.old) (held self.new) result bytes.now }
        ensures cause { HasCause (faults self.old) (faults self.new) result }
        ensures gives { write_gives self.old bytes.now result self.new };
}

/// Writes all the bytes, by as many calls as it takes. Where one fails, a front of the bytes is written, and the sink
/// is called no more. It takes no memory.
pub fn write_whole<W: Sink>(sink: &mut W, bytes: &[u8]) -> Result<(), Failed>
    ensures whole { OnOk result (Appends (W.held sink.old) (W.held sink.new) bytes.now) }
    ensures front { AppendsFront (W.held sink.old) (W.held sink.new) bytes.now }
    ensures cause { HasCause (W.faults sink.old) (W.faults sink.new) result }
    ensures calls { StopsAtFault W.write_gives sink.old sink.new result }
{
    let mut rest = bytes;
    while !rest.is_empty() {
        let count = sink.write(rest)?;
        rest = &rest[count..];
    }
    Ok(())
}
