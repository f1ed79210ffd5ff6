// The trusted edge: any reader and any writer of std. They tell no bytes.
ghost use Rattle.std.specs.Prelude.{◌≡◌, ◌<◌, List, ℕ, Option, None, IfOk, length, take};
ghost use Rattle.std.specs.Io.{ReadsAtMost, WritesAtMost};
ghost use Rattle.std.specs.Io.KnownBytes.{ReadConsumes, WriteAppends, Consumes, Appends, IsAtEnd};
ghost use Rattle.vx_lines.specs.Outside.{HasCause, KeepsRest};

use crate::outside::{Failed, Sink, Source};
use std::io::{Read, Write};

/// A reader as a source. An error of the reader is a fault.
#[derive(Drop)]
pub struct StdSource<R: Read> {
    inner: R,
    faults: u64,
}

impl<R: Read> StdSource<R> {
    /// The source that this reader is. It takes no memory.
    pub fn new(inner: R) -> Self
        ensures { result ≡ record { inner = inner; faults = 0 } }
    {
        StdSource { inner, faults: 0 }
    }
}

impl<R: Read> Source for StdSource<R> {
    ghost left = { λ _. None };

    ghost faults = { λ source. source.faults };

    // The reader may write anywhere in the buffer that it is given, so it is given one of its own.
    fn read(&mut self, buf: &mut [u8]) -> Result<usize, Failed>
        ensures bound { ReadsAtMost result buf.new }
        ensures bytes { ReadConsumes None None result buf.new }
        ensures rest { KeepsRest result buf.old buf.new }
        ensures cause { HasCause self.old.faults self.new.faults result }

        // What the reader gave is what is answered, and its end is the end.
        ensures passed { IfOk result (λ n. Consumes (R.remaining self.old.inner) (R.remaining self.new.inner) (take n buf.new)
            × (n ≡ 0 → 0 < length buf.new → IsAtEnd (R.remaining self.new.inner))) }
    {
        let mut own = [0u8; 4096];
        let room = buf.len().min(4096);
        match self.inner.read(&mut own[..room]) {
            Ok(count) => {
                buf[..count].copy_from_slice(&own[..count]);
                Ok(count)
            }
            Err(_) => {
                self.faults = self.faults.saturating_add(1);
                Err(Failed)
            }
        }
    }
}

/// A writer as a sink, which is flushed after each write. An error of the writer is a fault, and so is a write that
/// takes nothing where there is something.
#[derive(Drop)]
pub struct StdSink<W: Write> {
    inner: W,
    faults: u64,
}

impl<W: Write> StdSink<W> {
    /// The sink that this writer is. It takes no memory.
    pub fn new(inner: W) -> Self
        ensures { result ≡ record { inner = inner; faults = 0 } }
    {
        StdSink { inner, faults: 0 }
    }
}

impl<W: Write> Sink for StdSink<W> {
    ghost held = { λ _. None };

    ghost faults = { λ sink. sink.faults };

    fn write(&mut self, bytes: &[u8]) -> Result<usize, Failed>
        ensures bound { WritesAtMost result bytes.now }
        ensures progress { IfOk result (λ n. 0 < length bytes.now → 0 < n) }
        ensures bytes { WriteAppends None None result bytes.now }
        ensures cause { HasCause self.old.faults self.new.faults result }

        // What is answered as written is what the writer took.
        ensures passed { IfOk result (λ n. Appends (W.contents self.old.inner) (W.contents self.new.inner) (take n bytes.now)) }
    {
        let result = self.inner.write(bytes);
        let flushed = self.inner.flush();
        match (result, flushed) {
            (Ok(count), Ok(())) if count > 0 || bytes.is_empty() => Ok(count),
            _ => {
                self.faults = self.faults.saturating_add(1);
                Err(Failed)
            }
        }
    }
}
