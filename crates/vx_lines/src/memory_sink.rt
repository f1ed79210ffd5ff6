ghost use Rattle.std.specs.Prelude.{◌≡◌, ◌<◌, ◌≤◌, ◌+◌, ◌==◌, ◌||◌, ◌&&◌, [], List, ℕ, Option, Some, min, length, take, IfOk, MatchResult, is_err, not};
ghost use Rattle.std.specs.Io.{WritesAtMost};
ghost use Rattle.std.specs.Io.KnownBytes.{WriteAppends};
ghost use Rattle.vx_lines.specs.Outside.{HasCause};
ghost use Rattle.vx_lines.specs.InMemory.{Store, is_listed, no_calls, IsWritten};

use crate::memory_calls::MemoryCalls;
use crate::outside::{Failed, Sink};
use std::alloc::Global;
use std::marker::Model;
use vx_scheme::NoMemory;

/// A sink with room for so many bytes, and calls that fail.
#[derive(Drop)]
pub struct MemorySink {
    bytes: Vec<u8>,
    room: usize,
    calls: MemoryCalls,
}

impl Model for MemorySink {
    ghost use Rattle.std.specs.Prelude.{◌+◌, ◌≤◌, vec_len, vec_capacity};
    ghost use Rattle.vx_lines.specs.InMemory.{Store};

    ghost Value = { Store };

    ghost view = { λ s. record { bytes = s.bytes.items; room = s.room; calls = s.calls } };

    // The room is there, so that no write takes memory.
    ghost invariant = { λ s. vec_len s.bytes + s.room ≤ vec_capacity s.bytes };
}

impl MemorySink {
    /// An empty sink with this room. The calls of these numbers, from 1, fail.
    pub fn with_room(alloc: Global, room: usize, fails: Vec<u64>) -> Result<MemorySink, NoMemory>
        ensures { IfOk result (λ s. s ≡ record { bytes = []; room = room; calls = no_calls fails.items }) }
    {
        match Vec::with_capacity(alloc, room) {
            Ok(bytes) => Ok(MemorySink {
                bytes,
                room,
                calls: MemoryCalls::new(fails),
            }),
            Err(_) => Err(NoMemory),
        }
    }

    /// The bytes that it holds. It takes no memory.
    pub fn bytes(&self) -> &[u8]
        ensures { result.now ≡ self.now.bytes }
    {
        &self.bytes
    }
}

impl Sink for MemorySink {
    ghost held = { λ s. Some s.bytes };

    ghost faults = { λ s. s.calls.faults };

    ghost write_gives = { IsWritten };

    fn write(&mut self, bytes: &[u8]) -> Result<usize, Failed>
        ensures bound { WritesAtMost result bytes.now }
        ensures progress { IfOk result (λ n. 0 < length bytes.now → 0 < n) }
        ensures bytes { WriteAppends (Some self.old.bytes) (Some self.new.bytes) result bytes.now }
        ensures cause { HasCause self.old.calls.faults self.new.calls.faults result }

        // The listed calls fail, and those that find no room for a piece, and no others.
        ensures listed { is_err result
            ≡ (is_listed self.old.calls || ((self.old.room == 0) && not (length bytes.now == 0))) }

        // What fits is taken, and a call that fails counts a fault.
        ensures most { IfOk result (λ n. n ≡ min (length bytes.now) self.old.room) }
        ensures gives { IsWritten self.old bytes.now result self.new }
    {
        let count = bytes.len().min(self.room);
        self.calls.count(count > 0 || bytes.is_empty())?;
        // The room is there, so this finds memory.
        let _ = self.bytes.extend_from_slice(&bytes[..count]);
        self.room -= count;
        Ok(count)
    }
}
