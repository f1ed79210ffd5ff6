ghost use Rattle.std.specs.Prelude.{◌≡◌, ◌<◌, ◌≤◌, ◌+◌, [], List, ℕ, Option, Some, min, length, drop, take, IfOk, OnErr, is_err};
ghost use Rattle.std.specs.Io.{ReadsAtMost};
ghost use Rattle.std.specs.Io.KnownBytes.{ReadConsumes};
ghost use Rattle.vx_lines.specs.Outside.{HasCause, KeepsRest};
ghost use Rattle.vx_lines.specs.InMemory.{Supply, is_listed, no_calls, without_front, with_failed_read};

use crate::memory_calls::MemoryCalls;
use crate::outside::{Failed, Source};
use crate::plain_source::copy_front;
use std::marker::Model;

/// Bytes in memory that are given some at a time, with calls that fail. Contracts see it as a `Supply`.
#[derive(Drop)]
pub struct MemorySource {
    bytes: Vec<u8>,
    at: usize,
    step: usize,
    calls: MemoryCalls,
}

impl Model for MemorySource {
    ghost use Rattle.std.specs.Prelude.{◌<◌, ◌≤◌, drop, length};
    ghost use Rattle.vx_lines.specs.InMemory.{Supply};

    ghost Value = { Supply };

    ghost view = { λ s. record { left = drop s.at s.bytes.items; step = s.step; calls = s.calls } };

    ghost invariant = { λ s. (s.at ≤ length s.bytes.items) × (0 < s.step) };
}

impl MemorySource {
    /// The source of these bytes, which gives at most `step` of them at a time. The calls of these numbers, from 1,
    /// fail. It takes no memory.
    pub fn new(bytes: Vec<u8>, step: usize, fails: Vec<u64>) -> Self
        requires { 0 < step }
        ensures { result ≡ record { left = bytes.items; step = step; calls = no_calls fails.items } }
    {
        MemorySource {
            bytes,
            at: 0,
            step,
            calls: MemoryCalls::new(fails),
        }
    }
}

impl Source for MemorySource {
    ghost left = { λ s. Some s.left };

    ghost faults = { λ s. s.calls.faults };

    fn read(&mut self, buf: &mut [u8]) -> Result<usize, Failed>
        ensures bound { ReadsAtMost result buf.new }
        ensures bytes { ReadConsumes (Some self.old.left) (Some self.new.left) result buf.new }
        ensures rest { KeepsRest result buf.old buf.new }
        ensures cause { HasCause self.old.calls.faults self.new.calls.faults result }

        // The listed calls fail, and no others.
        ensures listed { is_err result ≡ is_listed self.old.calls }

        // As many bytes are given as the step, the buffer and what is left allow, and a call that fails counts a fault.
        ensures most { IfOk result (λ n. n ≡ min self.old.step (min (length buf.old) (length self.old.left))) }
        ensures taken { IfOk result (λ n. self.new ≡ without_front self.old n) }
        ensures failed { OnErr result (self.new ≡ with_failed_read self.old) }
    {
        self.calls.count(true)?;
        let most = self.bytes.len().min(self.at.saturating_add(self.step));
        let count = copy_front(&self.bytes[self.at..most], buf);
        self.at += count;
        Ok(count)
    }
}
