ghost use Rattle.std.specs.Prelude.{◌≡◌, ◌||◌, MatchResult, is_err, not};
ghost use Rattle.vx_lines.specs.Outside.{HasCause};
ghost use Rattle.vx_lines.specs.InMemory.{is_listed, no_calls, with_call, with_fault};

use crate::outside::Failed;
use std::marker::Model;

/// The calls of a source or a sink in memory, of which some fail. Contracts see them as `Calls`.
#[derive(Drop)]
pub struct MemoryCalls {
    fails: Vec<u64>,
    made: u64,
    faults: u64,
}

impl Model for MemoryCalls {
    ghost use Rattle.vx_lines.specs.InMemory.{Calls};

    ghost Value = { Calls };

    ghost view = { λ c. record { fails = c.fails.items; made = c.made; faults = c.faults } };
}

impl MemoryCalls {
    /// The calls of these numbers, from 1, fail. None was made yet. It takes no memory.
    pub fn new(fails: Vec<u64>) -> MemoryCalls
        ensures { result ≡ no_calls fails.items }
    {
        MemoryCalls {
            fails,
            made: 0,
            faults: 0,
        }
    }

    /// Counts a call. It fails exactly where it is listed or cannot be served, and then counts a fault. It takes no
    /// memory.
    pub fn count(&mut self, is_served: bool) -> Result<(), Failed>
        ensures fails { is_err result ≡ (is_listed self.old || not is_served) }
        ensures counted { MatchResult result (λ _. self.new ≡ with_call self.old) (λ _. self.new ≡ with_fault self.old) }
        ensures cause { HasCause self.old.faults self.new.faults result }
    {
        self.made = self.made.saturating_add(1);
        if self.fails.contains(&self.made) || !is_served {
            self.faults = self.faults.saturating_add(1);
            return Err(Failed);
        }
        Ok(())
    }
}
