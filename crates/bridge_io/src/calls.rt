// The calls of an object in memory: which of them fail, and how many have.
ghost use Rattle.std.specs.Prelude.{◌≡◌, ◌↔◌, ℕ, IsErr};
ghost use Rattle.bridge_io.specs.Calls.{CallCount, no_calls, NextFails, CountsCall};
ghost use Rattle.bridge_io.specs.Causes.{HasCause, Rose};

use crate::failed::Failed;
use std::marker::Model;

#[derive(Drop)]
pub struct Calls {
    fails: Vec<u64>,
    next: u64,
    faults: u64,
}

impl Model for Calls {
    ghost Value = { CallCount };

    ghost view = { λ c. record { fails = c.fails.items; next = c.next; faults = c.faults } };
}

impl Calls {
    /// No call so far. Those with these numbers will fail, counted from 0.
    pub fn new(fails: Vec<u64>) -> Calls
        ensures { result ≡ no_calls fails.items }
    {
        Calls {
            fails,
            next: 0,
            faults: 0,
        }
    }

    /// Counts a call, and says whether it fails.
    pub fn begin(&mut self) -> Result<(), Failed>
        ensures fails { IsErr result ↔ NextFails self.old }
        ensures cause { HasCause self.old.faults self.new.faults result }
        ensures counted { CountsCall self.old self.new }
    {
        let call = self.next;
        self.next = call.saturating_add(1);
        if self.fails.contains(&call) {
            return Err(self.fail());
        }
        Ok(())
    }

    /// Counts a fault of a call that was counted before.
    pub fn fail(&mut self) -> Failed
        ensures rose { Rose self.old.faults self.new.faults }
        ensures next { self.new.next ≡ self.old.next }
        ensures fails { self.new.fails ≡ self.old.fails }
    {
        self.faults = self.faults.saturating_add(1);
        Failed
    }
}
