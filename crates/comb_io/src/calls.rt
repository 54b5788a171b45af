//! Calls that are numbered, and of which chosen ones fail.
ghost use Rattle.std.specs.Prelude.{◌≡◌, ◌≤◌, IfOk};
ghost use Rattle.std.specs.Bool.{OnTrue, OnFalse};
ghost use Rattle.comb_io.specs.Faults.{Rose};
ghost use Rattle.comb_io.specs.Memory.{after, after_call, is_failing};

use std::alloc::{AllocError, Global};
use std::marker::Model;

// Numbers the calls, and says which fail.
#[derive(Debug, Drop)]
pub(crate) struct CallCounter {
    failing: Vec<u64>,
    number: u128,
    faults: u64,
}

impl Model for CallCounter {
    ghost use Rattle.comb_io.specs.Memory.{Calls};

    ghost Value = { Calls };

    ghost view = { λ counter. record {
      failing = counter.failing.items;
      number = counter.number;
      faults = counter.faults;
    } };
}

impl CallCounter {
    // No call yet; those with these numbers, from 0, are to fail.
    pub(crate) fn new(alloc: Global, failing: &[u64]) -> Result<CallCounter, AllocError>
        ensures { IfOk result (λ counter. counter
            ≡ record { failing = failing.now; number = 0; faults = 0 }) }
    {
        Ok(CallCounter {
            failing: failing.to_vec(alloc)?,
            number: 0,
            faults: 0,
        })
    }

    // Whether the next call is to fail.
    pub(crate) fn next_fails(&self) -> bool
        ensures { result ≡ is_failing self.now }
    {
        let number = self.number;
        self.failing.iter().any(|n| u128::from(*n) == number)
    }

    // Counts the next call, which failed or didn't.
    pub(crate) fn count(&mut self, failed: bool)
        ensures counted { self.new ≡ after failed self.old }
        ensures later { self.old.faults ≤ self.new.faults }
        ensures rose { OnTrue failed (Rose self.old.faults self.new.faults) }
        ensures kept { OnFalse failed (self.new.faults ≡ self.old.faults) }
    {
        self.number = self.number.saturating_add(1);
        if failed {
            self.faults = self.faults.saturating_add(1);
        }
    }

    // Counts the next call, and answers whether it fails.
    pub(crate) fn fails(&mut self) -> bool
        ensures failing { result ≡ is_failing self.old }
        ensures counted { self.new ≡ after_call self.old }
        ensures later { self.old.faults ≤ self.new.faults }
        ensures rose { OnTrue result (Rose self.old.faults self.new.faults) }
        ensures kept { OnFalse result (self.new.faults ≡ self.old.faults) }
    {
        let fails = self.next_fails();
        self.count(fails);
        fails
    }
}
