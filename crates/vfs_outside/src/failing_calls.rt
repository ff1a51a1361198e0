ghost use Rattle.std.specs.Prelude.{◌≡◌, ◌≤◌, ◌↔◌, IsErr};
ghost use Rattle.vfs_outside.specs.Causes.{HasCause};
ghost use Rattle.vfs_outside.specs.CallCount.{next_count};
ghost use Rattle.vfs_outside.specs.FailingCalls.{NextFails, first_calls, with_call};

use crate::failed::Failed;
use std::marker::Model;

/// The calls to an object in memory, numbered from 1: which of them fail, how many were made, and
/// how many failed. Both counts stay at 2^64 - 1.
#[derive(Debug, Drop)]
pub(crate) struct FailingCalls {
    failing: Vec<u64>,
    made: u64,
    faults: u64,
}

impl Model for FailingCalls {
    ghost use Rattle.vfs_outside.specs.FailingCalls.{Calls};

    ghost Value = { Calls };

    ghost view = { λ c. record { failing = c.failing.items; made = c.made; faults = c.faults } };
}

impl FailingCalls {
    pub(crate) fn new(failing: Vec<u64>) -> FailingCalls
        ensures { result ≡ first_calls failing.items }
    {
        FailingCalls {
            failing,
            made: 0,
            faults: 0,
        }
    }

    /// Makes the next call, which fails where its number is listed.
    pub(crate) fn make(&mut self) -> Result<(), Failed>
        ensures fails { IsErr result ↔ NextFails self.old }
        ensures counts { self.new ≡ with_call self.old result }
        ensures cause { HasCause self.old.faults self.new.faults result }
    {
        self.made = self.made.saturating_add(1);
        if self.failing.contains(&self.made) {
            return Err(self.fail());
        }
        Ok(())
    }

    /// Counts a fault for a call that fails though its number isn't listed.
    pub(crate) fn fail(&mut self) -> Failed
        ensures counts { self.new ≡ record self.old { faults = next_count self.old.faults } }
        ensures rising { self.old.faults ≤ self.new.faults }
    {
        self.faults = self.faults.saturating_add(1);
        Failed
    }

    pub(crate) fn faults(&self) -> u64
        ensures { result ≡ self.now.faults }
    {
        self.faults
    }
}
