ghost use Rattle.std.specs.Prelude.{◌≡◌, ◌++◌, [], ◌↔◌, drop, length, min, take, IfErr, IfOk, IsErr, OnErr, OnOk};
ghost use Rattle.vfs_outside.specs.Causes.{HasCause};
ghost use Rattle.vfs_outside.specs.Chars.{read_count};
ghost use Rattle.vfs_outside.specs.FailingCalls.{NextFails, first_calls, with_call};

use crate::chars::Chars;
use crate::copying::copy_from;
use crate::failing_calls::FailingCalls;
use crate::stopped::Stopped;
use std::alloc::Global;
use std::marker::Model;
use vfs_base::Bytes;

/// A character device in memory. A call that fails moves nothing; a write that finds no memory for
/// its bytes fails, listed or not.
#[derive(Debug, Drop)]
pub struct MemChars {
    input: Bytes,
    at: usize,
    output: Bytes,
    calls: FailingCalls,
}

impl Model for MemChars {
    ghost use Rattle.std.specs.Prelude.{◌≤◌, drop, length};
    ghost use Rattle.vfs_outside.specs.MemChars.{MemCharsState};

    ghost Value = { MemCharsState };

    ghost view = { λ c. record { input = drop c.at c.input; output = c.output; calls = c.calls } };

    ghost invariant = { λ c. c.at ≤ length c.input };
}

impl MemChars {
    /// A device that has this input, and nothing was written to. `fails` has the numbers of the
    /// calls that fail: those of `read` and `write` are counted together, from 1.
    pub fn new(alloc: Global, input: Bytes, fails: Vec<u64>) -> MemChars
        ensures { result ≡ record { input = input; output = []; calls = first_calls fails.items } }
    {
        MemChars {
            input,
            at: 0,
            output: Bytes::new(alloc),
            calls: FailingCalls::new(fails),
        }
    }
}

impl Chars for MemChars {
    ghost use Rattle.std.specs.Prelude.{Some};
    ghost use Rattle.vfs_outside.specs.MemChars.{contents_of};

    ghost contents = { λ c. Some (contents_of c) };

    ghost faults = { λ c. c.calls.faults };

    fn faults(&self) -> u64 {
        self.calls.faults()
    }

    fn told_input(&self) -> Option<&[u8]> {
        Some(&self.input.as_slice()[self.at..])
    }

    fn read(&mut self, out: &mut [u8]) -> Result<usize, Stopped>
        ensures count { IfOk result (λ count. count ≡ min (length out.new) (length self.old.input)) }
        ensures bytes { IfOk result (λ count. take count out.new ≡ take count self.old.input) }
        ensures fails { IsErr result ↔ NextFails self.old.calls }
        ensures stopped { IfErr result (λ stopped. stopped.moved ≡ 0) }
        ensures state { self.new ≡ record self.old {
          input = drop (read_count result) self.old.input;
          calls = with_call self.old.calls result;
        } }
        ensures cause { HasCause self.old.calls.faults self.new.calls.faults result }
    {
        self.calls.make()?;
        let count = copy_from(self.input.as_slice(), self.at, out);
        self.at += count;
        Ok(count)
    }

    fn write(&mut self, bytes: &[u8]) -> Result<(), Stopped>
        ensures written { OnOk result (self.new.output ≡ self.old.output ++ bytes.now) }
        ensures err { OnErr result (self.new.output ≡ self.old.output) }
        ensures fails { NextFails self.old.calls → IsErr result }
        ensures stopped { IfErr result (λ stopped. stopped.moved ≡ 0) }
        ensures state { self.new ≡ record self.old {
          output = self.new.output;
          calls = with_call self.old.calls result;
        } }
        ensures cause { HasCause self.old.calls.faults self.new.calls.faults result }
    {
        self.calls.make()?;
        if self.output.extend_from_slice(bytes).is_err() {
            return Err(self.calls.fail().into());
        }
        Ok(())
    }
}
