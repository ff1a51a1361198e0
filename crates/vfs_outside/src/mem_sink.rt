ghost use Rattle.std.specs.Prelude.{◌≡◌, ◌++◌, [], length, IfOk, IsErr, OnErr};
ghost use Rattle.vfs_outside.specs.Causes.{HasCause};
ghost use Rattle.vfs_outside.specs.FailingCalls.{NextFails, first_calls, with_call};

use crate::failed::Failed;
use crate::failing_calls::FailingCalls;
use crate::sink::Sink;
use std::alloc::Global;
use std::marker::Model;
use vfs_base::Bytes;

/// A sink that keeps what is written to it in memory. It takes each piece whole; a call that finds
/// no memory for it fails, listed or not.
#[derive(Debug, Drop)]
pub struct MemSink {
    written: Bytes,
    calls: FailingCalls,
}

impl Model for MemSink {
    ghost use Rattle.vfs_outside.specs.MemSink.{SinkState};

    ghost Value = { SinkState };

    ghost view = { λ s. record { written = s.written; calls = s.calls } };
}

impl MemSink {
    /// A sink that holds nothing. `fails` has the numbers of the calls of `write_some` that fail,
    /// counted from 1.
    pub fn new(alloc: Global, fails: Vec<u64>) -> MemSink
        ensures { result ≡ record { written = []; calls = first_calls fails.items } }
    {
        MemSink {
            written: Bytes::new(alloc),
            calls: FailingCalls::new(fails),
        }
    }

    /// What was written so far.
    pub fn written(&self) -> &[u8]
        ensures { result.now ≡ self.now.written }
    {
        self.written.as_slice()
    }
}

impl Sink for MemSink {
    ghost use Rattle.std.specs.Prelude.{Some};

    ghost written = { λ s. Some s.written };

    ghost faults = { λ s. s.calls.faults };

    fn write_some(&mut self, piece: &[u8]) -> Result<usize, Failed>
        ensures whole { IfOk result (λ n. n ≡ length piece.now) }
        ensures appends { IfOk result (λ n. self.new.written ≡ self.old.written ++ piece.now) }
        ensures fails { NextFails self.old.calls → IsErr result }
        ensures err { OnErr result (self.new.written ≡ self.old.written) }
        ensures counts { self.new.calls ≡ with_call self.old.calls result }
        ensures cause { HasCause self.old.calls.faults self.new.calls.faults result }
    {
        self.calls.make()?;
        if self.written.extend_from_slice(piece).is_err() {
            return Err(self.calls.fail());
        }
        Ok(piece.len())
    }

    fn faults(&self) -> u64 {
        self.calls.faults()
    }
}
