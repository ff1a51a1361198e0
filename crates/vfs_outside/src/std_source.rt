ghost use Rattle.std.specs.Prelude.{◌≡◌, ◌≤◌, IfOk, length};
ghost use Rattle.std.specs.Io.KnownBytes.{ReadConsumes};
ghost use Rattle.vfs_outside.specs.Causes.{HasCause};

use crate::failed::Failed;
use crate::source::Source;
use std::io::{ErrorKind, Read};
use std::marker::Model;

/// A source over a reader of std. It tells nothing of its bytes, and passes on what the reader
/// gives. A read that a signal interrupts is made again.
#[derive(Drop)]
pub struct StdSource<R: Read> {
    reader: R,
    faults: u64,
}

impl<R: Read> Model for StdSource<R> {
    ghost use Rattle.vfs_outside.specs.CountedStream.{CountedStream};

    ghost Value = { CountedStream R };

    ghost view = { λ s. record { stream = s.reader; faults = s.faults } };
}

impl<R: Read> StdSource<R> {
    pub fn new(reader: R) -> StdSource<R>
        ensures { result ≡ record { stream = reader; faults = 0 } }
    {
        StdSource { reader, faults: 0 }
    }
}

impl<R: Read> Source for StdSource<R> {
    ghost use Rattle.std.specs.Prelude.{None};

    ghost left = { λ _. None };

    ghost faults = { λ s. s.faults };

    fn read_some(&mut self, out: &mut [u8]) -> Result<usize, Failed>
        ensures within { IfOk result (λ n. n ≤ length out.new) }
        ensures passes_on { ReadConsumes
            (R.remaining self.old.stream) (R.remaining self.new.stream) result out.new }
        ensures cause { HasCause self.old.faults self.new.faults result }
    {
        for _ in 0..u64::MAX {
            match self.reader.read(out) {
                Ok(n) => return Ok(n),
                Err(error) if error.kind() == ErrorKind::Interrupted => {}
                Err(_) => break,
            }
        }
        self.faults = self.faults.saturating_add(1);
        Err(Failed)
    }

    fn faults(&self) -> u64 {
        self.faults
    }
}
