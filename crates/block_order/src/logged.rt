//! A source and a sink that share a count of reads.

ghost use Rattle.std.specs.Prelude.{None};

use std::cell::Cell;
use vfs_outside::{Failed, Sink, Source};

// How many lines the source gives, one at each read.
const LINES: u64 = 3;

const LINE: [u8; 4] = *b"pwd\n";

// How many writes a sink keeps the count of.
const WRITES: usize = 8;

/// A source that gives a line at each read, and then its end. It tells nothing and never fails.
#[derive(Drop)]
pub struct LoggedSource<'a> {
    reads: &'a Cell<u64>,
}

impl<'a> LoggedSource<'a> {
    pub fn new(reads: &'a Cell<u64>) -> LoggedSource<'a> {
        LoggedSource { reads }
    }
}

impl Source for LoggedSource<'_> {
    ghost left = { λ _. None };

    ghost faults = { λ _. 0 };

    fn read_some(&mut self, out: &mut [u8]) -> Result<usize, Failed> {
        let count = self.reads.get().saturating_add(1);
        self.reads.set(count);
        if count > LINES || out.len() < LINE.len() {
            return Ok(0);
        }
        out[..LINE.len()].copy_from_slice(&LINE);
        Ok(LINE.len())
    }

    fn faults(&self) -> u64 {
        0
    }
}

/// A sink that keeps how often the source was read at each of its first writes. It takes each piece whole, tells nothing and
/// never fails.
#[derive(Drop)]
pub struct LoggedSink<'a> {
    reads: &'a Cell<u64>,
    order: [u64; WRITES],
    writes: usize,
}

impl<'a> LoggedSink<'a> {
    pub fn new(reads: &'a Cell<u64>) -> LoggedSink<'a> {
        LoggedSink {
            reads,
            order: [0; WRITES],
            writes: 0,
        }
    }

    /// How often the source had been read, at each write.
    pub fn order(&self) -> &[u64] {
        &self.order[..self.writes.min(WRITES)]
    }
}

impl Sink for LoggedSink<'_> {
    ghost written = { λ _. None };

    ghost faults = { λ _. 0 };

    fn write_some(&mut self, piece: &[u8]) -> Result<usize, Failed> {
        if self.writes < WRITES {
            self.order[self.writes] = self.reads.get();
            self.writes += 1;
        }
        Ok(piece.len())
    }

    fn faults(&self) -> u64 {
        0
    }
}
