ghost use Rattle.std.specs.Prelude.{◌≡◌, ◌++◌, [], ◌<◌, ◌≤◌, ◌↔◌, length, drop, take, IfOk, IsErr, OnErr};
ghost use Rattle.std.specs.List.{concat};
ghost use Rattle.vfs_outside.specs.Causes.{HasCause};
ghost use Rattle.vfs_outside.specs.FailingCalls.{NextFails, first_calls, with_call};

use crate::copying::copy_from;
use crate::failed::Failed;
use crate::failing_calls::FailingCalls;
use crate::source::Source;
use std::alloc::Global;
use std::collections::VecDeque;
use std::marker::Model;
use vfs_base::Bytes;

/// A source over pieces of bytes in memory. A call gives bytes of one piece at most.
#[derive(Debug, Drop)]
pub struct MemSource {
    piece: Bytes,
    at: usize,
    later: VecDeque<Bytes>,
    calls: FailingCalls,
}

impl Model for MemSource {
    ghost use Rattle.std.specs.Prelude.{◌++◌, ◌≤◌, drop, length};
    ghost use Rattle.std.specs.List.{concat};
    ghost use Rattle.vfs_outside.specs.MemSource.{SourceState};

    ghost Value = { SourceState };

    ghost view = { λ s. record {
      left = drop s.at s.piece ++ concat s.later.items;
      calls = s.calls;
    } };

    ghost invariant = { λ s. s.at ≤ length s.piece };
}

impl MemSource {
    /// A source that gives the pieces one after the other; an empty piece is passed over. `fails`
    /// has the numbers of the calls of `read_some` that fail, counted from 1.
    pub fn new(alloc: Global, pieces: Vec<Bytes>, fails: Vec<u64>) -> MemSource
        ensures { result ≡ record { left = concat pieces.items; calls = first_calls fails.items } }
    {
        MemSource {
            piece: Bytes::new(alloc),
            at: 0,
            later: VecDeque::from(pieces),
            calls: FailingCalls::new(fails),
        }
    }
}

impl Source for MemSource {
    ghost use Rattle.std.specs.Prelude.{Some};

    ghost left = { λ s. Some s.left };

    ghost faults = { λ s. s.calls.faults };

    fn read_some(&mut self, out: &mut [u8]) -> Result<usize, Failed>
        ensures within { IfOk result (λ n. n ≤ length out.new) }
        ensures moves { IfOk result (λ n. self.old.left ≡ take n out.new ++ self.new.left) }
        ensures end { IfOk result (λ n. n ≡ 0 → 0 < length out.new → self.new.left ≡ []) }
        ensures fails { IsErr result ↔ NextFails self.old.calls }
        ensures err { OnErr result (self.new.left ≡ self.old.left) }
        ensures counts { self.new.calls ≡ with_call self.old.calls result }
        ensures cause { HasCause self.old.calls.faults self.new.calls.faults result }
    {
        self.calls.make()?;
        turn(&mut self.piece, &mut self.at, &mut self.later);
        let n = copy_from(self.piece.as_slice(), self.at, out);
        self.at += n;
        Ok(n)
    }

    fn faults(&self) -> u64 {
        self.calls.faults()
    }
}

// Where the piece is read to its end, turns to the next one that isn't empty.
fn turn(piece: &mut Bytes, at: &mut usize, later: &mut VecDeque<Bytes>)
    requires { at.old ≤ length piece.old }
    ensures within { at.new ≤ length piece.new }
    ensures same { drop at.new piece.new ++ concat later.new.items
        ≡ drop at.old piece.old ++ concat later.old.items }
    ensures end { at.new ≡ length piece.new → concat later.new.items ≡ [] }
{
    while *at == piece.len() {
        let Some(next) = later.pop_front() else {
            return;
        };
        *piece = next;
        *at = 0;
    }
}
