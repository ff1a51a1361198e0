ghost use Rattle.std.specs.Prelude.{◌≡◌, ◌≢◌, ◌+◌, ◌<◌, ◌^◌, ℕ, true, false};
ghost use Rattle.vfs_model.specs.Leaving.{is_starved};
ghost use Rattle.vfs_model.specs.Tally.{needs_no_memory};
ghost use Rattle.vfs_model.specs.declared.namespace.Namespace.{Namespace};
ghost use Rattle.file_steps.specs.Shape.{shape_in};
ghost use Rattle.file_row.specs.Row.{Row, Unbound, faults_in, file_of, shape_at};
ghost use Rattle.file_row.specs.Steps.{HasCause, Refuses, Steps};

use crate::row_body::{RowBody, faults_of, shape_of, step_body};
use file_steps::{RowShape, refusals};
use std::alloc::Global;
use std::marker::Model;
use std::mem;
use vfs_base::{Mark, Reply, Step};
use vfs_outside::{Block, Chars};

/// A vnode slot's row: its generation, and the file that is in it.
#[derive(Drop)]
pub struct RowState<B: Block, C: Chars> {
    generation: u64,
    body: RowBody<B, C>,
}

impl<B: Block, C: Chars> Model for RowState<B, C> {
    ghost use Rattle.file_row.specs.Row.{Row, file_of};

    ghost Value = { Row };

    ghost view = { λ row. record { generation = row.generation; file = file_of C.contents C.faults row.body } };
}

impl<B: Block, C: Chars> RowState<B, C> {
    /// A row without a file, whose generation is 0.
    pub fn new() -> RowState<B, C>
        ensures { result ≡ record { generation = 0; file = Unbound } }
    {
        RowState {
            generation: 0,
            body: RowBody::Unbound,
        }
    }

    /// The row has a file of this generation now. Answers what was in it. No memory is wanted.
    pub fn bind(&mut self, generation: u64, body: RowBody<B, C>) -> RowBody<B, C>
        ensures row { self.new ≡ record { generation = generation; file = file_of C.contents C.faults body } }
        ensures before { file_of C.contents C.faults result ≡ self.old.file }
    {
        self.generation = generation;
        mem::replace(&mut self.body, body)
    }

    /// The row has no file any more, and keeps its generation. Answers what was in it. No memory is wanted.
    pub fn unbind(&mut self) -> RowBody<B, C>
        ensures row { self.new ≡ record { generation = self.old.generation; file = Unbound } }
        ensures before { file_of C.contents C.faults result ≡ self.old.file }
    {
        mem::replace(&mut self.body, RowBody::Unbound)
    }

    /// What the row is, whether its device tells what it holds or not.
    pub fn shape(&self) -> RowShape
        ensures { shape_in result ≡ shape_at self.now }
    {
        shape_of(self.generation, &self.body)
    }

    /// How many faults the row's device met, or `None` of a row without a device. At 2^64 - 1 the count stays.
    pub fn faults(&self) -> Option<u64>
        ensures { result ≡ faults_in self.now.file }
    {
        faults_of(&self.body)
    }

    /// Takes a step of a file, or of the worker, and answers the reply with the mark that says how it came out.
    ///
    /// The step is `file_step` of the file that is in the row, also where none is, or one of another
    /// generation than the step names: then it is refused with `ENOENT`. What a row of this shape refuses
    /// is refused at once, under the mark `Clear`, and nothing is changed. Any other step may be stopped:
    /// under `Fault` a call of the row's device failed, and under `NoMem` memory was wanting. Of a
    /// transfer the bytes that were moved before are told, and stay moved; where none were, the reply is
    /// `EIO` or `ENOMEM`.
    pub fn row_step(&mut self, alloc: Global, step: &Step) -> (Reply, Mark)
        ensures step { Steps self.old self.new step.now result.0 result.1 }
        ensures refused { Refuses self.old self.new step.now result.0 result.1 }
        ensures cause { HasCause (faults_in self.old.file) (faults_in self.new.file) result.1 }
        ensures sure { (n : Namespace) (k : ℕ) → needs_no_memory n k step.now ≡ true → is_starved result.1 ≡ false }
    {
        let shape = shape_of(self.generation, &self.body);
        if let Err(errno) = refusals(shape, step) {
            return (Reply::Refused { errno }, Mark::Clear);
        }
        step_body(&mut self.body, alloc, step)
    }
}
