ghost use Rattle.std.specs.Prelude.{◌≡◌, ℕ, Ok, true, false};
ghost use Rattle.vfs_model.specs.Leaving.{is_starved};
ghost use Rattle.vfs_model.specs.Tally.{needs_no_memory};
ghost use Rattle.vfs_model.specs.declared.namespace.Namespace.{Namespace};
ghost use Rattle.file_steps.specs.Shape.{shape_in as shape_of_row};
ghost use Rattle.file_row.specs.Passed.{IsSound, PassedCalls, Takes, file_refuses};
ghost use Rattle.file_row.specs.Row.{Cell, faults_in, file_of, shape_in};
ghost use Rattle.file_row.specs.Steps.{HasCause};

use crate::cell::step_cell;
use crate::device::step_device;
use crate::memory::step_memory;
use cell_file::CellFile;
use file_steps::RowShape;
use std::alloc::Global;
use vfs_base::{Bytes, Kind, Mark, Reply, Step, TMP_FILE_MAX};
use vfs_outside::{Block, Chars};

/// What is in a row. What is large lies in a box, so that rows move cheaply.
#[derive(Drop)]
pub enum RowBody<B: Block, C: Chars> {
    /// No file.
    Unbound,
    /// A file in memory.
    Tmp { bytes: Bytes },
    /// A rom's file.
    Rom { bytes: Bytes },
    /// A file on a cell.
    Cell { file: Box<CellFile<B>> },
    /// A character device.
    Char { device: Box<C> },
}

/// What is known of a row with this body without its bytes.
pub fn shape_of<B: Block, C: Chars>(generation: u64, body: &RowBody<B, C>) -> RowShape
    ensures shape { shape_of_row result ≡ shape_in generation (file_of C.contents C.faults body.now) }
    ensures sound { IsSound (file_of C.contents C.faults body.now) }
{
    match body {
        RowBody::Unbound => RowShape::Unbound { generation },
        RowBody::Tmp { bytes } => RowShape::Bytes {
            generation,
            kind: Kind::Tmp,
            capacity: TMP_FILE_MAX,
            size: bytes.len() as u64,
        },
        RowBody::Rom { bytes } => RowShape::Bytes {
            generation,
            kind: Kind::Rom,
            capacity: bytes.len() as u64,
            size: bytes.len() as u64,
        },
        RowBody::Cell { file } => shape_of_cell(generation, file),
        RowBody::Char { .. } => RowShape::Device { generation },
    }
}

fn shape_of_cell<B: Block>(generation: u64, file: &CellFile<B>) -> RowShape
    ensures shape { shape_of_row result ≡ shape_in generation (Cell file.now) }
    ensures sound { IsSound (Cell file.now) }
{
    let _counts = file.counts();
    RowShape::Bytes {
        generation,
        kind: Kind::Cell,
        capacity: file.capacity(),
        size: file.size(),
    }
}

/// How many faults the device met, if there is one.
pub fn faults_of<B: Block, C: Chars>(body: &RowBody<B, C>) -> Option<u64>
    ensures { result ≡ faults_in (file_of C.contents C.faults body.now) }
{
    match body {
        RowBody::Unbound | RowBody::Tmp { .. } | RowBody::Rom { .. } => None,
        RowBody::Cell { file } => Some(file.counts().faults),
        RowBody::Char { device } => Some(device.faults()),
    }
}

/// A step that is not refused.
pub fn step_body<B: Block, C: Chars>(
    body: &mut RowBody<B, C>,
    alloc: Global,
    step: &Step,
) -> (Reply, Mark)
    requires { file_refuses (file_of C.contents C.faults body.old) step.now ≡ Ok tt }
    ensures takes { (generation : ℕ) → Takes generation
        (file_of C.contents C.faults body.old) (file_of C.contents C.faults body.new) step.now result.0 result.1 }
    ensures calls { PassedCalls (file_of C.contents C.faults body.old) (file_of C.contents C.faults body.new) step.now result.1 }
    ensures cause { HasCause
        (faults_in (file_of C.contents C.faults body.old)) (faults_in (file_of C.contents C.faults body.new)) result.1 }
    ensures sure { (n : Namespace) (k : ℕ) → needs_no_memory n k step.now ≡ true → is_starved result.1 ≡ false }
{
    match body {
        RowBody::Unbound => (Reply::Done, Mark::Clear),
        RowBody::Tmp { bytes } => step_memory(Kind::Tmp, TMP_FILE_MAX, bytes, alloc, step),
        RowBody::Rom { bytes } => {
            let capacity = bytes.len() as u64;
            step_memory(Kind::Rom, capacity, bytes, alloc, step)
        }
        RowBody::Cell { file } => step_cell(file, alloc, step),
        RowBody::Char { device } => step_device(device.as_mut(), alloc, step),
    }
}
