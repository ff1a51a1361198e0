//! Steps of a file on a cell.

ghost use Rattle.std.specs.Prelude.{◌≡◌, ◌+◌, ◌≤◌, ◌⊎◌, ℕ, Ok, [], length, true, false};
ghost use Rattle.vfs_base.specs.declared.kinds.Kind.TheVariants as kind;
ghost use Rattle.vfs_base.specs.declared.reply.Reply.TheVariants as reply;
ghost use Rattle.vfs_model.specs.FileStep.{bytes_refusals};
ghost use Rattle.vfs_model.specs.Leaving.{is_starved};
ghost use Rattle.vfs_model.specs.Tally.{needs_no_memory};
ghost use Rattle.vfs_model.specs.declared.namespace.Namespace.{Namespace};
ghost use Rattle.cell_file.specs.CellFile.{capacity};
ghost use Rattle.file_row.specs.Passed.{IsSound, ReadsAt, RunsCell, Takes, WritesAt, cell_count};
ghost use Rattle.file_row.specs.Row.{Cell};
ghost use Rattle.file_row.specs.Steps.{FaultsGo};

use crate::memory::zeros;
use crate::outcome::{answer, starved};
use cell_file::{CellFile, moved_under};
use file_steps::{bytes_count, front};
use std::alloc::Global;
use vfs_base::{Bytes, Mark, Reply, Step};
use vfs_outside::Block;

/// A step of a file on a cell that is not refused.
#[tactic(auto, unfolding(vfs_model::specs::Tally::needs_no_memory))]
pub fn step_cell<B: Block>(file: &mut CellFile<B>, alloc: Global, step: &Step) -> (Reply, Mark)
    requires { bytes_refusals kind.Cell (capacity file.old) file.old.size step.now ≡ Ok tt }
    ensures takes { (generation : ℕ) → Takes generation (Cell file.old) (Cell file.new) step.now result.0 result.1 }
    ensures calls { RunsCell file.old file.new step.now result.1 }
    ensures cause { FaultsGo result.1 file.old.state.device.counts.faults file.new.state.device.counts.faults }
    ensures sure { (n : Namespace) (k : ℕ) → needs_no_memory n k step.now ≡ true → is_starved result.1 ≡ false }
{
    let size = file.size();
    let count = count_of(file, step);
    match step {
        Step::Size { .. } => (Reply::SizeIs { size }, Mark::Clear),
        Step::Read { off, .. } | Step::Load { off, .. } => read(file, alloc, *off, count),
        Step::Write { off, bytes, .. } | Step::Store { off, bytes, .. } => {
            write(file, *off, front(bytes.as_slice(), count))
        }
        Step::Append { bytes, .. } => write(file, size, front(bytes.as_slice(), count)),
        Step::Trunc { len, .. } => answer(file.truncate(*len), Reply::Done),
        Step::Sync { .. } | Step::Flush { .. } => answer(file.write_back(), Reply::Done),
        Step::Reclaim { .. } => answer(file.reclaim(), Reply::Done),
        _ => (Reply::Done, Mark::Clear),
    }
}

// How many bytes the step moves where nothing stops it.
fn count_of<B: Block>(file: &CellFile<B>, step: &Step) -> u64
    ensures count { result ≡ cell_count file.now step.now }
    ensures sound { IsSound (Cell file.now) }
{
    let _counts = file.counts();
    bytes_count(file.capacity(), file.size(), step)
}

// So many bytes from the offset on. The reply's own bytes are all the room that it takes.
fn read<B: Block>(file: &mut CellFile<B>, alloc: Global, off: u64, count: u64) -> (Reply, Mark)
    requires inside { (count ≡ 0) ⊎ (off + count ≤ file.old.size) }
    requires sound { IsSound (Cell file.old) }
    ensures { ReadsAt off count file.old file.new result.0 result.1 }
{
    if count == 0 {
        return (
            Reply::Got {
                bytes: Bytes::new(alloc),
            },
            Mark::Clear,
        );
    }
    let Ok(mut bytes) = zeros(alloc, count) else {
        return starved();
    };
    let mark = file.read(off, bytes.as_mut_slice());
    bytes.truncate(moved_under(mark, count) as usize);
    answer(mark, Reply::Got { bytes })
}

// Puts the piece at the offset.
fn write<B: Block>(file: &mut CellFile<B>, off: u64, piece: &[u8]) -> (Reply, Mark)
    requires inside { (piece.now ≡ []) ⊎ (off + length piece.now ≤ capacity file.old) }
    requires sound { IsSound (Cell file.old) }
    ensures { WritesAt off piece.now file.old file.new result.0 result.1 }
{
    if piece.is_empty() {
        return (Reply::Count { n: 0, end: off }, Mark::Clear);
    }
    let mark = file.write(off, piece);
    let n = moved_under(mark, piece.len() as u64);
    answer(mark, Reply::Count { n, end: off + n })
}
