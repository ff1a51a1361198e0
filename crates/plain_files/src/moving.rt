//! How steps of a file move its bytes.

ghost use Rattle.std.specs.Prelude.{◌≡◌, ℕ, ◌≤◌, OnErr, IfOk};
ghost use Rattle.vfs_model.specs.FileStep.{device_count, count_of, moved_count};
ghost use Rattle.vfs_model.specs.FileMoves.{move, move_device};

use crate::refusal::file_refusals;
use file_steps::{bytes_count, copied, front, move_bytes};
use std::alloc::Global;
use vfs_base::{Bytes, NoMemory, Reply, Step};
use vfs_model::FileState;

/// How many bytes a step moves where neither a device nor memory fails.
#[tactic(auto, unfolding(vfs_model::specs::FileStep::moved_count))]
pub fn moved_count(file: &FileState, step: &Step) -> u64
    ensures { result ≡ moved_count file.now step.now }
{
    match file_refusals(file, step) {
        Ok(()) => count_of(file, step),
        Err(_) => 0,
    }
}

fn count_of(file: &FileState, step: &Step) -> u64
    ensures { result ≡ count_of file.now step.now }
{
    match file {
        FileState::Unbound { .. } => 0,
        FileState::Bytes {
            capacity,
            bytes,
            ..
        } => bytes_count(*capacity, bytes.len() as u64, step),
        FileState::Device { input, .. } => device_count(input.as_slice(), step),
    }
}

fn device_count(input: &[u8], step: &Step) -> u64
    ensures { result ≡ device_count input.now step.now }
{
    match step {
        Step::Read { len, .. } => (*len).min(input.len() as u64),
        Step::Write { bytes, .. } | Step::Append { bytes, .. } => bytes.len() as u64,
        _ => 0,
    }
}

/// A step of a file that moves so many bytes.
#[tactic(auto, using(crate::proofs::MovingLemmas::moved_bytes_named))]
pub fn move_file(
    file: &mut FileState,
    alloc: Global,
    step: &Step,
    count: u64,
) -> Result<Reply, NoMemory>
    requires { count ≤ moved_count file.old step.now }
    ensures ok { IfOk result (λ reply. move file.old step.now count
        ≡ record { reply = reply; next = file.new }) }
    ensures err { OnErr result (file.new ≡ file.old) }
{
    match file {
        FileState::Unbound { .. } => Ok(Reply::Done),
        FileState::Bytes {
            kind,
            capacity,
            bytes,
            ..
        } => move_bytes(*kind, *capacity, bytes, alloc, step, count),
        FileState::Device { input, output, .. } => move_device(input, output, alloc, step, count),
    }
}

fn move_device(
    input: &mut Bytes,
    output: &mut Bytes,
    alloc: Global,
    step: &Step,
    count: u64,
) -> Result<Reply, NoMemory>
    ensures ok { IfOk result (λ reply. (generation : ℕ) → move_device generation input.old output.old step.now count
        ≡ record { reply = reply; next = FileState.Device generation input.new output.new }) }
    ensures input { OnErr result (input.new ≡ input.old) }
    ensures output { OnErr result (output.new ≡ output.old) }
{
    match step {
        Step::Read { .. } => {
            let reply = copied(alloc, input.as_slice(), count)?;
            input.cut_front(count as usize);
            Ok(reply)
        }
        Step::Write { bytes: piece, .. } | Step::Append { bytes: piece, .. } => {
            output.extend_from_slice(front(piece.as_slice(), count))?;
            Ok(Reply::Count { n: count, end: 0 })
        }
        _ => Ok(Reply::Done),
    }
}
