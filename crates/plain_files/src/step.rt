//! One step of one file, and the marks that it may have.

ghost use Rattle.std.specs.Prelude.{◌≡◌, true, OnErr, IfOk, ◌==◌};
ghost use Rattle.vfs_model.specs.FileMoves.{file_step, fits_file, is_before_end, is_on_cell, is_on_device, stopped_step, clear_step};
ghost use Rattle.vfs_model.specs.FileStep.{file_refusals};

use crate::moving::{move_file, moved_count};
use crate::refusal::file_refusals;
use file_steps::is_cell;
use std::alloc::Global;
use vfs_base::{Errno, Mark, NoMemory, Reply, Step};
use vfs_model::FileState;

/// Whether a step of a file may have the mark.
#[tactic(auto, unfolding(vfs_model::specs::FileMoves::fits_file))]
pub fn fits_file(file: &FileState, step: &Step, mark: Mark) -> bool
    ensures { result ≡ fits_file file.now step.now mark }
{
    match mark {
        Mark::Clear => true,
        Mark::Fault { n } => {
            is_before_end(file, step, n) && is_on_device(file) && file_refusals(file, step).is_ok()
        }
        Mark::NoMem { n } => is_before_end(file, step, n) && (n == 0 || is_on_cell(file)),
    }
}

// Whether the step stops before it has moved all, or at once where it moves nothing.
fn is_before_end(file: &FileState, step: &Step, count: u64) -> bool
    ensures { result ≡ is_before_end file.now step.now count }
{
    count == 0 || count < moved_count(file, step)
}

fn is_on_cell(file: &FileState) -> bool
    ensures { result ≡ is_on_cell file.now }
{
    match file {
        FileState::Bytes { kind, .. } => is_cell(*kind),
        FileState::Unbound { .. } | FileState::Device { .. } => false,
    }
}

fn is_on_device(file: &FileState) -> bool
    ensures { result ≡ is_on_device file.now }
{
    match file {
        FileState::Bytes { kind, .. } => is_cell(*kind),
        FileState::Device { .. } => true,
        FileState::Unbound { .. } => false,
    }
}

/// One step of a file, with a mark that it may have.
///
/// Want of memory is answered only where the plain bytes themselves find none; the file is then as
/// it was.
#[tactic(auto, using(crate::proofs::StepLemmas::marks), unfolding(vfs_model::specs::FileMoves::file_step))]
pub fn step_file(
    file: &mut FileState,
    alloc: Global,
    step: &Step,
    mark: Mark,
) -> Result<Reply, NoMemory>
    requires { fits_file file.old step.now mark ≡ true }
    ensures ok { IfOk result (λ reply. file_step file.old step.now mark
        ≡ record { reply = reply; next = file.new }) }
    ensures err { OnErr result (file.new ≡ file.old) }
{
    match mark {
        Mark::Clear => take_whole(file, alloc, step),
        Mark::Fault { n } => stop(file, alloc, step, Errno::EIO, n),
        Mark::NoMem { n } => stop(file, alloc, step, Errno::ENOMEM, n),
    }
}

// A step that nothing stops.
fn take_whole(file: &mut FileState, alloc: Global, step: &Step) -> Result<Reply, NoMemory>
    ensures ok { IfOk result (λ reply. clear_step file.old step.now (file_refusals file.old step.now)
        ≡ record { reply = reply; next = file.new }) }
    ensures err { OnErr result (file.new ≡ file.old) }
{
    match file_refusals(file, step) {
        Ok(()) => {
            let count = moved_count(file, step);
            move_file(file, alloc, step, count)
        }
        Err(errno) => Ok(Reply::Refused { errno }),
    }
}

// A step that was stopped after so many bytes.
fn stop(
    file: &mut FileState,
    alloc: Global,
    step: &Step,
    errno: Errno,
    count: u64,
) -> Result<Reply, NoMemory>
    requires { is_before_end file.old step.now count ≡ true }
    ensures ok { IfOk result (λ reply. stopped_step file.old step.now errno count
        ≡ record { reply = reply; next = file.new }) }
    ensures err { OnErr result (file.new ≡ file.old) }
{
    if count == 0 {
        return Ok(Reply::Refused { errno });
    }
    move_file(file, alloc, step, count)
}
