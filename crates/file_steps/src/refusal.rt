//! What the steps of a row are refused with.

ghost use Rattle.std.specs.Prelude.{◌≡◌, ◌+◌, nat_lt};
ghost use Rattle.vfs_model.specs.FileStep.{bytes_refusals, device_refusals, absent_refusals, write_refusals, trunc_refusals, is_rom, is_cell, full_errno, is_of_generation, step_file};
ghost use Rattle.vfs_model.specs.RowShape.{shape_refusals};
ghost use Rattle.file_steps.specs.Shape.{shape_in};

use crate::shape::RowShape;
use vfs_base::{Errno, FileId, Kind, Step};
use vfs_model::refuse_when;

/// What a step of a row of this shape is refused with, if it is. No byte of the file decides it.
pub fn refusals(shape: RowShape, step: &Step) -> Result<(), Errno>
    ensures { result ≡ shape_refusals (shape_in shape) step.now }
{
    match shape {
        RowShape::Unbound { .. } => absent_refusals(step),
        RowShape::Bytes {
            generation,
            kind,
            capacity,
            size,
        } => {
            if is_of_generation(generation, named_file(step)) {
                bytes_refusals(kind, capacity, size, step)
            } else {
                absent_refusals(step)
            }
        }
        RowShape::Device { generation } => {
            if is_of_generation(generation, named_file(step)) {
                device_refusals(step)
            } else {
                absent_refusals(step)
            }
        }
    }
}

// The file that a step names.
fn named_file(step: &Step) -> Option<FileId>
    ensures { result ≡ step_file step.now }
{
    match step {
        Step::Size { file }
        | Step::Read { file, .. }
        | Step::Write { file, .. }
        | Step::Append { file, .. }
        | Step::Trunc { file, .. }
        | Step::Sync { file }
        | Step::Load { file, .. }
        | Step::Store { file, .. } => Some(*file),
        _ => None,
    }
}

fn is_of_generation(generation: u64, named: Option<FileId>) -> bool
    ensures { result ≡ is_of_generation generation named }
{
    match named {
        None => true,
        Some(file) => file.generation.number() == generation,
    }
}

fn absent_refusals(step: &Step) -> Result<(), Errno>
    ensures { result ≡ absent_refusals step.now }
{
    match step {
        Step::Flush { .. } | Step::Reclaim { .. } => Ok(()),
        _ => Err(Errno::ENOENT),
    }
}

fn device_refusals(step: &Step) -> Result<(), Errno>
    ensures { result ≡ device_refusals step.now }
{
    match step {
        Step::Size { .. } => Err(Errno::ESPIPE),
        Step::Trunc { .. } | Step::Sync { .. } | Step::Load { .. } | Step::Store { .. } => {
            Err(Errno::EINVAL)
        }
        _ => Ok(()),
    }
}

fn bytes_refusals(kind: Kind, capacity: u64, size: u64, step: &Step) -> Result<(), Errno>
    ensures { result ≡ bytes_refusals kind capacity size step.now }
{
    match step {
        Step::Write { off, bytes, .. } => write_refusals(kind, capacity, *off, bytes.as_slice()),
        Step::Append { bytes, .. } => write_refusals(kind, capacity, size, bytes.as_slice()),
        Step::Trunc { len, .. } => trunc_refusals(kind, capacity, *len),
        Step::Load { off, len, .. } => refuse_when(Errno::EFAULT, is_past(size, *off, *len)),
        Step::Store { off, bytes, .. } => {
            refuse_when(Errno::EROFS, is_rom(kind))?;
            refuse_when(Errno::EFAULT, is_past(size, *off, bytes.len() as u64))
        }
        _ => Ok(()),
    }
}

fn write_refusals(kind: Kind, capacity: u64, off: u64, piece: &[u8]) -> Result<(), Errno>
    ensures { result ≡ write_refusals kind capacity off piece.now }
{
    refuse_when(Errno::EROFS, is_rom(kind))?;
    refuse_when(full_errno(kind), !piece.is_empty() && capacity <= off)
}

fn trunc_refusals(kind: Kind, capacity: u64, len: u64) -> Result<(), Errno>
    ensures { result ≡ trunc_refusals kind capacity len }
{
    refuse_when(Errno::EROFS, is_rom(kind))?;
    refuse_when(full_errno(kind), capacity < len)
}

// Whether so many bytes from the offset on end behind the size.
fn is_past(size: u64, off: u64, len: u64) -> bool
    ensures { result ≡ nat_lt size (off + len) }
{
    match off.checked_add(len) {
        Some(end) => size < end,
        None => true,
    }
}

fn is_rom(kind: Kind) -> bool
    ensures { result ≡ is_rom kind }
{
    matches!(kind, Kind::Rom)
}

/// Whether a file of this kind lies on a cell.
pub fn is_cell(kind: Kind) -> bool
    ensures { result ≡ is_cell kind }
{
    matches!(kind, Kind::Cell)
}

fn full_errno(kind: Kind) -> Errno
    ensures { result ≡ full_errno kind }
{
    if is_cell(kind) {
        Errno::ENOSPC
    } else {
        Errno::EFBIG
    }
}
