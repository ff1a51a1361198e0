//! Steps of a character device. Each transfer is one call of it.

ghost use Rattle.std.specs.Prelude.{◌≡◌, ◌≤◌, ℕ, Ok, IfSome, IfNone, length, min, true, false};
ghost use Rattle.vfs_base.specs.declared.errno.Errno.{Errno};
ghost use Rattle.vfs_model.specs.FileStep.{device_refusals};
ghost use Rattle.vfs_model.specs.Leaving.{is_starved};
ghost use Rattle.vfs_model.specs.Tally.{needs_no_memory};
ghost use Rattle.vfs_model.specs.declared.namespace.Namespace.{Namespace};
ghost use Rattle.file_row.specs.Passed.{ReadsChars, Takes, WritesChars};
ghost use Rattle.file_row.specs.Row.{Char, seen};
ghost use Rattle.file_row.specs.Steps.{FaultsGo};

use crate::memory::zeros;
use crate::outcome::{answer, starved};
use std::alloc::Global;
use vfs_base::{Mark, Reply, Step};
use vfs_outside::Chars;

/// A step of a character device that is not refused.
#[tactic(auto, unfolding(vfs_model::specs::Tally::needs_no_memory))]
pub fn step_device<C: Chars>(device: &mut C, alloc: Global, step: &Step) -> (Reply, Mark)
    requires { device_refusals step.now ≡ Ok tt }
    ensures takes { (g : ℕ) → Takes g
        (Char (seen C.contents C.faults device.old)) (Char (seen C.contents C.faults device.new)) step.now result.0 result.1 }
    ensures cause { FaultsGo result.1 (C.faults device.old) (C.faults device.new) }
    ensures sure { (n : Namespace) (k : ℕ) → needs_no_memory n k step.now ≡ true → is_starved result.1 ≡ false }
{
    match step {
        Step::Read { len, .. } => read(device, alloc, *len),
        Step::Write { bytes, .. } | Step::Append { bytes, .. } => write(device, bytes.as_slice()),
        _ => (Reply::Done, Mark::Clear),
    }
}

// The next bytes of the input, at most so many.
fn read<C: Chars>(device: &mut C, alloc: Global, len: u64) -> (Reply, Mark)
    ensures reads { ReadsChars len
        (seen C.contents C.faults device.old) (seen C.contents C.faults device.new) result.0 result.1 }
    ensures cause { FaultsGo result.1 (C.faults device.old) (C.faults device.new) }
{
    let Ok(mut bytes) = zeros(alloc, read_room(device, len)) else {
        return starved();
    };
    match device.read(bytes.as_mut_slice()) {
        Ok(count) => {
            bytes.truncate(count);
            (Reply::Got { bytes }, Mark::Clear)
        }
        Err(stopped) => {
            bytes.truncate(stopped.moved);
            let n = stopped.moved as u64;
            answer(Mark::Fault { n }, Reply::Got { bytes })
        }
    }
}

// The room that a read of so many bytes needs: no more than there is to read, where the device tells it.
fn read_room<C: Chars>(device: &C, len: u64) -> u64
    ensures within { result ≤ len }
    ensures told { IfSome (C.contents device.now) (λ told. result ≡ min len (length told.input)) }
    ensures untold { IfNone (C.contents device.now) (result ≡ len) }
{
    match device.told_input() {
        Some(input) => len.min(input.len() as u64),
        None => len,
    }
}

// Puts the piece behind the output.
fn write<C: Chars>(device: &mut C, piece: &[u8]) -> (Reply, Mark)
    ensures writes { WritesChars piece.now
        (seen C.contents C.faults device.old) (seen C.contents C.faults device.new) result.0 result.1 }
    ensures cause { FaultsGo result.1 (C.faults device.old) (C.faults device.new) }
    ensures sure { is_starved result.1 ≡ false }
{
    match device.write(piece) {
        Ok(()) => {
            let n = piece.len() as u64;
            (Reply::Count { n, end: 0 }, Mark::Clear)
        }
        Err(stopped) => {
            let n = stopped.moved as u64;
            answer(Mark::Fault { n }, Reply::Count { n, end: 0 })
        }
    }
}
