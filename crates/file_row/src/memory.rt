//! Steps of bytes in memory.

ghost use Rattle.std.specs.Prelude.{◌≡◌, ℕ, Ok, IfOk, length, true, false};
ghost use Rattle.vfs_model.specs.FileStep.{bytes_refusals};
ghost use Rattle.vfs_model.specs.Leaving.{is_starved};
ghost use Rattle.vfs_model.specs.Tally.{needs_no_memory};
ghost use Rattle.vfs_model.specs.declared.namespace.Namespace.{Namespace};
ghost use Rattle.file_row.specs.Passed.{TakesMemory};

use crate::outcome::starved;
use file_steps::{bytes_count, move_bytes};
use std::alloc::Global;
use vfs_base::{Bytes, Kind, Mark, NoMemory, Reply, Step};

/// A step that is not refused, of bytes in memory or of a rom's.
pub fn step_memory(
    kind: Kind,
    capacity: u64,
    bytes: &mut Bytes,
    alloc: Global,
    step: &Step,
) -> (Reply, Mark)
    requires { bytes_refusals kind capacity (length bytes.old) step.now ≡ Ok tt }
    ensures takes { TakesMemory kind capacity bytes.old bytes.new step.now result.0 result.1 }
    ensures sure { (n : Namespace) (k : ℕ) → needs_no_memory n k step.now ≡ true → is_starved result.1 ≡ false }
{
    let count = bytes_count(capacity, bytes.len() as u64, step);
    match move_bytes(kind, capacity, bytes, alloc, step, count) {
        Ok(reply) => (reply, Mark::Clear),
        Err(_) => starved(),
    }
}

/// So many bytes, each 0.
pub fn zeros(alloc: Global, count: u64) -> Result<Bytes, NoMemory>
    ensures { IfOk result (λ bytes. length bytes ≡ count) }
{
    let mut bytes = Bytes::new(alloc);
    bytes.resize(count as usize, 0)?;
    Ok(bytes)
}
