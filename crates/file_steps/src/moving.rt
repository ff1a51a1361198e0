//! How many bytes a step moves, and how it moves bytes in memory.

ghost use Rattle.std.specs.Prelude.{◌≡◌, ℕ, ◌≤◌, ◌+◌, ◌-◌, ◌<◌, ◌^◌, true, min, length, take, drop, OnOk, OnErr, IfOk, IsOk};
ghost use Rattle.vfs_model.specs.FileStep.{bytes_count, cut_or_padded, written_at};
ghost use Rattle.vfs_model.specs.Tally.{needs_no_memory};
ghost use Rattle.vfs_model.specs.declared.namespace.Namespace.{Namespace};
ghost use Rattle.file_steps.specs.Moving.{MovesBytes, moved_bytes};

use crate::writing::write_at;
use std::alloc::Global;
use vfs_base::{Bytes, Kind, NoMemory, Reply, Step, copy_bytes};

/// How many bytes a step moves that is not refused, in a file that may have `capacity` bytes and has `size`.
pub fn bytes_count(capacity: u64, size: u64, step: &Step) -> u64
    ensures { result ≡ bytes_count capacity size step.now }
{
    match step {
        Step::Read { off, len, .. } => (*len).min(size.saturating_sub(*off)),
        Step::Load { len, .. } => *len,
        Step::Write { off, bytes, .. } => room_count(bytes.len() as u64, capacity, *off),
        Step::Append { bytes, .. } => room_count(bytes.len() as u64, capacity, size),
        Step::Store { bytes, .. } => bytes.len() as u64,
        _ => 0,
    }
}

fn room_count(len: u64, capacity: u64, off: u64) -> u64
    ensures { result ≡ min len (capacity - off) }
{
    len.min(capacity.saturating_sub(off))
}

/// A step that is not refused and moves so many bytes of a file in memory. A write takes its memory before it moves a byte.
#[tactic(auto, unfolding(vfs_model::specs::Tally::needs_no_memory))]
pub fn move_bytes(
    kind: Kind,
    capacity: u64,
    bytes: &mut Bytes,
    alloc: Global,
    step: &Step,
    count: u64,
) -> Result<Reply, NoMemory>
    requires { count ≤ moved_bytes kind capacity (length bytes.old) step.now }
    ensures ok { IfOk result (MovesBytes kind capacity bytes.old bytes.new step.now count) }
    ensures err { OnErr result (bytes.new ≡ bytes.old) }
    ensures sure { (n : Namespace) (k : ℕ) → needs_no_memory n k step.now ≡ true → IsOk result }
{
    let size = bytes.len() as u64;
    match step {
        Step::Size { .. } => Ok(Reply::SizeIs { size }),
        Step::Read { off, .. } | Step::Load { off, .. } => {
            copied(alloc, behind(bytes.as_slice(), *off), count)
        }
        Step::Write {
            off,
            bytes: piece,
            ..
        }
        | Step::Store {
            off,
            bytes: piece,
            ..
        } => write_bytes(bytes, *off, piece.as_slice(), count),
        Step::Append { bytes: piece, .. } => { write_bytes(bytes, size, piece.as_slice(), count) }
        Step::Trunc { len, .. } => {
            set_len(bytes, *len)?;
            Ok(Reply::Done)
        }
        _ => Ok(Reply::Done),
    }
}

// Cuts the bytes to a length, which takes no memory, or pads them with zeros to it.
fn set_len(bytes: &mut Bytes, len: u64) -> Result<(), NoMemory>
    ensures ok { OnOk result (bytes.new ≡ cut_or_padded len bytes.old) }
    ensures err { OnErr result (bytes.new ≡ bytes.old) }
    ensures sure { len ≡ 0 → IsOk result }
{
    let len = len as usize;
    if len <= bytes.len() {
        bytes.truncate(len);
        return Ok(());
    }
    bytes.resize(len, 0)
}

/// The first so many of the bytes, as read.
pub fn copied(alloc: Global, bytes: &[u8], count: u64) -> Result<Reply, NoMemory>
    ensures { IfOk result (λ reply. reply ≡ Reply.Got (take count bytes.now)) }
{
    let bytes = copy_bytes(alloc, front(bytes, count))?;
    Ok(Reply::Got { bytes })
}

// Writes the first so many bytes of the piece at the offset.
fn write_bytes(bytes: &mut Bytes, off: u64, piece: &[u8], count: u64) -> Result<Reply, NoMemory>
    requires { off + count < 2 ^ 64 }
    ensures reply { IfOk result (λ reply. reply ≡ Reply.Count count (off + count)) }
    ensures ok { OnOk result (bytes.new ≡ written_at off (take count piece.now) bytes.old) }
    ensures err { OnErr result (bytes.new ≡ bytes.old) }
{
    write_at(bytes, off, front(piece, count))?;
    Ok(Reply::Count {
        n: count,
        end: off + count,
    })
}

/// The first so many of the bytes, or all of them where there are fewer.
pub fn front(bytes: &[u8], count: u64) -> &[u8]
    ensures { result.now ≡ take count bytes.now }
{
    &bytes[..bytes.len().min(count as usize)]
}

/// The bytes from the offset on.
pub fn behind(bytes: &[u8], off: u64) -> &[u8]
    ensures { result.now ≡ drop off bytes.now }
{
    &bytes[bytes.len().min(off as usize)..]
}
