//! The files that free rows take when they are bound, found by the counts of free slots.

ghost use Rattle.std.specs.Prelude.{◌≡◌, ◌+◌, ◌-◌, ◌≤◌, ◌<◌, drop, length, slice_get};
ghost use Rattle.vnode_table.specs.Layout.{IsCounted, one_if, recounted};
ghost use Rattle.vnode_table.specs.SlotTable.{file_to_bind, free_files, free_files_from};

use crate::vnode_slot::{VnodeSlot, is_free};
use vfs_base::{FileId, Generation, RowId};

/// Slots that are counted together.
pub const BLOCK: usize = 64;

/// Blocks of all slots.
pub const BLOCKS: usize = 16;

/// The count after one of the slots that it counts was changed.
pub fn recount(count: u16, was: bool, is: bool) -> u16
    requires room { count < 65535 }
    requires counted { one_if was ≤ count }
    ensures { result ≡ recounted count was is }
{
    count + u16::from(is) - u16::from(was)
}

/// The file that the free row at this place takes, from 0, among all free rows; `None` where there is
/// no such place. Whole blocks are passed by their counts.
pub fn nth_free_file(slots: &[VnodeSlot], blocks: &[u16], total: u16, nth: usize) -> Option<FileId>
    requires { IsCounted slots.now blocks.now total }
    ensures { result ≡ slice_get (free_files slots.now) nth }
{
    let mut left = nth;
    for block in 0..blocks.len() {
        let count = usize::from(blocks[block]);
        if left < count {
            return nth_file_from(slots, BLOCK * block, left);
        }
        left -= count;
    }
    None
}

// The same among the slots from a place on.
fn nth_file_from(slots: &[VnodeSlot], start: usize, nth: usize) -> Option<FileId>
    requires { length slots.now ≤ 1024 }
    ensures { result ≡ slice_get (free_files_from (start + 1) (drop start slots.now)) nth }
{
    let mut left = nth;
    for at in start..slots.len() {
        if let Some(file) = file_to_bind(at, slots[at]) {
            if left == 0 {
                return Some(file);
            }
            left -= 1;
        }
    }
    None
}

// The file that the row at this place takes, where it is free.
fn file_to_bind(place: usize, slot: VnodeSlot) -> Option<FileId>
    requires { place < 1024 }
    ensures { result ≡ file_to_bind (place + 1) slot }
{
    if !is_free(slot) {
        return None;
    }
    let row = RowId::new(place as u16 + 1)?;
    let generation = Generation::new(slot.generation + 1)?;
    Some(FileId { row, generation })
}
