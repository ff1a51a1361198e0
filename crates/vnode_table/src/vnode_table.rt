//! The table of vnode slots.

ghost use Rattle.std.specs.Prelude.{◌≡◌, ◌+◌, ◌-◌, ◌<◌, ◌∷◌, ◌^◌, ◌↔◌, Some, length, replicate, slice_get, slice_set, true, IfOk, IfSome, IsErr, OnErr};
ghost use Rattle.std.specs.Result.{result_ok};
ghost use Rattle.vfs_base.specs.declared.limits.TheConstants.{ROWS};
ghost use Rattle.vnode_table.specs.SlotTable.{IsFreeRow, IsSound, IsSoundSlot, bound_slot, file_at, free_files, held_slot, is_unused, least_free_row, linked_slot, opening_slot, released_slot, slot_at, unbound_slot, with_slot};

use crate::free_files::{BLOCK, BLOCKS, nth_free_file, recount};
use crate::rows_full::RowsFull;
use crate::vnode_slot::{VnodeSlot, is_free};
use std::alloc::Global;
use std::marker::Model;
use vfs_base::{FileId, Generation, NoMemory, ROWS, RowId};

/// The vnode slots of the file system, one for each row from 1 to 1024.
///
/// A row that is bound has a live file. Each binding raises the row's generation by one, and a row that
/// has had generation 2^64 - 1 is never bound again. Memory is taken by `new` alone.
#[derive(Debug, Drop)]
pub struct VnodeTable {
    // The slots, by row.
    slots: Vec<VnodeSlot>,
    // How many slots are free in each block of 64.
    blocks: [u16; BLOCKS],
    // How many slots are free.
    total: u16,
}

impl Model for VnodeTable {
    ghost use Rattle.std.specs.Prelude.{List};
    ghost use Rattle.vnode_table.specs.Layout.{IsCounted};
    ghost use Rattle.vnode_table.specs.SlotTable.{IsSound};
    ghost use Rattle.vnode_table.specs.declared.vnode_slot.VnodeSlot.{VnodeSlot};

    ghost Value = { List VnodeSlot };

    ghost view = { λ table. table.slots.items };

    ghost invariant = { λ table. IsSound table.slots.items × IsCounted table.slots.items table.blocks table.total };
}

impl VnodeTable {
    /// All rows are free and have had no file.
    pub fn new(alloc: Global) -> Result<VnodeTable, NoMemory>
        ensures { IfOk result (λ table. table ≡ replicate ROWS opening_slot) }
    {
        let slots = vec![in alloc; VnodeSlot::OPENING; ROWS as usize]?;
        Ok(VnodeTable {
            slots,
            blocks: [BLOCK as u16; BLOCKS],
            total: ROWS,
        })
    }

    /// The file that the row has; `None` exactly where the row is not bound.
    pub fn file(&self, row: RowId) -> Option<FileId>
        ensures file { result ≡ file_at self.now row }
        ensures sound { IsSound self.now }
    {
        let slot = self.slot(row);
        if !slot.bound {
            return None;
        }
        let generation = Generation::new(slot.generation)?;
        Some(FileId { row, generation })
    }

    /// Whether the row's file has a name.
    pub fn is_linked(&self, row: RowId) -> bool
        ensures { result ≡ (slot_at self.now row).linked }
    {
        self.slot(row).linked
    }

    /// How many references the row's file has.
    pub fn holds(&self, row: RowId) -> u32
        ensures { result ≡ (slot_at self.now row).references }
    {
        self.slot(row).references
    }

    /// How many rows are free: not bound, and below generation 2^64 - 1.
    pub fn free_rows(&self) -> u16
        ensures { result ≡ length (free_files self.now) }
    {
        self.total
    }

    /// The file that `bind_next` answers after `nth` further calls of it, from 0; `None` exactly where
    /// no more than `nth` rows are free.
    pub fn free_row(&self, nth: u16) -> Option<FileId>
        ensures file { result ≡ slice_get (free_files self.now) nth }
        ensures free { IfSome result (IsFreeRow self.now) }
        ensures sound { IsSound self.now }
    {
        nth_free_file(&self.slots, &self.blocks, self.total, usize::from(nth))
    }

    /// Binds the least free row, whose generation rises by one, and answers its file, which is neither
    /// linked nor held yet.
    ///
    /// # Errors
    /// `RowsFull` exactly where no row is free.
    pub fn bind_next(&mut self) -> Result<FileId, RowsFull>
        ensures next { result_ok result ≡ slice_get (free_files self.old) 0 }
        ensures table { IfOk result (λ file. self.new ≡ with_slot self.old file.row bound_slot) }
        ensures refused { OnErr result (self.new ≡ self.old) }

        // What the answer tells beside.
        ensures free { IfOk result (IsFreeRow self.old) }
        ensures least { IfOk result (λ file. file.row ≡ least_free_row self.old) }
        ensures left { IfOk result (λ file. free_files self.old ≡ file ∷ free_files self.new) }
        ensures full { IsErr result ↔ (least_free_row self.old ≡ ROWS + 1) }
    {
        let Some(file) = self.free_row(0) else {
            return Err(RowsFull);
        };
        let slot = VnodeSlot {
            generation: file.generation.number(),
            bound: true,
            ..self.slot(file.row)
        };
        self.replace(file.row, slot);
        Ok(file)
    }

    /// The file has a name from now on, or has none any more.
    pub fn link(&mut self, file: FileId, on: bool)
        requires { file_at self.old file.row ≡ Some file }
        ensures { self.new ≡ with_slot self.old file.row (linked_slot on) }
    {
        let slot = VnodeSlot {
            linked: on,
            ..self.slot(file.row)
        };
        self.replace(file.row, slot);
    }

    /// The file has one more reference.
    pub fn hold(&mut self, file: FileId)
        requires bound { file_at self.old file.row ≡ Some file }
        requires room { (slot_at self.old file.row).references < 2 ^ 32 - 1 }
        ensures { self.new ≡ with_slot self.old file.row held_slot }
    {
        let slot = self.slot(file.row);
        let references = slot.references + 1;
        self.replace(file.row, VnodeSlot { references, ..slot });
    }

    /// The file has one reference less. Whether it is neither linked nor held now is answered.
    pub fn release(&mut self, file: FileId) -> bool
        requires bound { file_at self.old file.row ≡ Some file }
        requires held { 0 < (slot_at self.old file.row).references }
        ensures table { self.new ≡ with_slot self.old file.row released_slot }
        ensures unused { result ≡ is_unused (slot_at self.new file.row) }
    {
        let slot = self.slot(file.row);
        let references = slot.references - 1;
        self.replace(file.row, VnodeSlot { references, ..slot });
        !slot.linked && references == 0
    }

    /// The row has no file any more. It keeps its generation, and is free unless that is the last one.
    /// A row that is not bound stays as it is.
    pub fn unbind(&mut self, row: RowId)
        requires { is_unused (slot_at self.old row) ≡ true }
        ensures { self.new ≡ with_slot self.old row unbound_slot }
    {
        let slot = VnodeSlot {
            bound: false,
            ..self.slot(row)
        };
        self.replace(row, slot);
    }

    fn slot(&self, row: RowId) -> VnodeSlot
        ensures slot { result ≡ slot_at self.now row }
        ensures kept { IsSoundSlot result }
        ensures sound { IsSound self.now }
    {
        self.slots[row.place()]
    }

    // Puts the slot at its row, and counts anew.
    fn replace(&mut self, row: RowId, slot: VnodeSlot)
        requires { IsSoundSlot slot }
        ensures { self.new ≡ slice_set self.old (row - 1) slot }
    {
        let place = row.place();
        let block = place / BLOCK;
        let was = is_free(self.slots[place]);
        let is = is_free(slot);
        self.blocks[block] = recount(self.blocks[block], was, is);
        self.total = recount(self.total, was, is);
        self.slots[place] = slot;
    }
}
