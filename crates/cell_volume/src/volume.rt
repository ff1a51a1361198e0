ghost use Rattle.std.specs.Prelude.{◌≡◌, ◌<◌, [], Some, None, true, false, length, option_map, slice_get, IfErr, IfNone, IfOk, IfSome, OnErr, OnOk, if◌then◌else◌};
ghost use Rattle.std.specs.Result.{result_err};
ghost use Rattle.std.specs.FinMap.Entries.{find as value_at, put};
ghost use Rattle.std.specs.List.{list_any};
ghost use Rattle.vfs_base.specs.Path.{path_cmp};
ghost use Rattle.vfs_base.specs.declared.describe.CellNode.TheVariants.{Dir};
ghost use Rattle.vfs_model.specs.Lookup.{is_below, is_prefix};
ghost use Rattle.vfs_outside.specs.Volume.{is_page_count};
ghost use Rattle.node_maps.specs.declared.tree_fault.TreeFault.TheVariants.{NotFound};
ghost use Rattle.node_maps.specs.IsFault.{AnswersBy};
ghost use Rattle.node_maps.specs.NodeMap.{is_folder, link_refusal, moved, rename_refusal, unlink_refusal, without};
ghost use Rattle.cell_volume.specs.MountedVolume.{IsMounted, are_home, cell_state, device_at, entries_at, file_device, has_file, is_dir, is_file, least_spare, mounted, new_file, node_in, spare_count, with_cell, with_kept, with_record};

use crate::below::entries_in;
use crate::cell_entry::CellEntry;
use crate::cell_table::CellTable;
use crate::cells::{are_home, has_file, least_spare, make_cells, mark_files, take_devices};
use crate::moves::rename;
use crate::nodes::{is_folder, keep, link, node_at, unlink};
use node_maps::TreeFault;
use std::alloc::Global;
use std::marker::Model;
use vfs_base::{CellNode, List, Name, Path, Record};
use vfs_outside::{Block, VolumePart};

/// A volume that is mounted. The devices of its cells go out to files and come back home; a cell is
/// spare where its device is home and no file of the record has the cell.
#[derive(Drop)]
pub struct Volume<B: Block> {
    name: Name,
    cells: CellTable<B>,
    // What stands at each path.
    nodes: Record,
    // Nothing, with memory for the devices of all cells: the way back needs none.
    room: Vec<B>,
}

impl<B: Block> Model for Volume<B> {
    ghost use Rattle.std.specs.Prelude.{vec_capacity};
    ghost use Rattle.cell_volume.specs.MountedVolume.{MountedVolume};
    ghost use Rattle.cell_volume.specs.Cells.{IsLaidOut, states_of};

    ghost Value = { MountedVolume };

    ghost view = { λ v. record {
      name = v.name;
      cells = states_of B.pages B.contents B.counts v.cells.cells.items;
      kept = v.nodes.entries;
    } };

    ghost invariant = { λ v. IsLaidOut
        (record { name = v.name; cells = states_of B.pages B.contents B.counts v.cells.cells.items; kept = v.nodes.entries })
        v.cells.cells.items v.room.items (vec_capacity v.room) };
}

impl<B: Block> Volume<B> {
    /// The volume, mounted: every device is home.
    ///
    /// # Errors
    /// The volume comes back where there is no memory for its cells.
    pub fn new(alloc: Global, part: VolumePart<B>) -> Result<Volume<B>, VolumePart<B>>
        ensures ok { IfOk result (λ volume. volume ≡ mounted part) }
        ensures err { IfErr result (λ back. back ≡ part) }
    {
        let Ok(mut cells) = Vec::with_capacity(alloc, part.cells.len()) else {
            return Err(part);
        };
        let VolumePart {
            name,
            cells: mut room,
            kept: nodes,
        } = part;
        make_cells(&mut room, &mut cells);
        mark_files(&mut cells, &nodes);
        Ok(Volume {
            name,
            cells: CellTable::new(cells),
            nodes,
            room,
        })
    }

    /// The volume as it is handed back, with what it keeps; takes no memory.
    ///
    /// # Errors
    /// The volume stays mounted exactly where a device is out.
    pub fn into_part(self) -> Result<VolumePart<B>, Volume<B>>
        ensures ok { IfOk result (λ part. self ≡ mounted part) }
        ensures err { IfErr result (λ volume. volume ≡ self) }
        ensures out { OnErr result (are_home self ≡ false) }
    {
        if !are_home(&self.cells.cells) {
            return Err(self);
        }
        let Volume {
            name,
            cells,
            nodes,
            mut room,
        } = self;
        let CellTable {
            mut cells,
            spare: _,
        } = cells;
        take_devices(&mut cells, &mut room);
        Ok(VolumePart {
            name,
            cells: room,
            kept: nodes,
        })
    }

    /// Takes the device of the least spare cell out, and answers the cell's number with it; `None`
    /// exactly where no cell is spare. Takes no memory.
    pub fn take_cell(&mut self) -> Option<(u16, B)>
        ensures cell { option_map (λ taken. taken.0) result ≡ least_spare self.old }
        ensures device { IfSome result
            (λ taken. device_at self.old taken.0 ≡ Some (cell_state B.pages B.contents B.counts taken.1)) }
        ensures left { IfSome result (λ taken. self.new ≡ with_cell self.old taken.0 None) }
        ensures none { IfNone result (self.new ≡ self.old) }
    {
        let place = least_spare(&self.cells.cells)?;
        let device = self.cells.take_device(place)?;
        Some((place as u16, device))
    }

    /// Takes the device of a file's cell out; `None` exactly where no file of the record has the cell or
    /// its device is out. Takes no memory.
    pub fn take_box(&mut self, cell: u16) -> Option<B>
        ensures device { option_map (cell_state B.pages B.contents B.counts) result ≡ file_device self.old cell }
        ensures left { IfSome result (λ device. self.new ≡ with_cell self.old cell None) }
        ensures none { IfNone result (self.new ≡ self.old) }
    {
        if !has_file(&self.cells.cells, cell as usize) {
            return None;
        }
        self.cells.take_device(cell as usize)
    }

    /// Puts a device home at the cell, from which it is out. It has 1 to 1024 pages. Takes no memory.
    pub fn give_cell(&mut self, cell: u16, device: B)
        requires out { slice_get self.old.cells cell ≡ Some None }
        requires pages { is_page_count (B.pages device) ≡ true }
        ensures { self.new ≡ with_cell self.old cell (Some (cell_state B.pages B.contents B.counts device)) }
    {
        self.cells.put_device(cell as usize, device);
    }

    /// How many cells are spare.
    pub fn spare(&self) -> u16
        ensures count { result ≡ spare_count self.now }
        ensures sound { IsMounted self.now }
    {
        self.cells.spare
    }

    /// Forgets all nodes, so that every cell is spare. Every device is home.
    pub fn format(&mut self)
        requires home { are_home self.old ≡ true }
        ensures { self.new ≡ with_record self.old [] }
    {
        self.nodes.clear();
        self.cells.clear();
    }

    /// What stands at the path; the root is a folder. Takes no memory.
    pub fn find(&self, path: &Path) -> Option<CellNode>
        ensures { result ≡ node_in self.now.kept path.now }
    {
        if path.is_root() {
            return Some(CellNode::Dir);
        }
        node_at(&self.nodes, path)
    }

    /// Puts a folder at the path.
    ///
    /// # Errors
    /// The first of these that holds: `NotFound` where the parent is no folder, `Exists` where something
    /// stands at the path, `Full` where there are as many nodes as there may be; or `NoMemory`.
    pub fn insert_dir(&mut self, path: &Path) -> Result<(), TreeFault>
        ensures ok { OnOk result (self.new ≡ with_record self.old (put path_cmp path.now Dir self.old.kept)) }
        ensures fault { AnswersBy (link_refusal is_dir self.old.kept path.now) result }
        ensures err { OnErr result (self.new ≡ self.old) }
    {
        link(&mut self.nodes, path, CellNode::Dir)
    }

    /// Puts a file on the cell at the path, with no bytes and no stored page. The volume has the cell,
    /// and no file of the record has it.
    ///
    /// # Errors
    /// As `insert_dir`.
    pub fn link_cell(&mut self, path: &Path, cell: u16) -> Result<(), TreeFault>
        requires within { cell < length self.old.cells }
        requires unused { has_file self.old.kept cell ≡ false }
        ensures ok { OnOk result
            (self.new ≡ with_record self.old (put path_cmp path.now (new_file cell) self.old.kept)) }
        ensures fault { AnswersBy (link_refusal is_dir self.old.kept path.now) result }
        ensures err { OnErr result (self.new ≡ self.old) }
    {
        let node = CellNode::File {
            cell,
            size: 0,
            stored: [0; 16],
        };
        if let Err(fault) = link(&mut self.nodes, path, node) {
            return Err(fault);
        }
        self.cells.mark(cell as usize);
        Ok(())
    }

    /// Takes the node at the path away, below which nothing stands, and answers it. The cell of a file is
    /// spare where its device is home. Takes no memory.
    ///
    /// # Errors
    /// `NotFound` exactly where nothing stands at the path, and at the root.
    pub fn unlink(&mut self, path: &Path) -> Result<CellNode, TreeFault>
        requires bare { list_any (λ entry. is_below path.now entry.0) self.old.kept ≡ false }
        ensures ok { IfOk result (λ node. value_at path_cmp path.now self.old.kept ≡ Some node) }
        ensures next { OnOk result (self.new ≡ with_record self.old (without path.now self.old.kept)) }
        ensures fault { result_err result ≡ unlink_refusal self.old.kept path.now }
        ensures err { OnErr result (self.new ≡ self.old) }
    {
        let node = match unlink(&mut self.nodes, path) {
            Ok(node) => node,
            Err(fault) => return Err(fault),
        };
        self.cells.free(node);
        Ok(node)
    }

    /// Moves the node at old, with all below it, to new, and answers the node that stood there. Neither
    /// path is a front of the other, and nothing stands below new. The cell of a replaced file is spare
    /// where its device is home. It takes the time and the memory of the nodes that move.
    ///
    /// # Errors
    /// `NotFound` exactly where nothing stands at old or the parent of new is no folder; or `NoMemory`.
    pub fn rename_in(&mut self, old: &Path, new: &Path) -> Result<Option<CellNode>, TreeFault>
        requires apart { is_prefix old.now new.now ≡ false }
        requires beside { is_prefix new.now old.now ≡ false }
        requires bare { list_any (λ entry. is_below new.now entry.0) self.old.kept ≡ false }
        ensures ok { IfOk result (λ replaced. replaced ≡ value_at path_cmp new.now self.old.kept) }
        ensures next { OnOk result (self.new ≡ with_record self.old (moved old.now new.now self.old.kept)) }
        ensures fault { AnswersBy (rename_refusal is_dir self.old.kept old.now new.now) result }
        ensures err { OnErr result (self.new ≡ self.old) }
    {
        let alloc = *self.cells.cells.allocator();
        let replaced = match rename(alloc, &mut self.nodes, old, new) {
            Ok(replaced) => replaced,
            Err(fault) => return Err(fault),
        };
        self.cells.free(replaced.unwrap_or(CellNode::Dir));
        Ok(replaced)
    }

    /// What is in the folder at the path, in byte order of the names. It takes the time of the nodes
    /// below the folder.
    ///
    /// # Errors
    /// `NotFound` exactly where no folder stands at the path; or `NoMemory`.
    pub fn list(&self, path: &Path) -> Result<List<CellEntry>, TreeFault>
        ensures ok { IfOk result (λ entries. entries ≡ entries_at self.now.kept path.now) }
        ensures fault { AnswersBy (if is_folder is_dir self.now.kept path.now then None else Some NotFound) result }
    {
        if !is_folder(&self.nodes, path) {
            return Err(TreeFault::NotFound);
        }
        match entries_in(*self.cells.cells.allocator(), &self.nodes, path) {
            Ok(entries) => Ok(entries),
            Err(_) => Err(TreeFault::NoMemory),
        }
    }

    /// Gives the file at the path this size and these stored pages. Takes no memory.
    pub fn keep(&mut self, path: &Path, size: u64, stored: [u64; 16])
        requires file { is_file self.old.kept path.now ≡ true }
        ensures { self.new ≡ with_record self.old (with_kept self.old.kept path.now size stored) }
    {
        keep(&mut self.nodes, path, size, stored);
    }
}
