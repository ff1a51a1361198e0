ghost use Rattle.std.specs.Prelude.{◌≡◌, ◌<◌, ◌≤◌, None, Some, true, false, length, map, count_by};
ghost use Rattle.vfs_base.specs.declared.limits.TheConstants.{VOLUME_CELLS_MAX};
ghost use Rattle.cell_volume.specs.Cells.{MarksNode, cell_at, is_spare_cell, with_device, with_mark, with_mark_of, without_mark};

use crate::cells::{
    Cell, clear_marks, count_spare, is_spare_at, put_device, set_mark, take_device,
};
use vfs_base::CellNode;

/// The cells of a volume, with the number of those that are spare.
#[derive(Drop)]
pub(crate) struct CellTable<B> {
    pub cells: Vec<Cell<B>>,
    pub spare: u16,
    ghost few: { length cells.items ≤ VOLUME_CELLS_MAX },
    ghost counted: { spare ≡ count_by is_spare_cell cells.items },
}

impl<B: Drop> CellTable<B> {
    /// These cells.
    pub fn new(cells: Vec<Cell<B>>) -> CellTable<B>
        requires { length cells.items ≤ VOLUME_CELLS_MAX }
        ensures { result.cells.items ≡ cells.items }
    {
        let spare = count_spare(&cells) as u16;
        CellTable { cells, spare }
    }

    /// Takes the device of the cell out, where it is home.
    pub fn take_device(&mut self, place: usize) -> Option<B>
        ensures device { result ≡ (cell_at self.old.cells.items place).device }
        ensures left { self.new.cells.items ≡ with_device self.old.cells.items place None }
    {
        let was_spare = is_spare_at(&self.cells, place);
        let device = take_device(&mut self.cells, place);
        self.spare -= u16::from(was_spare);
        device
    }

    /// Puts a device home at the cell, from which it is out.
    pub fn put_device(&mut self, place: usize, device: B)
        requires within { place < length self.old.cells.items }
        requires out { (cell_at self.old.cells.items place).device ≡ None }
        ensures { self.new.cells.items ≡ with_device self.old.cells.items place (Some device) }
    {
        put_device(&mut self.cells, place, device);
        self.spare += u16::from(is_spare_at(&self.cells, place));
    }

    /// A file has the cell.
    pub fn mark(&mut self, place: usize)
        ensures { self.new.cells.items ≡ with_mark self.old.cells.items place true }
    {
        let was_spare = is_spare_at(&self.cells, place);
        set_mark(&mut self.cells, place, true);
        self.spare -= u16::from(was_spare);
    }

    // No file has the cell any more.
    fn unmark(&mut self, place: usize)
        requires within { place < length self.old.cells.items }
        requires marked { (cell_at self.old.cells.items place).has_file ≡ true }
        ensures { self.new.cells.items ≡ with_mark self.old.cells.items place false }
    {
        set_mark(&mut self.cells, place, false);
        self.spare += u16::from(is_spare_at(&self.cells, place));
    }

    /// No file has the cell of the node any more, if it is a file.
    pub fn free(&mut self, node: CellNode)
        requires { MarksNode self.old.cells.items node }
        ensures { self.new.cells.items ≡ with_mark_of self.old.cells.items node false }
    {
        match node {
            CellNode::Dir => {}
            CellNode::File { cell, .. } => self.unmark(cell as usize),
        }
    }

    /// No file has a cell any more.
    pub fn clear(&mut self)
        ensures { self.new.cells.items ≡ map without_mark self.old.cells.items }
    {
        clear_marks(&mut self.cells);
        self.spare = count_spare(&self.cells) as u16;
    }
}
