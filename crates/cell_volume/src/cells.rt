//! The cells of a mounted volume: the device of each is home or out, and a file has it or none.

ghost use Rattle.std.specs.Prelude.{◌≡◌, [], ◌∷◌, ◌++◌, ◌<◌, ◌≤◌, Some, None, true, false, T, not, is_some, length, map, count_by, vec_capacity, vec_len, IsSome};
ghost use Rattle.std.specs.FinMap.Entries.{is_sorted};
ghost use Rattle.std.specs.List.{list_all, position};
ghost use Rattle.vfs_base.specs.Path.{path_cmp};
ghost use Rattle.cell_volume.specs.MountedVolume.{ArePaths};
ghost use Rattle.cell_volume.specs.Cells.{MarksFiles, cell_at, is_spare_cell, new_cell, with_device, with_mark, with_mark_of, without_mark};

use vfs_base::{CellNode, Record};

/// A cell.
#[derive(Drop)]
pub(crate) struct Cell<B> {
    /// Its block device, which is `None` while it is out.
    pub device: Option<B>,
    /// Whether a file of the record has the cell.
    pub has_file: bool,
}

/// Makes a cell of each device, in their order; no file has one. There is memory for all.
pub(crate) fn make_cells<B: Drop>(devices: &mut Vec<B>, cells: &mut Vec<Cell<B>>)
    requires empty { cells.old.items ≡ [] }
    requires memory { vec_len devices.old ≤ vec_capacity cells.old }
    ensures cells { cells.new.items ≡ map new_cell devices.old.items }
    ensures devices { devices.new.items ≡ [] }
    ensures capacity { vec_capacity devices.new ≡ vec_capacity devices.old }
    ensures room { vec_len devices.old ≤ vec_capacity devices.old }
{
    while let Some(device) = devices.pop() {
        let cell = Cell {
            device: Some(device),
            has_file: false,
        };
        cells.push(cell).unwrap();
    }
    cells.reverse();
}

/// Puts the devices of the cells, which are home, into the list, in their order. There is memory for all.
pub(crate) fn take_devices<B: Drop>(cells: &mut Vec<Cell<B>>, devices: &mut Vec<B>)
    requires home { list_all (λ cell. is_some cell.device) cells.old.items ≡ true }
    requires empty { devices.old.items ≡ [] }
    requires memory { vec_len cells.old ≤ vec_capacity devices.old }
    ensures { map Some devices.new.items ≡ map (λ cell. cell.device) cells.old.items }
{
    while let Some(cell) = cells.pop() {
        push_device(devices, cell);
    }
    devices.reverse();
}

fn push_device<B: Drop>(devices: &mut Vec<B>, cell: Cell<B>)
    requires home { IsSome cell.device }
    requires memory { vec_len devices.old < vec_capacity devices.old }
    ensures device { map Some devices.new.items ≡ map Some devices.old.items ++ cell.device ∷ [] }
    ensures capacity { vec_capacity devices.old ≤ vec_capacity devices.new }
{
    let Cell {
        device,
        has_file: _,
    } = cell;
    devices.push(device.unwrap()).unwrap();
}

/// Marks the cells that files of the record have; none is marked yet.
pub(crate) fn mark_files<B>(cells: &mut Vec<Cell<B>>, nodes: &Record)
    requires unmarked { list_all (λ cell. not cell.has_file) cells.old.items ≡ true }
    ensures devices { map (λ cell. cell.device) cells.new.items ≡ map (λ cell. cell.device) cells.old.items }
    ensures marks { MarksFiles cells.new.items nodes.now.entries }
    ensures ordered { T (is_sorted path_cmp nodes.now.entries) }
    ensures paths { ArePaths nodes.now.entries }
{
    for (path, node) in nodes.iter() {
        // What a path promises of its names is known only from a call of its own.
        let _names = path.as_names();
        mark_node(cells, *node);
    }
}

fn mark_node<B>(cells: &mut Vec<Cell<B>>, node: CellNode)
    ensures { cells.new.items ≡ with_mark_of cells.old.items node true }
{
    match node {
        CellNode::Dir => {}
        CellNode::File { cell, .. } => set_mark(cells, cell as usize, true),
    }
}

/// The cell of the node is that of a file or not; a folder has none.
pub(crate) fn set_mark<B>(cells: &mut Vec<Cell<B>>, place: usize, has_file: bool)
    ensures { cells.new.items ≡ with_mark cells.old.items place has_file }
{
    if place < cells.len() {
        cells[place].has_file = has_file;
    }
}

/// No file has a cell.
pub(crate) fn clear_marks<B>(cells: &mut [Cell<B>])
    ensures { cells.new ≡ map without_mark cells.old }
{
    for cell in cells.iter_mut() {
        cell.has_file = false;
    }
}

/// Whether every device is home.
pub(crate) fn are_home<B>(cells: &[Cell<B>]) -> bool
    ensures { result ≡ list_all (λ cell. is_some cell.device) cells.now }
{
    cells.iter().all(|cell| cell.device.is_some())
}

/// The least cell that is spare.
pub(crate) fn least_spare<B>(cells: &[Cell<B>]) -> Option<usize>
    ensures { result ≡ position is_spare_cell cells.now }
{
    cells.iter().position(|cell| is_spare(cell))
}

/// How many cells are spare.
pub(crate) fn count_spare<B>(cells: &[Cell<B>]) -> usize
    ensures { result ≡ count_by is_spare_cell cells.now }
{
    cells.iter().filter(|cell| is_spare(cell)).count()
}

fn is_spare<B>(cell: &Cell<B>) -> bool
    ensures { result ≡ is_spare_cell cell.now }
{
    cell.device.is_some() && !cell.has_file
}

/// Whether a file has the cell.
pub(crate) fn has_file<B>(cells: &[Cell<B>], place: usize) -> bool
    ensures { result ≡ (cell_at cells.now place).has_file }
{
    match cells.get(place) {
        Some(cell) => cell.has_file,
        None => false,
    }
}

/// Whether the cell is spare.
pub(crate) fn is_spare_at<B>(cells: &[Cell<B>], place: usize) -> bool
    ensures { result ≡ is_spare_cell (cell_at cells.now place) }
{
    match cells.get(place) {
        Some(cell) => is_spare(cell),
        None => false,
    }
}

/// Takes the device of the cell out, where it is home.
pub(crate) fn take_device<B>(cells: &mut Vec<Cell<B>>, place: usize) -> Option<B>
    ensures device { result ≡ (cell_at cells.old.items place).device }
    ensures left { cells.new.items ≡ with_device cells.old.items place None }
{
    if place < cells.len() {
        cells[place].device.take()
    } else {
        None
    }
}

/// Puts a device home at the cell.
pub(crate) fn put_device<B: Drop>(cells: &mut Vec<Cell<B>>, place: usize, device: B)
    requires { place < vec_len cells.old }
    ensures { cells.new.items ≡ with_device cells.old.items place (Some device) }
{
    cells[place].device = Some(device);
}
