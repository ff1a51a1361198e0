ghost use Rattle.std.specs.Prelude.{◌≡◌, ◌≤◌, true, length, map, nat_eq, IfOk};
ghost use Rattle.std.specs.Cmp.Lexicographic.{pointwise};
ghost use Rattle.std.specs.List.{list_all};
ghost use Rattle.vfs_base.specs.declared.limits.TheConstants.{VOLUME_CELLS_MAX};
ghost use Rattle.vfs_outside.specs.Volume.{IsVolume, are_cells, cell_states, chars_shape, counts_sum, empty_volume, is_page_count, total_counts, volume_counts, volume_shape};

use crate::block::Block;
use crate::chars::Chars;
use std::alloc::Global;
use std::marker::Model;
use vfs_base::{
    CELL_PAGES_MAX, CharsShape, Counts, List, Name, NoMemory, PageCount, Record, VOLUME_CELLS_MAX,
    VolumeShape, copy_bytes,
};

/// A volume: at most 1024 cells, each a block device of 1 to 1024 pages, and what it keeps while it
/// is not mounted. It is taken out of the devices and put back as one value.
#[derive(Drop)]
pub struct VolumePart<B: Block> {
    pub name: Name,
    /// The block device of each cell.
    pub cells: Vec<B>,
    /// What stands at each path: at most 4096 nodes, in which each parent is a folder or the root,
    /// and each file has a cell for itself.
    pub kept: Record,
}

impl<B: Block> Model for VolumePart<B> {
    ghost use Rattle.vfs_outside.specs.Volume.{VolumeState, IsVolume, cell_states};

    ghost Value = { VolumeState };

    ghost view = { λ part. record {
      name = part.name;
      cells = cell_states B.pages B.contents B.counts part.cells.items;
      kept = part.kept.entries;
    } };

    ghost invariant = { λ part. IsVolume (record {
      name = part.name;
      cells = cell_states B.pages B.contents B.counts part.cells.items;
      kept = part.kept.entries;
    }) };
}

impl<B: Block> VolumePart<B> {
    /// A volume of these cells that keeps nothing; takes no memory.
    pub fn new(alloc: Global, name: Name, cells: Vec<B>) -> VolumePart<B>
        requires { are_cells (map B.pages cells.items) ≡ true }
        ensures value { result ≡ empty_volume name (cell_states B.pages B.contents B.counts cells.items) }
        ensures sound { IsVolume result }
    {
        let kept = Record::new(alloc);
        VolumePart { name, cells, kept }
    }

    /// What the volume shows of itself.
    ///
    /// # Errors
    /// `NoMemory` where there is none for the answer.
    pub fn shape(&self, alloc: Global) -> Result<VolumeShape, NoMemory>
        ensures shape { IfOk result (λ shape. shape ≡ volume_shape self.now) }
        ensures few { IfOk result (λ shape. length shape.pages ≤ VOLUME_CELLS_MAX) }
    {
        let name = self.name.copy()?;
        let pages = page_counts(alloc, self.cells.as_slice())?;
        Ok(VolumeShape { name, pages })
    }

    /// How often its cells were called, all together. A sum that no u64 holds is 2^64 - 1.
    pub fn counts(&self) -> Counts
        ensures { result ≡ volume_counts self.now }
    {
        sum_of_counts(self.cells.as_slice())
    }

    pub(crate) fn is_named(&self, name: &Name) -> bool
        ensures { result ≡ pointwise nat_eq self.now.name name.now }
    {
        self.name == *name
    }
}

/// A character device. It is taken out of the devices and put back as one value.
#[derive(Drop)]
pub struct CharsPart<C: Chars> {
    pub name: Name,
    pub device: C,
}

impl<C: Chars> Model for CharsPart<C> {
    ghost use Rattle.vfs_outside.specs.Volume.{CharsState};

    ghost Value = { CharsState };

    ghost view = { λ part. record {
      name = part.name;
      contents = C.contents part.device;
      faults = C.faults part.device;
    } };
}

impl<C: Chars> CharsPart<C> {
    /// What the device shows of itself.
    ///
    /// # Errors
    /// `NoMemory` where there is none for the answer.
    pub fn shape(&self, alloc: Global) -> Result<CharsShape, NoMemory>
        ensures { IfOk result (λ shape. shape ≡ chars_shape self.now) }
    {
        let name = self.name.copy()?;
        let input = match self.device.told_input() {
            Some(told) => Some(copy_bytes(alloc, told)?),
            None => None,
        };
        Ok(CharsShape { name, input })
    }

    pub(crate) fn is_named(&self, name: &Name) -> bool
        ensures { result ≡ pointwise nat_eq self.now.name name.now }
    {
        self.name == *name
    }
}

fn page_counts<B: Block>(alloc: Global, cells: &[B]) -> Result<List<PageCount>, NoMemory>
    requires { list_all is_page_count (map B.pages cells.now) ≡ true }
    ensures { IfOk result (λ counts. counts ≡ map B.pages cells.now) }
{
    let mut counts = List::new(alloc);
    for cell in cells {
        let Some(count) = PageCount::new(cell.pages()) else {
            unreachable!()
        };
        counts.push(count)?;
    }
    Ok(counts)
}

fn sum_of_counts<B: Block>(cells: &[B]) -> Counts
    ensures { result ≡ total_counts (map B.counts cells.now) }
{
    let mut sum = Counts {
        reads: 0,
        writes: 0,
        faults: 0,
    };
    for cell in cells {
        add_counts(&mut sum, cell.counts());
    }
    sum
}

fn add_counts(sum: &mut Counts, more: Counts)
    ensures { sum.new ≡ counts_sum sum.old more }
{
    sum.reads = sum.reads.saturating_add(more.reads);
    sum.writes = sum.writes.saturating_add(more.writes);
    sum.faults = sum.faults.saturating_add(more.faults);
}

/// Whether a volume may have these cells.
#[tactic(auto, using(crate::proofs::VolumeLemmas::are_cells_map))]
pub(crate) fn are_cells<B: Block>(cells: &[B]) -> bool
    ensures { result ≡ are_cells (map B.pages cells.now) }
{
    cells.len() <= VOLUME_CELLS_MAX && have_page_counts(cells)
}

fn have_page_counts<B: Block>(cells: &[B]) -> bool
    ensures { result ≡ list_all (λ cell. is_page_count (B.pages cell)) cells.now }
{
    cells.iter().all(|cell| has_page_count(cell))
}

fn has_page_count<B: Block>(cell: &B) -> bool
    ensures { result ≡ is_page_count (B.pages cell.now) }
{
    let pages = cell.pages();
    1 <= pages && pages <= CELL_PAGES_MAX
}
