ghost use Rattle.std.specs.Prelude.{◌≡◌, ◌<◌, ◌≤◌, ◌+◌, ◌^◌, true, false, [], length, take, drop, option_map, IfSome};
ghost use Rattle.vfs_base.specs.declared.limits.TheConstants.{CELL_PAGES_MAX};
ghost use Rattle.vfs_model.specs.FileStep.{written_at};
ghost use Rattle.vfs_model.specs.Leaving.{is_starved};
ghost use Rattle.page_cache.specs.AddressSpace.{reclaiming, writing_back};
ghost use Rattle.page_cache.specs.Framed.{AreCounted};
ghost use Rattle.cell_file.specs.CellFile.{IsCellFile, ReadsFile, capacity, cut_under, is_within, moved_under, seen, size_behind, size_under, told_bytes};
ghost use Rattle.cell_file.specs.Moves.{Runs, at_once, editing_pages, reading_pages, truncating};

use crate::transfer::{
    clean_pages, edit_pages, know_counts, read_pages, shrink_pages, truncate_pages,
};
use page_cache::AddressSpace;
use std::marker::Model;
use vfs_base::{Counts, Mark, PAGE_SIZE};
use vfs_outside::Block;

/// A file on a cell: its bytes lie in pages in memory and on the cell's block device.
///
/// A transfer goes through its pages in rising order. Where a call of the device fails, or memory for a page
/// is wanting, it stops there, and its mark tells how many bytes were moved before: none, or fewer than all.
#[derive(Drop)]
pub struct CellFile<B: Block> {
    space: AddressSpace,
    device: B,
    size: u64,
}

impl<B: Block> Model for CellFile<B> {
    ghost use Rattle.cell_file.specs.CellFile.{CellFile as File, IsCellFile, seen};

    ghost Value = { File };

    ghost view = { λ f. seen B.pages B.contents B.counts f.space f.device f.size };

    ghost invariant = { λ f. IsCellFile (seen B.pages B.contents B.counts f.space f.device f.size) };
}

impl<B: Block> CellFile<B> {
    /// A file of so many bytes, of its pages and its device. Behind the end of the file there are zeros.
    pub fn new(space: AddressSpace, device: B, size: u64) -> CellFile<B>
        requires { IsCellFile (seen B.pages B.contents B.counts space device size) }
        ensures { result ≡ seen B.pages B.contents B.counts space device size }
    {
        CellFile {
            space,
            device,
            size,
        }
    }

    /// A file of no byte, on a cell of which no page is stored or in memory.
    pub fn empty(space: AddressSpace, device: B) -> CellFile<B>
        requires device { B.pages device ≡ space.pages }
        requires few { space.pages ≤ CELL_PAGES_MAX }
        requires fresh { (space.resident ≡ []) × (space.stored ≡ []) }
        ensures { result ≡ seen B.pages B.contents B.counts space device 0 }
    {
        let _pages = device.pages();
        CellFile {
            space,
            device,
            size: 0,
        }
    }

    /// Its pages, its device and its size, apart.
    pub fn into_parts(self) -> (AddressSpace, B, u64)
        ensures parts { seen B.pages B.contents B.counts result.0 result.1 result.2 ≡ self }
        ensures sound { IsCellFile self }
    {
        (self.space, self.device, self.size)
    }

    /// How many bytes it has.
    pub fn size(&self) -> u64
        ensures size { result ≡ self.now.size }
        ensures sound { IsCellFile self.now }
    {
        self.size
    }

    /// Copies the bytes from an offset on to `out`.
    pub fn read(&mut self, off: u64, out: &mut [u8]) -> Mark
        requires { off + length out.old ≤ self.old.size }
        ensures within { is_within result (length out.old) ≡ true }
        ensures read { ReadsFile off result out.new self.old }
        ensures bytes { told_bytes self.new ≡ told_bytes self.old }
        ensures size { self.new.size ≡ self.old.size }
        ensures pages { self.new.state.space.pages ≡ self.old.state.space.pages }
        ensures runs { Runs (reading_pages off (length out.old)) self.old.state self.new.state result }
    {
        read_pages(&mut self.space, &mut self.device, off, out)
    }

    /// Puts the piece at an offset. A gap between the old end and the offset is zeros; where no byte was moved
    /// there is none.
    pub fn write(&mut self, off: u64, piece: &[u8]) -> Mark
        requires { off + length piece.now ≤ capacity self.old }
        ensures within { is_within result (length piece.now) ≡ true }
        ensures bytes { told_bytes self.new
            ≡ option_map (written_at off (take (moved_under result (length piece.now)) piece.now)) (told_bytes self.old) }
        ensures size { self.new.size ≡ size_behind off (moved_under result (length piece.now)) self.old.size }
        ensures pages { self.new.state.space.pages ≡ self.old.state.space.pages }
        ensures runs { Runs (editing_pages off (length piece.now)) self.old.state self.new.state result }
    {
        let mark = edit_pages(&mut self.space, &mut self.device, off, piece);
        let moved = moved_under(mark, piece.len() as u64);
        self.size = size_behind(off, moved, self.size);
        mark
    }

    /// Cuts the file to a length, or pads it with zeros to it. Where that is stopped, its bytes are as before; a cut to
    /// no byte takes no memory.
    pub fn truncate(&mut self, len: u64) -> Mark
        requires { len ≤ capacity self.old }
        ensures within { is_within result 0 ≡ true }
        ensures bytes { told_bytes self.new ≡ option_map (cut_under result len) (told_bytes self.old) }
        ensures size { self.new.size ≡ size_under result len self.old.size }
        ensures pages { self.new.state.space.pages ≡ self.old.state.space.pages }
        ensures runs { Runs (truncating self.old.size len) self.old.state self.new.state result }
        ensures sure { len ≡ 0 → is_starved result ≡ false }
    {
        if self.size <= len {
            know_counts(&self.device);
            self.size = len;
            return Mark::Clear;
        }
        let mark = truncate_pages(&mut self.space, &mut self.device, self.size, len);
        self.size = size_under(mark, len, self.size);
        mark
    }

    /// Writes the dirty pages, in rising order, and no others. Takes no memory.
    pub fn write_back(&mut self) -> Mark
        ensures within { is_within result 0 ≡ true }
        ensures bytes { told_bytes self.new ≡ told_bytes self.old }
        ensures size { self.new.size ≡ self.old.size }
        ensures pages { self.new.state.space.pages ≡ self.old.state.space.pages }
        ensures runs { Runs (at_once writing_back) self.old.state self.new.state result }
        ensures sure { is_starved result ≡ false }
    {
        clean_pages(&mut self.space, &mut self.device)
    }

    /// Lets pages leave memory until 8 are there; a dirty one is written before. Takes no memory.
    pub fn reclaim(&mut self) -> Mark
        ensures within { is_within result 0 ≡ true }
        ensures bytes { told_bytes self.new ≡ told_bytes self.old }
        ensures size { self.new.size ≡ self.old.size }
        ensures pages { self.new.state.space.pages ≡ self.old.state.space.pages }
        ensures runs { Runs (at_once reclaiming) self.old.state self.new.state result }
        ensures sure { is_starved result ≡ false }
    {
        shrink_pages(&mut self.space, &mut self.device)
    }

    /// How many bytes the cell can hold.
    pub fn capacity(&self) -> u64
        ensures { result ≡ capacity self.now }
    {
        PAGE_SIZE * u64::from(self.device.pages())
    }

    /// How often the device was called so far.
    pub fn counts(&self) -> Counts
        ensures counts { result ≡ self.now.state.device.counts }
        ensures counted { AreCounted self.now.state.device.counts }
    {
        self.device.counts()
    }
}

/// How many bytes of so many were moved, where a transfer ended with this mark.
pub fn moved_under(mark: Mark, count: u64) -> u64
    ensures { result ≡ moved_under mark count }
{
    match mark {
        Mark::Clear => count,
        Mark::Fault { n } | Mark::NoMem { n } => n,
    }
}

// How many bytes a file of so many has, where so many were written from an offset on.
fn size_behind(off: u64, count: u64, size: u64) -> u64
    requires { off + count < 2 ^ 64 }
    ensures { result ≡ size_behind off count size }
{
    if count == 0 {
        size
    } else {
        size.max(off + count)
    }
}

// How many bytes a file of so many has, where a truncation to a length ended with this mark.
fn size_under(mark: Mark, len: u64, size: u64) -> u64
    ensures { result ≡ size_under mark len size }
{
    match mark {
        Mark::Clear => len,
        Mark::Fault { .. } | Mark::NoMem { .. } => size,
    }
}
