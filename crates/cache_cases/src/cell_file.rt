//! The page cache of a file on a cell, over a device in memory.

ghost use Rattle.std.specs.Prelude.{◌≡◌, ◌+◌, ◌≤◌, true, length, IfOk};
ghost use Rattle.vfs_base.specs.declared.limits.TheConstants.{PAGE_SIZE};
ghost use Rattle.page_cache.specs.Resident.{holds_page};
ghost use Rattle.cache_cases.specs.declared.ending.Ending.TheVariants.{Done};

use crate::ending::{Ending, ending_of};
use crate::logged_block::{LoggedBlock, PageCall};
use case_forms::CaseFault;
use page_cache::AddressSpace;
use std::alloc::Global;
use vfs_base::{CELL_PAGES_MAX, Counts, PAGE_SIZE};
use vfs_outside::{Block, MemBlock};

// The bytes of a page, as a length of arrays.
const PAGE_BYTES: usize = PAGE_SIZE as usize;

/// A file's pages and their device. A page of the cell that there is not, or a part that doesn't lie within a page, makes
/// the case wrong: `Number`.
#[derive(Drop)]
pub struct CellFile {
    space: AddressSpace,
    device: LoggedBlock,
    ghost fits: { length device.block.pages ≡ space.pages },
}

impl CellFile {
    /// A cell of so many pages, 1024 at most, none of them stored or in memory. The calls of its device with these
    /// numbers fail.
    pub fn new(alloc: Global, pages: u16, fails: Vec<u64>) -> Result<CellFile, CaseFault> {
        let device = LoggedBlock::new(MemBlock::new(alloc, pages, fails)?);
        let space = new_space(alloc, pages, [0; 16])?;
        Ok(CellFile { space, device })
    }

    /// Begins anew with the pages that are stored: none is in memory then.
    pub fn reopen(&mut self, alloc: Global) -> Result<(), CaseFault> {
        let stored = self.space.stored();
        self.space = new_space(alloc, self.device.pages(), stored)?;
        Ok(())
    }

    /// Brings the page into memory, in front of the others.
    pub fn touch(&mut self, page: u16) -> Result<Ending, CaseFault>
        ensures { IfOk result (λ ending. ending ≡ Done → holds_page self.new.space.resident page ≡ true) }
    {
        if page >= self.device.pages() {
            return Err(CaseFault::Number);
        }
        ending_of(self.space.touch(&mut self.device, page))
    }

    /// Touches the page and puts the piece into it, from a place on.
    pub fn edit(&mut self, page: u16, at: u16, piece: &[u8]) -> Result<Ending, CaseFault> {
        if !fits_page(at, piece.len()) {
            return Err(CaseFault::Number);
        }
        let ending = self.touch(page)?;
        if let Ending::Done = ending {
            self.space.edit(page, at, piece);
        }
        Ok(ending)
    }

    /// Touches the page and copies bytes of it, from a place on.
    pub fn copy_out(&mut self, page: u16, at: u16, out: &mut [u8]) -> Result<Ending, CaseFault> {
        if !fits_page(at, out.len()) {
            return Err(CaseFault::Number);
        }
        let ending = self.touch(page)?;
        if let Ending::Done = ending {
            self.space.copy_out(page, at, out);
        }
        Ok(ending)
    }

    /// Writes the dirty pages.
    pub fn write_back(&mut self) -> Result<Ending, CaseFault> {
        ending_of(self.space.write_back(&mut self.device))
    }

    /// Lets pages leave until 8 are in memory.
    pub fn shrink(&mut self) -> Result<Ending, CaseFault> {
        ending_of(self.space.shrink(&mut self.device))
    }

    /// Forgets the pages from this one on.
    pub fn cut(&mut self, keep: u16) {
        self.space.cut(keep);
    }

    /// The stored pages, as bits.
    pub fn stored(&self) -> [u64; 16] {
        self.space.stored()
    }

    /// Copies bytes of a page as the device has it, from a place on. It is a read of the device.
    pub fn copy_device(&mut self, page: u16, at: u16, out: &mut [u8]) -> Result<Ending, CaseFault> {
        if page >= self.device.pages() || !fits_page(at, out.len()) {
            return Err(CaseFault::Number);
        }
        let mut bytes = [0u8; PAGE_BYTES];
        if self.device.read_page(page, &mut bytes).is_err() {
            return Ok(Ending::Fault);
        }
        let from = usize::from(at);
        out.copy_from_slice(&bytes[from..from + out.len()]);
        Ok(Ending::Done)
    }

    /// How often the device was called.
    pub fn counts(&self) -> Counts {
        self.device.counts()
    }

    /// The calls of the device since they were forgotten.
    pub fn calls(&self) -> &[PageCall] {
        self.device.calls()
    }

    pub fn forget_calls(&mut self) {
        self.device.forget_calls();
    }
}

fn new_space(alloc: Global, pages: u16, stored: [u64; 16]) -> Result<AddressSpace, CaseFault>
    ensures { IfOk result (λ space. space.pages ≡ pages) }
{
    if pages > CELL_PAGES_MAX {
        return Err(CaseFault::Number);
    }
    Ok(AddressSpace::new(alloc, pages, stored)?)
}

// Whether so many bytes from a place on lie within a page.
fn fits_page(at: u16, count: usize) -> bool
    ensures { result ≡ true → at + count ≤ PAGE_SIZE }
{
    count <= PAGE_BYTES && usize::from(at) <= PAGE_BYTES - count
}
