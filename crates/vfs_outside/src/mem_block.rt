ghost use Rattle.std.specs.Prelude.{◌≡◌, ◌<◌, ◌↔◌, [], length, replicate, slice_index_or, slice_set, IfOk, IsErr, OnErr, OnOk};
ghost use Rattle.vfs_outside.specs.CallCount.{next_count};
ghost use Rattle.vfs_outside.specs.FailingCalls.{NextFails, first_calls, with_call};
ghost use Rattle.vfs_outside.specs.MemBlock.{zero_page};

use crate::block::Block;
use crate::failed::Failed;
use crate::failing_calls::FailingCalls;
use std::alloc::Global;
use std::marker::Model;
use vfs_base::{Counts, NoMemory, PAGE_SIZE};

// The bytes of a page, as a length of arrays.
const PAGE_BYTES: usize = PAGE_SIZE as usize;

/// A block device in memory. Its reads and writes take no memory, and fail where their numbers are
/// listed.
#[derive(Drop)]
pub struct MemBlock {
    pages: Vec<[u8; PAGE_BYTES]>,
    reads: u64,
    writes: u64,
    calls: FailingCalls,
}

impl Model for MemBlock {
    ghost use Rattle.vfs_outside.specs.MemBlock.{MemBlockState, IsWhole};

    ghost Value = { MemBlockState };

    ghost view = { λ b. record {
      pages = b.pages.items;
      reads = b.reads;
      writes = b.writes;
      calls = b.calls;
    } };

    ghost invariant = { λ b. IsWhole b.pages.items };
}

impl MemBlock {
    /// A device of so many pages of zeros. `fails` has the numbers of the calls that fail: those of
    /// `read_page` and `write_page` are counted together, from 1.
    ///
    /// # Errors
    /// `NoMemory` where there is none for the pages.
    pub fn new(alloc: Global, pages: u16, fails: Vec<u64>) -> Result<MemBlock, NoMemory>
        ensures { IfOk result (λ block. block ≡ record {
          pages = replicate pages zero_page;
          reads = 0;
          writes = 0;
          calls = first_calls fails.items;
        }) }
    {
        Ok(MemBlock {
            pages: zero_pages(alloc, pages)?,
            reads: 0,
            writes: 0,
            calls: FailingCalls::new(fails),
        })
    }
}

fn zero_pages(alloc: Global, count: u16) -> Result<Vec<[u8; PAGE_BYTES]>, NoMemory>
    ensures { IfOk result (λ pages. pages.items ≡ replicate count zero_page) }
{
    let mut pages = Vec::with_capacity(alloc, usize::from(count))?;
    for _ in 0..count {
        pages.push(zero_page())?;
    }
    Ok(pages)
}

fn zero_page() -> [u8; PAGE_BYTES]
    ensures { result ≡ zero_page }
{
    [0; PAGE_BYTES]
}

impl Block for MemBlock {
    ghost use Rattle.std.specs.Prelude.{Some, length};
    ghost use Rattle.vfs_outside.specs.MemBlock.{counts_of};

    ghost pages = { λ b. length b.pages };

    ghost contents = { λ b. Some b.pages };

    ghost counts = { counts_of };

    fn pages(&self) -> u16 {
        self.pages.len() as u16
    }

    fn counts(&self) -> Counts {
        Counts {
            reads: self.reads,
            writes: self.writes,
            faults: self.calls.faults(),
        }
    }

    fn read_page(&mut self, page: u16, out: &mut [u8]) -> Result<(), Failed>
        requires page { page < length self.old.pages }
        requires size { length out.old ≡ PAGE_SIZE }
        ensures fails { IsErr result ↔ NextFails self.old.calls }
        ensures read { OnOk result (out.new ≡ slice_index_or self.old.pages page []) }
        ensures err { OnErr result (out.new ≡ out.old) }
        ensures state { self.new ≡ record self.old {
          reads = next_count self.old.reads;
          calls = with_call self.old.calls result;
        } }
    {
        self.reads = self.reads.saturating_add(1);
        self.calls.make()?;
        out.copy_from_slice(&self.pages[usize::from(page)]);
        Ok(())
    }

    fn write_page(&mut self, page: u16, bytes: &[u8]) -> Result<(), Failed>
        requires page { page < length self.old.pages }
        requires size { length bytes.now ≡ PAGE_SIZE }
        ensures fails { IsErr result ↔ NextFails self.old.calls }
        ensures written { OnOk result (self.new.pages ≡ slice_set self.old.pages page bytes.now) }
        ensures err { OnErr result (self.new.pages ≡ self.old.pages) }
        ensures state { self.new ≡ record self.old {
          pages = self.new.pages;
          writes = next_count self.old.writes;
          calls = with_call self.old.calls result;
        } }
    {
        self.writes = self.writes.saturating_add(1);
        self.calls.make()?;
        self.pages[usize::from(page)].copy_from_slice(bytes);
        Ok(())
    }
}
