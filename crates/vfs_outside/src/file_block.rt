ghost use Rattle.std.specs.Prelude.{◌≡◌, is_ok};
ghost use Rattle.vfs_outside.specs.CallCount.{faults_behind};

use crate::block::Block;
use crate::failed::Failed;
use std::fs::File;
use std::marker::Model;
use std::os::unix::fs::FileExt;
use vfs_base::{Counts, PAGE_SIZE};

/// A block device over a part of a real file: `pages` pages from the byte `start` of the file on. It
/// tells nothing of its pages. A transfer that stops short is gone on with, one that a signal
/// interrupts is made again, and a page that the file doesn't reach is a fault.
///
/// Each device has the open file for itself. Those over other parts of one file may have another
/// handle of it (`File::try_clone`) or open it again: none of them moves a place that they share.
#[derive(Drop)]
pub struct FileBlock {
    file: File,
    start: u64,
    pages: u16,
    counts: Counts,
}

impl Model for FileBlock {
    ghost use Rattle.vfs_outside.specs.FileBlock.{FilePart};

    ghost Value = { FilePart };

    ghost view = { λ b. record { start = b.start; pages = b.pages; counts = b.counts } };
}

impl FileBlock {
    /// The pages from byte `start` of the file on, of which none was read or written yet. The file
    /// is open for both. Nothing is asked of it here.
    pub fn new(file: File, start: u64, pages: u16) -> FileBlock
        ensures { result ≡ record {
          start = start;
          pages = pages;
          counts = record { reads = 0; writes = 0; faults = 0 };
        } }
    {
        FileBlock {
            file,
            start,
            pages,
            counts: Counts {
                reads: 0,
                writes: 0,
                faults: 0,
            },
        }
    }
}

impl Block for FileBlock {
    ghost use Rattle.std.specs.Prelude.{None};

    ghost pages = { λ b. b.pages };

    ghost contents = { λ _. None };

    ghost counts = { λ b. b.counts };

    fn pages(&self) -> u16 {
        self.pages
    }

    fn counts(&self) -> Counts {
        self.counts
    }

    fn read_page(&mut self, page: u16, out: &mut [u8]) -> Result<(), Failed> {
        self.counts.reads = self.counts.reads.saturating_add(1);
        let read = self.file.read_exact_at(out, page_offset(self.start, page));
        outcome(read.is_ok(), &mut self.counts.faults)
    }

    fn write_page(&mut self, page: u16, bytes: &[u8]) -> Result<(), Failed> {
        self.counts.writes = self.counts.writes.saturating_add(1);
        let offset = page_offset(self.start, page);
        let written = reaches(&self.file, offset) && self.file.write_all_at(bytes, offset).is_ok();
        outcome(written, &mut self.counts.faults)
    }
}

// Where the page begins in the file. No file reaches the greatest offset, which stands for those
// that a u64 doesn't hold.
fn page_offset(start: u64, page: u16) -> u64 {
    start.saturating_add(u64::from(page) * PAGE_SIZE)
}

// Whether the file reaches to the end of a page that begins there: a write must not make it longer.
fn reaches(file: &File, offset: u64) -> bool {
    file.metadata()
        .is_ok_and(|told| offset.saturating_add(PAGE_SIZE) <= told.len())
}

// What a call answers, which a fault is counted of where it failed.
fn outcome(done: bool, faults: &mut u64) -> Result<(), Failed>
    ensures done { is_ok result ≡ done }
    ensures faults { faults.new ≡ faults_behind faults.old result }
{
    if done {
        return Ok(());
    }
    *faults = faults.saturating_add(1);
    Err(Failed)
}
