//! A block device in memory that keeps which of its calls were made.

ghost use Rattle.std.specs.Prelude.{◌≡◌};

use vfs_base::Counts;
use vfs_outside::{Block, Failed, MemBlock};

// How many calls are kept.
const CALLS_KEPT: usize = 128;

/// A call of a device: a read or a write of one page, and whether it failed.
#[derive(Clone, Copy)]
pub struct PageCall {
    pub is_write: bool,
    pub page: u16,
    pub is_failed: bool,
}

/// A device in memory, with the first 128 calls since they were forgotten last.
#[derive(Drop)]
pub struct LoggedBlock {
    block: MemBlock,
    log: CallLog,
}

impl LoggedBlock {
    pub fn new(block: MemBlock) -> LoggedBlock
        ensures { result.block ≡ block }
    {
        LoggedBlock {
            block,
            log: CallLog::new(),
        }
    }

    /// The calls that were made, the first one first.
    pub fn calls(&self) -> &[PageCall] {
        self.log.calls()
    }

    pub fn forget_calls(&mut self)
        ensures { self.new.block ≡ self.old.block }
    {
        self.log = CallLog::new();
    }
}

impl Block for LoggedBlock {
    ghost use Rattle.std.specs.Prelude.{Some, length};
    ghost use Rattle.vfs_outside.specs.MemBlock.{counts_of};

    ghost pages = { λ b. length b.block.pages };

    ghost contents = { λ b. Some b.block.pages };

    ghost counts = { λ b. counts_of b.block };

    fn pages(&self) -> u16 {
        self.block.pages()
    }

    fn counts(&self) -> Counts {
        self.block.counts()
    }

    fn read_page(&mut self, page: u16, out: &mut [u8]) -> Result<(), Failed> {
        let read = self.block.read_page(page, out);
        self.log.keep(PageCall {
            is_write: false,
            page,
            is_failed: read.is_err(),
        });
        read
    }

    fn write_page(&mut self, page: u16, bytes: &[u8]) -> Result<(), Failed> {
        let written = self.block.write_page(page, bytes);
        self.log.keep(PageCall {
            is_write: true,
            page,
            is_failed: written.is_err(),
        });
        written
    }
}

#[derive(Drop)]
struct CallLog {
    calls: [PageCall; CALLS_KEPT],
    count: usize,
}

impl CallLog {
    fn new() -> CallLog {
        let none = PageCall {
            is_write: false,
            page: 0,
            is_failed: false,
        };
        CallLog {
            calls: [none; CALLS_KEPT],
            count: 0,
        }
    }

    fn keep(&mut self, call: PageCall) {
        if self.count < CALLS_KEPT {
            self.calls[self.count] = call;
            self.count += 1;
        }
    }

    fn calls(&self) -> &[PageCall] {
        &self.calls[..self.count.min(CALLS_KEPT)]
    }
}
