ghost use Rattle.std.specs.Prelude.{◌≡◌, ℕ, ◌<◌, List, [], Option, IfSome, OnErr, OnOk, length, option_map, slice_index_or, slice_set};
ghost use Rattle.vfs_base.specs.declared.describe.Counts.{Counts};
ghost use Rattle.vfs_outside.specs.Block.{ArePages, with_read, with_write};

use crate::failed::Failed;
use vfs_base::{Counts, PAGE_SIZE};

/// A block device: a fixed number of pages of `PAGE_SIZE` bytes each, counted from 0. A page is read
/// and written whole, and holds what the last write of it that succeeded gave it.
pub trait Block: Send + Drop {
    // How many pages there are.
    ghost pages: { Self → ℕ };

    // What the pages hold, in their order, where the device tells it.
    ghost contents: { Self → Option (List (List ℕ)) };

    // How often the device was called.
    ghost counts: { Self → Counts };

    /// How many pages the device has.
    fn pages(&self) -> u16
        ensures number { result ≡ pages self.now }
        ensures whole { IfSome (contents self.now) (ArePages (pages self.now)) };

    /// How often pages were read and written, and how many of these calls failed. Each count stays at
    /// 2^64 - 1, once it is there.
    fn counts(&self) -> Counts
        ensures { result ≡ counts self.now };

    /// Copies the page to `out`. What `out` holds after an error is left open.
    ///
    /// # Errors
    /// `Failed` where the device could not be read, as `pread` of POSIX.1-2017 may fail. The call
    /// counts among the reads and among the faults, and may be made again.
    fn read_page(&mut self, page: u16, out: &mut [u8]) -> Result<(), Failed>
        requires page { page < pages self.old }
        requires size { length out.old ≡ PAGE_SIZE }
        ensures read { OnOk result (IfSome (contents self.old) (λ told. out.new ≡ slice_index_or told page [])) }
        ensures contents { contents self.new ≡ contents self.old }
        ensures pages { pages self.new ≡ pages self.old }
        ensures counts { counts self.new ≡ with_read (counts self.old) result };

    /// Puts the bytes on the page, in place of all that it held.
    ///
    /// # Errors
    /// `Failed` where the device could not be written, as `pwrite` of POSIX.1-2017 may fail. No page
    /// changes. The call counts among the writes and among the faults, and may be made again.
    fn write_page(&mut self, page: u16, bytes: &[u8]) -> Result<(), Failed>
        requires page { page < pages self.old }
        requires size { length bytes.now ≡ PAGE_SIZE }
        ensures written { OnOk result
            (contents self.new ≡ option_map (λ told. slice_set told page bytes.now) (contents self.old)) }
        ensures err { OnErr result (contents self.new ≡ contents self.old) }
        ensures pages { pages self.new ≡ pages self.old }
        ensures counts { counts self.new ≡ with_write (counts self.old) result };
}
