ghost use Rattle.std.specs.Prelude.{◌≡◌, ℕ, ◌<◌, ◌≤◌, List, Option, IfOk, OnErr, length, take};
ghost use Rattle.std.specs.Io.KnownBytes.{Consumes, IsAtEnd, Keeps};
ghost use Rattle.vfs_outside.specs.Causes.{HasCause, StillTells};

use crate::failed::Failed;

/// Where bytes are read from, as by `read` of POSIX.1-2017: a call may give fewer bytes than there
/// is room for, and where there is room it gives none exactly at the end of the input.
pub trait Source {
    // The bytes that are left to read, where the source tells them.
    ghost left: { Self → Option (List ℕ) };

    // The calls that failed so far, counted up to 2^64 - 1.
    ghost faults: { Self → ℕ };

    /// Moves the next bytes that are left to the front of `out`, and answers how many: at least
    /// one, unless `out` is empty or nothing is left. What `out` holds behind them, and after an
    /// error, is left open.
    ///
    /// # Errors
    /// `Failed` where the source couldn't be read; the count of faults says so. Nothing is moved,
    /// and the call may be made again.
    fn read_some(&mut self, out: &mut [u8]) -> Result<usize, Failed>
        ensures within { IfOk result (λ n. n ≤ length out.new) }
        ensures moves { IfOk result
            (λ n. Consumes (left self.old) (left self.new) (take n out.new)) }
        ensures end { IfOk result (λ n. n ≡ 0 → 0 < length out.new → IsAtEnd (left self.new)) }
        ensures err { OnErr result (Keeps (left self.old) (left self.new)) }

        ensures tells { StillTells (left self.old) (left self.new) }
        ensures cause { HasCause (faults self.old) (faults self.new) result };

    /// How many calls failed so far. At 2^64 - 1 the count stays.
    fn faults(&self) -> u64
        ensures { result ≡ faults self.now };
}
