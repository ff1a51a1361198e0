ghost use Rattle.std.specs.Prelude.{◌≡◌, ℕ, ◌<◌, ◌≤◌, List, Option, IfOk, OnErr, length, take};
ghost use Rattle.std.specs.Io.KnownBytes.{Appends, Keeps};
ghost use Rattle.vfs_outside.specs.Causes.{HasCause, StillTells};

use crate::failed::Failed;

/// Where bytes are written to, as by `write` of POSIX.1-2017: a call may take fewer bytes than it
/// is given, but of a piece that isn't empty it takes at least one.
pub trait Sink {
    // The bytes that were written, where the sink tells them.
    ghost written: { Self → Option (List ℕ) };

    // The calls that failed so far, counted up to 2^64 - 1.
    ghost faults: { Self → ℕ };

    /// Writes bytes from the front of `piece`, and answers how many.
    ///
    /// # Errors
    /// `Failed` where the sink couldn't be written to; the count of faults says so. Nothing is
    /// written, and the call may be made again.
    fn write_some(&mut self, piece: &[u8]) -> Result<usize, Failed>
        ensures within { IfOk result (λ n. n ≤ length piece.now) }
        ensures takes { IfOk result (λ n. 0 < length piece.now → 0 < n) }
        ensures appends { IfOk result
            (λ n. Appends (written self.old) (written self.new) (take n piece.now)) }
        ensures err { OnErr result (Keeps (written self.old) (written self.new)) }

        ensures tells { StillTells (written self.old) (written self.new) }
        ensures cause { HasCause (faults self.old) (faults self.new) result };

    /// How many calls failed so far. At 2^64 - 1 the count stays.
    fn faults(&self) -> u64
        ensures { result ≡ faults self.now };
}
