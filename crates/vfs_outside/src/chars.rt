ghost use Rattle.std.specs.Prelude.{◌≡◌, ℕ, ◌≤◌, Option, IfErr, IfOk, IfSome, OnErr, length, min, option_map, take};
ghost use Rattle.std.specs.Option.{option_copied};
ghost use Rattle.vfs_outside.specs.Causes.{Rose};
ghost use Rattle.vfs_outside.specs.Chars.{CharsContents, IsLess, behind_read, behind_write, read_count, write_count};

use crate::stopped::Stopped;

/// A character device: its input is read from the front, each byte once, and what is written to it
/// goes behind its output.
pub trait Chars: Send + Drop {
    // The input that is left and the output so far, where the device tells them.
    ghost contents: { Self → Option CharsContents };

    // The calls that failed so far, counted up to 2^64 - 1.
    ghost faults: { Self → ℕ };

    /// How many faults the device met so far. At 2^64 - 1 the count stays.
    fn faults(&self) -> u64
        ensures { result ≡ faults self.now };

    /// The input that is left, where the device tells it.
    fn told_input(&self) -> Option<&[u8]>
        ensures { option_copied result ≡ option_map (λ told. told.input) (contents self.now) };

    /// Moves the next bytes of the input to the front of `out`, until `out` is full or no input is
    /// left, and answers how many. What `out` holds behind them is left open.
    ///
    /// # Errors
    /// `Stopped` where a fault of the device came first; it tells how many bytes were moved before.
    /// The call may be made again for those that are left.
    fn read(&mut self, out: &mut [u8]) -> Result<usize, Stopped>
        ensures within { IfOk result (λ count. count ≤ length out.new) }
        ensures stopped { IfErr result (λ stopped. IsLess stopped.moved (length out.new)) }
        ensures full { IfSome (contents self.old) (λ told.
            IfOk result (λ count. count ≡ min (length out.new) (length told.input))) }
        ensures short { IfSome (contents self.old) (λ told.
            IfErr result (λ stopped. IsLess stopped.moved (min (length out.new) (length told.input)))) }
        ensures bytes { IfSome (contents self.old) (λ told.
            take (read_count result) out.new ≡ take (read_count result) told.input) }
        ensures contents { contents self.new ≡ option_map (behind_read (read_count result)) (contents self.old) }
        ensures rising { faults self.old ≤ faults self.new }
        ensures cause { OnErr result (Rose (faults self.old) (faults self.new)) };

    /// Writes all of the bytes behind the output.
    ///
    /// # Errors
    /// `Stopped` where a fault of the device came first; it tells how many bytes, from the front on,
    /// were written before.
    fn write(&mut self, bytes: &[u8]) -> Result<(), Stopped>
        ensures stopped { IfErr result (λ stopped. IsLess stopped.moved (length bytes.now)) }
        ensures contents { contents self.new
            ≡ option_map (behind_write (take (write_count (length bytes.now) result) bytes.now)) (contents self.old) }
        ensures rising { faults self.old ≤ faults self.new }
        ensures cause { OnErr result (Rose (faults self.old) (faults self.new)) };
}
