ghost use Rattle.std.specs.Prelude.{◌≡◌};

use crate::failed::Failed;
use std::error::Error;
use std::fmt;

/// A call to a character device that stopped before it was done. The device's count of faults rose
/// in that call, or stands at its last value, 2^64 - 1.
#[derive(Clone, Copy, Debug, PartialEq, Eq)]
pub struct Stopped {
    /// The bytes that were moved before the stop.
    pub moved: usize,
}

/// A call that failed before it moved a byte.
impl From<Failed> for Stopped {
    ghost from_gives = { λ _ stopped. stopped ≡ record { moved = 0 } };

    fn from(_: Failed) -> Stopped {
        Stopped { moved: 0 }
    }
}

impl fmt::Display for Stopped {
    fn fmt<W: fmt::Write>(&self, f: &mut fmt::Formatter<W>) -> fmt::Result {
        let moved = self.moved;
        write!(f, "a device stopped; bytes moved before: {moved}")
    }
}

impl Error for Stopped {}
