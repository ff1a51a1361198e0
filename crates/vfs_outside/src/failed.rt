use std::error::Error;
use std::fmt;

/// A call to an object outside that failed. The object's count of faults rose in that call, or
/// stands at its last value, 2^64 - 1.
#[derive(Clone, Copy, Debug, PartialEq, Eq)]
pub struct Failed;

impl fmt::Display for Failed {
    fn fmt<W: fmt::Write>(&self, f: &mut fmt::Formatter<W>) -> fmt::Result {
        write!(f, "a call to the outside failed")
    }
}

impl Error for Failed {}
