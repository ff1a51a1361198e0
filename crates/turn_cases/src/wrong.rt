//! What differs first from what a case expects.

use vfs_base::NoMemory;

/// Why a case is not ok.
#[derive(Clone, Copy, Debug)]
pub enum Wrong {
    /// There was no memory for the case.
    NoMemory,
    /// A stamp in the part's history is not above those before it.
    Falls { part: u16 },
    /// The part's history does not have the calls of the pass, in their order.
    Calls { part: u16, pass: u32 },
    /// So many entries are not as many as there were calls.
    Entries { count: usize },
    /// The entries are of other passes, or in another order.
    Passes,
    /// The processor's clock could not be read.
    Clock,
    /// The thread took processor time while it waited.
    Busy,
}

impl From<NoMemory> for Wrong {
    fn from(_fault: NoMemory) -> Wrong {
        Wrong::NoMemory
    }
}
