//! Changes of rows that a step makes.

use vfs_base::RowId;
use vfs_model::{End, Origin};

/// A change of a row that a step makes. The generation is that of the file that is bound or freed;
/// it is 0 where a row is freed that never had one.
#[derive(Debug, Drop)]
pub enum Change {
    /// The free row becomes a file of its next generation.
    Bind {
        row: RowId,
        generation: u64,
        origin: Origin,
    },
    /// The row becomes free.
    Free {
        row: RowId,
        generation: u64,
        end: End,
    },
}
