//! An entry of a history.

use vfs_base::{Mark, Reply, Step};

/// A call, as the history of a part has it.
#[derive(Debug, Drop)]
pub struct HistoryEntry {
    /// Its place in the one order of all calls; no two calls have one.
    pub stamp: u64,
    /// The number of the pass that made the call.
    pub pass: u32,
    pub step: Step,
    pub mark: Mark,
    pub reply: Reply,
}
