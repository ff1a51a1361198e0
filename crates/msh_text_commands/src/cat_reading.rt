use std::collections::VecDeque;
use vfs_base::{Bytes, FileId, HoldId, Kind};

/// A file that `cat` reads.
#[derive(Drop)]
pub struct CatReading {
    pub word: Bytes,
    /// The files behind it.
    pub others: VecDeque<Bytes>,
    pub hold: HoldId,
    pub file: FileId,
    pub kind: Kind,
    /// Where the next bytes are read.
    pub offset: u64,
    /// The bytes of all files so far.
    pub text: Bytes,
}
