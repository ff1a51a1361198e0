use vfs_base::{Bytes, FileId, HoldId, Kind};

/// A file that `cp` has opened.
#[derive(Drop)]
pub struct CopyEnd {
    pub word: Bytes,
    pub hold: HoldId,
    pub file: FileId,
    pub kind: Kind,
}
