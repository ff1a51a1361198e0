//! What is known of a row without its bytes.

use vfs_base::Kind;

/// What a row is, whether its device tells what it holds or not. It is all that the refusal of a step needs.
#[derive(Clone, Copy, Debug, PartialEq, Eq)]
pub enum RowShape {
    /// No file, and the generation of the row's last one.
    Unbound {
        generation: u64,
    },
    /// A file of bytes, in memory, in a rom or on a cell: the bytes that it may have and those that it has.
    Bytes {
        generation: u64,
        kind: Kind,
        capacity: u64,
        size: u64,
    },
    /// A character device.
    Device {
        generation: u64,
    },
}
