use vfs_base::{CellNode, Name};

/// An entry of a folder: its name, and what stands there.
#[derive(Debug, Drop)]
pub struct CellEntry {
    pub name: Name,
    pub node: CellNode,
}
