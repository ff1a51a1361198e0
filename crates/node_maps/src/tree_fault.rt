ghost use Rattle.std.specs.Prelude.{◌≡◌};
ghost use Rattle.node_maps.specs.declared.tree_fault.TreeFault.TheVariants.{NoMemory as no_memory};

use thiserror::Error;
use vfs_base::NoMemory;

/// Why a file system that keeps its nodes by path does not do what it is asked.
#[derive(Clone, Copy, Debug, PartialEq, Eq, Error)]
pub enum TreeFault {
    /// Nothing stands at the path, or the path above it is no folder.
    #[error("no such node")]
    NotFound,
    /// Something stands at the path already.
    #[error("node exists")]
    Exists,
    /// There are as many nodes as there may be, `NODES` of `vfs_base`.
    #[error("no room for a node")]
    Full,
    /// There is no memory.
    #[error("no memory")]
    NoMemory,
}

impl From<NoMemory> for TreeFault {
    ghost from_gives = { λ _ fault. fault ≡ no_memory };

    fn from(_: NoMemory) -> TreeFault {
        TreeFault::NoMemory
    }
}
