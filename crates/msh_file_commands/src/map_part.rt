ghost use Rattle.std.specs.Prelude.{◌≤◌, ◌+◌};
ghost use Rattle.vfs_base.specs.declared.limits.TheConstants.{OFF_MAX};

use vfs_model::OpenFile;

/// A part of an open file that is mapped. It ends at the greatest offset or before.
#[derive(Clone, Copy, Debug)]
pub struct MapPart {
    pub file: OpenFile,
    /// Where the part begins in the file.
    pub off: u64,
    /// The number of bytes of the part.
    pub len: u64,
    pub writes: bool,
    ghost within: { off + len ≤ OFF_MAX },
}
