ghost use Rattle.std.specs.Prelude.{◌≡◌, ◌+◌, ◌≤◌, ◌<◌, cond, true};
ghost use Rattle.vnode_table.specs.SlotTable.{is_free, is_unused};

/// What a row has: its file, if it is bound, and what the file is used by.
#[derive(Clone, Copy, Debug, PartialEq, Eq)]
pub struct VnodeSlot {
    /// How many files the row has had; the generation of its file, or of its last one.
    pub generation: u64,
    /// Whether the row has a file.
    pub bound: bool,
    /// Whether the file has a name.
    pub linked: bool,
    /// How many references the file has: of open files and of mappings.
    pub references: u32,
}

impl VnodeSlot {
    // The slot of a row that has had no file.
    pub(crate) const OPENING: VnodeSlot = VnodeSlot {
        generation: 0,
        bound: false,
        linked: false,
        references: 0,
    };
}

// Whether the slot has no file, and a generation left for one.
pub fn is_free(slot: VnodeSlot) -> bool
    ensures { result ≡ is_free slot }
{
    !slot.bound && slot.generation < u64::MAX
}
