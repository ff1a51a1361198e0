//! The plain state of the page cache of one cell file, and the calls of its device.

use vfs_base::List;

/// A resident page.
#[derive(Debug, Drop)]
pub struct Resident {
    pub page: u16,
    /// Whether it was written since it was last on the device.
    pub is_dirty: bool,
}

/// The page cache of one cell file.
#[derive(Debug, Drop)]
pub struct CacheState {
    /// The resident pages, most recent first.
    pub resident: List<Resident>,
    /// The pages that lie on the device, in rising order.
    pub stored: List<u16>,
}

/// A call of a block device: one page.
#[derive(Debug, Drop)]
pub enum DeviceCall {
    Read { page: u16 },
    Write { page: u16 },
}
