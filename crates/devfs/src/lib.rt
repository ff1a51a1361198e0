//! The character devices of a devfs mount, by name: each is home here, or out at a row.
//!
//! A contract sees a `Registry` as a `DeviceTable`: how many devices it has room for, and in the order
//! of handing in the name of each, with what the device tells of itself where it is home.
//! It makes no call of a device, and knows nothing of paths, mounts and rows.
#![tactic(auto)]

mod registry;
mod slots;

pub use registry::Registry;
