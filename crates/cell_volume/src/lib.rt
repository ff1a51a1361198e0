//! A volume that is mounted: its cells, of which each file has one for itself, and the record of its nodes.
//!
//! A contract sees a `Volume` as a `MountedVolume`: its name, what the device of each cell shows where it
//! is home, and what stands at each path. A cell is spare where its device is home and no file has it.
//! It makes no call of a device but for its number of pages, and knows nothing of mounts and rows.
#![tactic(auto)]

mod below;
mod cell_entry;
mod cell_table;
mod cells;
mod moves;
mod nodes;
mod volume;

pub use cell_entry::CellEntry;
pub use node_maps::TreeFault;
pub use volume::Volume;
