//! The pages of one cell file that are in memory, and their way to and from its block device.
//!
//! A contract sees an `AddressSpace` as the pages in memory, most recent first, each clean or dirty
//! with its bytes, and the set of pages that lie on the device. Each call makes the calls of the device
//! that `vfs_model` has for it and no other; docs/STEPS.md, "The page cache", tells which page leaves.
//! It knows nothing of names, sizes of files and sessions.
#![tactic(auto)]

mod address_space;
mod cache_fault;
mod page_set;
mod resident_pages;

pub use address_space::AddressSpace;
pub use cache_fault::CacheFault;
