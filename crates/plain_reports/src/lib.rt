//! The steps that list mounts, holders, files of cells and devices of the plain world.
//!
//! A contract sees the plain world, and says that a call answers what the definition of its step
//! does. A list is made anew at each call, by walks over the flat lists. It changes nothing, and does not know
//! how anything changes.
#![tactic(auto)]

mod counting;
mod holders;
mod report_steps;
mod tables;

pub use report_steps::{cells_in, dentries_in, devices_in, mounts_in};
