//! The plain world: its start, each step of it under each mark, and the marks that a step may have.
//!
//! A contract sees the plain world, and says that a call answers and leaves what the definition of
//! its step does. The steps themselves stand in `plain_files`, `plain_names`, `plain_mounts` and
//! `plain_reports`, over the trees and slots of `plain_nodes`. It knows no command, no script's lines
//! and no threads.
#![tactic(auto)]

mod plain_fault;
mod roms;
mod start;
mod taking;
mod world;

pub use plain_fault::PlainFault;
pub use world::PlainWorld;
