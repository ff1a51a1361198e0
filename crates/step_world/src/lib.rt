//! A world that takes steps, whatever stands behind it: one call, and what a contract sees of it.
//!
//! A contract sees the names in use, always; what files hold, where every device tells; and the faults that each
//! device counted. A world says of each step what the definitions of `vfs_model` say of it, and where its mark
//! comes from. It knows no session, no script and no command.
#![tactic(auto)]

mod step_world;

pub use step_world::StepWorld;
