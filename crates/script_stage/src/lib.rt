//! A script at work: a world, its eight sessions, and the schedule so far.
//!
//! A contract sees a `Stage` as a `Scene`, and says of it which tasks of a script are done and which are
//! to be done (`vfs_model`'s `Turns`). It does not know the script: its caller posts lines, takes events
//! and closes, and gets the world back with its schedule. It knows no file system but by the steps that a world takes.
#![tactic(auto)]

mod closing;
mod phase;
mod sessions_text;
mod stage;
mod stage_session;

pub use closing::Ended;
pub use stage::Stage;
pub use step_world::StepWorld;
