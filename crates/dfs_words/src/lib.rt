//! What the program's words ask for.
//!
//! A contract sees the words as lists of bytes, and the job that they name by `job_of`. It knows
//! nothing of inputs, sessions or devices.
#![tactic(auto)]

mod grammar;
mod mode;

pub use mode::{Job, Mode, ModeFault, mode_of};
