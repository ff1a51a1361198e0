//! The whole transcript of a script under a schedule: the slow program that is the definition.
//!
//! A contract sees the script, the description of devices, the schedule, and the text or the first
//! reason why there is none. It takes the entries one after the other, over the plain world and the
//! sessions, and does not look at whose turn the lines of the script say it is.
//! It knows no faults of devices and no threads.
#![tactic(auto)]

mod posted_lines;
mod progress;
mod script_session;
mod sessions_text;
mod stage;
mod taking;
mod transcript;

pub use plain_steps::PlainFault;
pub use transcript::plain_run;
