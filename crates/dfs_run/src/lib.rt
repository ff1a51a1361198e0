//! The top call: what the program does, from the bytes that it reads to the bytes that it writes.
//!
//! A contract sees what the source has left and what the sink holds, and says what was shown of the
//! script, by which steps, and why it ended: `top_alone` has the theorem.
//! A shell serves its lines one after the other; a replay reads its script whole. Both play on a stage over any
//! world that takes steps, which the top call makes: the plain one; docs/MAP.md has the way of a line through them.
//! It does not know how any layer is laid out.
#![tactic(auto)]

mod ending;
mod line_stop;
mod opening;
mod replay;
mod report;
mod schedule;
mod script_stop;
mod serving;
mod shell;
mod top;
mod writing;

pub use dfs_words::{Job, Mode, ModeFault, mode_of};
pub use report::{FaultNote, Report};
pub use top::top_alone;
