//! Parts that threads take in turn, each with its value and the history of its turns.
//!
//! A contract sees a `TurnTable` as its identity, and a `Pass`, with which a thread takes parts, as that
//! identity and a `View`: the parts that it holds, the turns that it has seen, its calls. Each step keeps
//! one rule, `IsOrderly` in `specs/Rule.antt`. It reads nothing of a step, its mark and its reply, and it
//! says nothing of progress: a pass that waits may wait for good.
#![tactic(auto)]

mod called;
mod held;
mod pass;
mod passes;
mod plays;
mod table;
mod turns;
mod view;

pub use held::Held;
pub use pass::Pass;
pub use table::{NewRefused, PARTS, TurnTable};
pub use view::{Call, Ticket, View, Waiting};
