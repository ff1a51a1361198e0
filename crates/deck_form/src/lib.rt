//! Scripts and schedules: the texts that they are read from, and the script that a number makes.
//!
//! A contract sees bytes, and the `Deck` or the entries that they mean by the definitions of
//! `vfs_model`. It knows nothing of sessions, commands or devices.
#![tactic(auto)]

mod deck;
mod entry;
mod line;
mod lines;
mod rom;
mod schedule;
mod soak;

pub use deck::{DeckFault, read_deck};
pub use line::{DeckLine, deck_line};
pub use schedule::{ScheduleFault, print_schedule, read_schedule};
pub use soak::soak_deck;
