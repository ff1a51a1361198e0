//! Entries of histories, and what the values of parts that threads share tell contracts.
//!
//! A contract sees a part's value as its turns and its share, and that of the namespace as the origin
//! with which it began, too. `specs/Turns.antt` has the words on turns, and `specs/Tie.antt` those on how
//! shares hang together. It knows no lock: entries are data, and the traits have ghost members alone.
#![tactic(auto)]

mod entry;
mod told;
mod untied;

pub use entry::HistoryEntry;
pub use told::{NamedShares, Originated, Share, Turned};
pub use untied::Untied;
