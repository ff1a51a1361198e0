//! Scripts: what sessions are asked to do, and in which order.

use crate::entry::Who;
use crate::ids::SessionId;
use crate::list::{Bytes, List};
use crate::name::Name;

/// A script: its roms, which are registered at the start and have different names, and its lines.
#[derive(Debug, Drop)]
pub struct Deck {
    pub roms: List<RomText>,
    pub acts: List<Act>,
}

/// A rom of a script, by the text that describes it.
#[derive(Debug, Drop)]
pub struct RomText {
    pub name: Name,
    pub manifest: Bytes,
}

/// A line of a script.
#[derive(Debug, Drop)]
pub enum Act {
    /// Gives a session a line; `go` runs it to its end at once.
    Post { k: SessionId, text: Bytes, go: bool },
    /// One step of each, in this order.
    Events { list: List<Who> },
}
