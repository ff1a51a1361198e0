//! What a pass knows, as contracts see it. No value of these types is made.

use histories::HistoryEntry;
use std::collections::LinkedList;

/// A call of a pass: the part that it was made on, and its entry.
pub type Call = (u64, HistoryEntry);

/// The ticket with which a pass waits for a part.
pub struct Waiting {
    pub part: u64,
    pub number: u64,
}

/// The ticket with which a pass holds a part, and the share that the part has.
pub struct Ticket<S> {
    pub part: u64,
    pub number: u64,
    pub share: S,
}

/// What a pass knows.
pub struct View<S, O> {
    /// The part that it waits for.
    pub waits: Option<Waiting>,
    /// The parts that it holds, the one that it took last first.
    pub held: LinkedList<Ticket<S>>,
    /// For each part the turns that it has seen.
    pub seen: LinkedList<LinkedList<Option<HistoryEntry>>>,
    /// The same, of a pass that is being joined into it.
    pub also: LinkedList<LinkedList<Option<HistoryEntry>>>,
    /// The entry of its step, where it drew a stamp since it took the first of the parts that it holds.
    pub stamped: Option<HistoryEntry>,
    /// Its number. The opening pass has 0.
    pub number: u64,
    /// Its own calls, in order.
    pub calls: LinkedList<Call>,
    /// The passes that were joined into it: their numbers and their calls.
    pub joined: LinkedList<(u64, LinkedList<Call>)>,
    /// It is the opening pass, or the opening pass was joined into it.
    pub opens: bool,
    /// Where it `opens`, how many passes were split; else 0.
    pub made: u64,
    /// It was joined into another.
    pub spent: bool,
    /// With what the value of part 0 began.
    pub origin: Option<O>,
}
