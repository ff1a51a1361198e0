//! What a thread takes parts with.

ghost use Rattle.std.specs.Prelude.{◌≡◌};

use crate::plays::Slot;
use crate::view::View;
use atomic_table::Seat;
use std::marker::Model;

/// A thread's right to take parts of a table. A contract sees the table's identity and the pass's view.
///
/// A pass that is let go is never joined, so its table can't be closed; a part that it holds is never
/// put back.
#[derive(Drop)]
pub struct Pass<A, B, S, O> {
    pub(crate) seat: Seat<Slot<A, B>, View<S, O>>,
    pub(crate) number: u32,
    pub(crate) made: u32,
}

impl<A, B, S, O> Model for Pass<A, B, S, O> {
    ghost use Rattle.std.specs.Prelude.{◌≡◌};
    ghost use Rattle.atomic_table.specs.Seated.{TableId};
    ghost use Rattle.turn_table.specs.declared.view.View.{View};
    ghost use Rattle.turn_table.specs.Moves.{IsAtRest};
    ghost use Rattle.turn_table.specs.declared.table.TheConstants.{PARTS};

    ghost Value = { TableId × View S O };

    ghost view = { λ pass. (pass.seat.table_id, pass.seat.me.0) };

    ghost invariant = { λ pass. IsAtRest PARTS pass.seat.me × (pass.number ≡ pass.seat.me.0.number) × (pass.made ≡ pass.seat.me.0.made) };
}

impl<A, B, S, O> Pass<A, B, S, O> {
    /// The pass's number. The opening pass has 0, and the n-th that is split has n.
    pub fn number(&self) -> u32
        ensures { result ≡ self.now.1.number }
    {
        self.number
    }

    /// How many passes were split; 0 of a pass that may not be split.
    pub fn made(&self) -> u32
        ensures { result ≡ self.now.1.made }
    {
        self.made
    }
}
