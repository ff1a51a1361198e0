//! How passes are split and joined, and how the last one ends its table.

ghost use Rattle.std.specs.Prelude.{◌≡◌, ℕ, ◌-◌, ◌^◌, ◌<◌, ◌≤◌, [], length, true, Some, slice_get, vec_capacity};
ghost use Rattle.std.specs.Slots.{slots_items, slots_len, IsFull};
ghost use mathlib.Core.Option.{some};
ghost use lib.ListN.{get_elem?};
ghost use Rattle.turn_table.specs.Moves.{IsAtRest, joiner, merger};
ghost use Rattle.turn_table.specs.Passes.{Closes, IsLast, IsLonger, Joins, Splits};
ghost use Rattle.turn_table.specs.Values.{turns_of, share_of, IsOf, law_of};
ghost use Rattle.turn_table.specs.Views.{seen_of};

use crate::held::Held;
use crate::pass::Pass;
use crate::plays::{Join, Merge, Slot, Split};
use crate::table::{PARTS, Room, STAMP, TurnTable};
use crate::view::View;
use atomic_table::{Closed, Seat};
use histories::{Originated, Share, Turned};
use std::alloc::Global;

// Moves the values of a closed table into a list with room for them.
fn move_home<A, B>(
    mut closed: Closed<Slot<A, B>, Global>,
    mut values: Vec<Held<A, B>>,
) -> Vec<Held<A, B>>
    requires full { IsFull closed.slots × (slots_len closed.slots ≡ PARTS) }
    requires home { (part : ℕ) → part < PARTS → (value : Held A B) × (get_elem? (slots_items closed.slots) part ≡ some (Some value)) }
    requires room { (values.items ≡ []) × (PARTS ≤ vec_capacity values) }
    ensures count { length result.items ≡ PARTS }
    ensures values { (part : ℕ) (value : Held A B) → slice_get result.items part ≡ Some value → get_elem? (slots_items closed.slots) part ≡ some (Some value) }
{
    for part in 0..PARTS {
        values.push_reserved(closed.take(part).unwrap());
    }
    closed.free();
    values
}

impl<A: Turned<S> + Originated<O>, B: Turned<S>, S: Share, O> TurnTable<A, B, S, O> {
    /// Splits a new pass from the opening pass. It has seen what the opening pass has.
    pub fn split(&self, pass: &mut Pass<A, B, S, O>) -> Pass<A, B, S, O>
        requires table { pass.old.0 ≡ self.now }
        requires opens { pass.old.1.opens ≡ true }
        requires made { pass.old.1.made < 2 ^ 32 - 1 }
        ensures table { (pass.new.0 ≡ pass.old.0) × (result.0 ≡ pass.old.0) }
        ensures splits { Splits pass.old.1 pass.new.1 result.1 }
    {
        let seat = self.table.shared.split_seat::<Split>(&mut pass.seat);
        pass.made += 1;
        Pass {
            seat,
            number: pass.made,
            made: 0,
        }
    }

    /// Joins another pass into this one, which then has seen what either has.
    pub fn join(&self, pass: &mut Pass<A, B, S, O>, other: Pass<A, B, S, O>)
        requires tables { (pass.old.0 ≡ self.now) × (other.0 ≡ self.now) }
        requires rests { (pass.old.1.held ≡ []) × (other.1.held ≡ []) }
        ensures table { pass.new.0 ≡ pass.old.0 }
        ensures joins { Joins pass.old.1 other.1 pass.new.1 }
    {
        let Pass {
            seat,
            number: _,
            made,
        } = other;
        self.join_seats(&mut pass.seat, seat);
        pass.made = pass.made.max(made);
    }

    // Joins another seat into this one.
    fn join_seats(
        &self,
        seat: &mut Seat<Slot<A, B>, View<S, O>>,
        other: Seat<Slot<A, B>, View<S, O>>,
    )
        requires tables { (seat.old.table_id ≡ self.now) × (other.table_id ≡ self.now) }
        requires rest { IsAtRest PARTS seat.old.me × (seat.old.me.0.held ≡ []) }
        requires other_rests { IsAtRest PARTS other.me × (other.me.0.held ≡ []) }
        ensures table { seat.new.table_id ≡ seat.old.table_id }
        ensures both { (seat.new.me.0 ≡ merger (joiner seat.old.me.0 other.me.0)) × (seat.new.me.1 ≡ seat.old.me.1) }
        ensures seen { (part : ℕ) → IsLonger (seen_of seat.old.me.0 part) (seen_of other.me.0 part) (seen_of seat.new.me.0 part) }
    {
        self.table.shared.join_seat::<Join>(seat, other);
        self.table.shared.load::<Merge>(seat, STAMP);
    }

    /// Ends the table. The value of each part comes out at the part's place.
    pub fn close(self, pass: Pass<A, B, S, O>) -> Vec<Held<A, B>>
        requires table { pass.0 ≡ self }
        requires rests { pass.1.held ≡ [] }
        requires last { IsLast pass.1 }
        ensures { Closes (law_of (turns_of A.turns B.turns) (share_of A.share B.share) (IsOf A.origin) S.tie) pass.1 PARTS result.items }
    {
        let TurnTable { table, room } = self;
        let Pass {
            seat,
            number: _,
            made: _,
        } = pass;
        let closed = table.close_with(seat);
        let Room { values } = room.into_inner();
        move_home(closed, values)
    }
}
