//! A turn: a part is taken, a stamp is drawn, the part is put back.

ghost use Rattle.std.specs.Prelude.{◌≡◌, ◌≢◌, ℕ, ◌+◌, ◌^◌, ◌<◌, ◌≤◌, ◌++◌, ◌∷◌, [], length, Some, None, true, false, List, All};
ghost use Rattle.atomic_table.specs.Table.{rest};
ghost use Rattle.turn_table.specs.Moves.{Enters, IsAtRest, StampedBy, entry_of, leaver, slots_of, turner, waiter};
ghost use Rattle.turn_table.specs.Stamps.{IsTied, Stamps};
ghost use Rattle.turn_table.specs.Takes.{Puts, Takes};
ghost use Rattle.turn_table.specs.Values.{turns_of, share_of, IsOf, law_of};
ghost use Rattle.turn_table.specs.Views.{HoldsBelow, IsFresh, fronted, is_held, seen_of, share_held, without};
ghost use Rattle.histories.specs.Turns.{entries};
ghost use Rattle.turn_table.specs.declared.view.Ticket.{Ticket};

use crate::called::Called;
use crate::held::Held;
use crate::pass::Pass;
use crate::plays::{Draw, Front, Leave, Look, Slot, Stamp};
use crate::table::{PARTS, STAMP, TurnTable};
use crate::view::View;
use atomic_table::Seat;
use crossbeam_utils::Backoff;
use histories::{NamedShares, Originated, Share, Turned};
use std::marker::Brand;
use std::sync::Wait;
use std::thread;
use vfs_base::{Mark, ROWS, Reply, Step};

// A ticket or a stamp from here on isn't used, so that no word wraps.
const LAST: u64 = 1 << 63;

// Waits for good.
fn never<R: Wait>(rt: &R) -> ! {
    for _ in rt.forever() {
        thread::yield_now();
    }
    unreachable!()
}

impl<A: Turned<S> + Originated<O>, B: Turned<S>, S: Share, O> TurnTable<A, B, S, O> {
    /// Waits until it is the pass's turn at the part, and takes out the part's value.
    ///
    /// Turns at a part go by tickets, in the order in which they were drawn. Parts are taken in the order
    /// of their numbers. It may wait for good: for a pass that never puts the part back.
    pub fn take<R: Wait>(&self, rt: &R, pass: &mut Pass<A, B, S, O>, part: u16) -> Held<A, B>
        requires table { pass.old.0 ≡ self.now }
        requires part { part ≤ ROWS }
        requires below { HoldsBelow pass.old.1 part }
        requires fresh { IsFresh pass.old.1 }
        ensures table { pass.new.0 ≡ pass.old.0 }
        ensures kind { IsOf A.origin pass.old.1.origin part result }
        ensures takes { Takes S.tie pass.old.1 pass.new.1 part (turns_of A.turns B.turns result) (share_of A.share B.share result) }
    {
        let part = part as usize;
        let number = self.draw(&mut pass.seat, part);
        self.wait(rt, &mut pass.seat, part, number);
        self.take_out(&mut pass.seat, part)
    }

    /// Draws the stamp of a step that the pass takes on the parts that it holds.
    ///
    /// The turn in which each of these parts is put back has the entry of this pass, step, mark, reply
    /// and stamp. `N` names the share that each part will have, by the stamp.
    pub fn stamp<N: NamedShares<S>, R: Wait>(
        &self,
        rt: &R,
        pass: &mut Pass<A, B, S, O>,
        step: &Step,
        mark: Mark,
        reply: &Reply,
    ) -> u64
        requires table { pass.old.0 ≡ self.now }
        requires holds { 0 < length pass.old.1.held }
        requires fresh { pass.old.1.stamped ≡ None }
        requires tied { (stamp : ℕ) → stamp < 2 ^ 64 → IsTied S.tie pass.old.1 (entry_of stamp pass.old.1.number step.now mark reply.now) (N.named stamp) }
        ensures table { pass.new.0 ≡ pass.old.0 }
        ensures used { result < 2 ^ 63 }
        ensures stamps { Stamps pass.old.1 pass.new.1 (entry_of result pass.old.1.number step.now mark reply.now) (N.named result) }
    {
        let stamp = self.draw_stamp::<Brand, N>(&mut pass.seat, step, mark, reply);
        if stamp >= LAST {
            never(rt);
        }
        stamp
    }

    /// Puts back the value of a part that the pass holds, with one turn more, and ends the pass's turn.
    pub fn put_back(&self, pass: &mut Pass<A, B, S, O>, part: u16, value: Held<A, B>)
        requires table { pass.old.0 ≡ self.now }
        requires kind { IsOf A.origin pass.old.1.origin part value }
        requires turns { turns_of A.turns B.turns value ≡ seen_of pass.old.1 part ++ pass.old.1.stamped ∷ [] }
        requires share { share_held pass.old.1 part ≡ Some (share_of A.share B.share value) }
        ensures table { pass.new.0 ≡ pass.old.0 }
        ensures puts { Puts pass.old.1 pass.new.1 part (turns_of A.turns B.turns value) }
    {
        let part = part as usize;
        self.bring_to_front(&mut pass.seat, part);
        let served = self.leave(&mut pass.seat, part, value);
        if self.table.shared.peek(part) != served.wrapping_add(1) {
            self.table.shared.wake_all(PARTS + part);
        }
    }

    // Draws the next ticket of the part.
    fn draw(&self, seat: &mut Seat<Slot<A, B>, View<S, O>>, part: usize) -> u64
        requires table { seat.old.table_id ≡ self.now }
        requires part { part < PARTS }
        requires rests { IsAtRest PARTS seat.old.me }
        requires free { is_held part seat.old.me.0.held ≡ false }
        requires fresh { IsFresh seat.old.me.0 }
        ensures table { seat.new.table_id ≡ seat.old.table_id }
        ensures waits { (seat.new.me.0 ≡ waiter seat.old.me.0 part result) × (seat.new.me.1 ≡ seat.old.me.1) }
    {
        self.table.shared.fetch_add::<Draw>(seat, part, 1)
    }

    // Looks whose turn it is. The answer is the ticket that has the turn.
    fn look(&self, seat: &mut Seat<Slot<A, B>, View<S, O>>, part: usize, number: u64) -> u64
        requires table { seat.old.table_id ≡ self.now }
        requires part { part < PARTS }
        requires number { number < 2 ^ 63 }
        requires waits { seat.old.me.0.waits ≡ Some (record { part = part; number = number }) }
        requires plain { (seat.old.me.0.spent ≡ false) × (seat.old.me.0.stamped ≡ None) }
        ensures table { seat.new.table_id ≡ seat.old.table_id }
        ensures turn { result ≡ number → Enters (law_of (turns_of A.turns B.turns) (share_of A.share B.share) (IsOf A.origin) S.tie) seat.old.me seat.new.me part number }
        ensures early { result ≢ number → seat.new.me ≡ seat.old.me }
    {
        self.table.shared.load::<Look>(seat, PARTS + part)
    }

    // Waits for the turn of the ticket: it looks again, more and more seldom, and then sleeps until a turn ends.
    fn wait<R: Wait>(
        &self,
        rt: &R,
        seat: &mut Seat<Slot<A, B>, View<S, O>>,
        part: usize,
        number: u64,
    )
        requires table { seat.old.table_id ≡ self.now }
        requires part { part < PARTS }
        requires waits { seat.old.me.0.waits ≡ Some (record { part = part; number = number }) }
        requires plain { (seat.old.me.0.spent ≡ false) × (seat.old.me.0.stamped ≡ None) }
        ensures table { seat.new.table_id ≡ seat.old.table_id }
        ensures turn { Enters (law_of (turns_of A.turns B.turns) (share_of A.share B.share) (IsOf A.origin) S.tie) seat.old.me seat.new.me part number }
    {
        if number >= LAST {
            never(rt);
        }
        let backoff = Backoff::new();
        for _ in rt.forever() {
            let serving = self.look(seat, part, number);
            if serving == number {
                return;
            }
            if backoff.is_completed() {
                let low = (serving & 0xffff_ffff) as u32;
                self.table.shared.park(rt, PARTS + part, low);
            } else {
                backoff.snooze();
            }
        }
        unreachable!()
    }

    // Moves the value out of the slot of the part that was taken last.
    fn take_out(&self, seat: &mut Seat<Slot<A, B>, View<S, O>>, part: usize) -> Held<A, B>
        requires table { seat.old.table_id ≡ self.now }
        requires full { (value : Held A B) × (seat.old.me.1 ≡ (part, Some value) ∷ rest seat.old.me.1) }
        ensures table { seat.new.table_id ≡ seat.old.table_id }
        ensures value { seat.old.me.1 ≡ (part, Some result) ∷ rest seat.old.me.1 }
        ensures empty { (seat.new.me.0 ≡ seat.old.me.0) × (seat.new.me.1 ≡ (part, None) ∷ rest seat.old.me.1) }
    {
        self.table.shared.exchange(seat, part, None).unwrap()
    }

    // Draws the next stamp, for the step that `C` names.
    fn draw_stamp<C: Called, N: NamedShares<S>>(
        &self,
        seat: &mut Seat<Slot<A, B>, View<S, O>>,
        _step: &Step,
        _mark: Mark,
        _reply: &Reply,
    ) -> u64
        requires table { seat.old.table_id ≡ self.now }
        requires rests { IsAtRest PARTS seat.old.me }
        requires fresh { seat.old.me.0.stamped ≡ None }
        requires tied { (stamp : ℕ) → stamp < 2 ^ 64 → IsTied S.tie seat.old.me.0 (entry_of stamp seat.old.me.0.number C.asked C.outcome C.answer) (N.named stamp) }
        ensures table { seat.new.table_id ≡ seat.old.table_id }
        ensures stamped { StampedBy seat.old.me seat.new.me (entry_of result seat.old.me.0.number C.asked C.outcome C.answer) (N.named result) }
        ensures later { (other : ℕ) → All (λ earlier. earlier.stamp < result) (entries (seen_of seat.old.me.0 other)) }
    {
        self.table.shared.fetch_add::<Stamp<C, N>>(seat, STAMP, 1)
    }

    // Brings the slot of a part that is held before the others.
    fn bring_to_front(&self, seat: &mut Seat<Slot<A, B>, View<S, O>>, part: usize)
        requires table { seat.old.table_id ≡ self.now }
        requires part { part < PARTS }
        requires rests { IsAtRest PARTS seat.old.me }
        requires held { is_held part seat.old.me.0.held ≡ true }
        ensures table { seat.new.table_id ≡ seat.old.table_id }
        ensures front { (seat.new.me.0 ≡ turner seat.old.me.0 part) × (seat.new.me.1 ≡ slots_of (fronted part seat.old.me.0.held)) }
    {
        self.table.shared.load::<Front>(seat, PARTS + part);
    }

    // Moves the value into the slot of the part, which comes before the others, and ends the turn.
    // The answer is the ticket that had the turn.
    fn leave(&self, seat: &mut Seat<Slot<A, B>, View<S, O>>, part: usize, value: Held<A, B>) -> u64
        requires table { seat.old.table_id ≡ self.now }
        requires part { part < PARTS }
        requires rests { IsAtRest PARTS seat.old.me }
        requires first { (ticket : Ticket S) × (seat.old.me.0.held ≡ ticket ∷ without part seat.old.me.0.held) × (ticket.part ≡ part) }
        requires kind { IsOf A.origin seat.old.me.0.origin part value }
        requires turns { turns_of A.turns B.turns value ≡ seen_of seat.old.me.0 part ++ seat.old.me.0.stamped ∷ [] }
        requires share { share_held seat.old.me.0 part ≡ Some (share_of A.share B.share value) }
        ensures table { seat.new.table_id ≡ seat.old.table_id }
        ensures left { (seat.new.me.0 ≡ leaver seat.old.me.0 part (turns_of A.turns B.turns value)) × (seat.new.me.1 ≡ rest seat.old.me.1) }
        ensures here { seen_of seat.new.me.0 part ≡ turns_of A.turns B.turns value }
    {
        match self.table.shared.exchange(seat, part, Some(value)) {
            None => {}
            Some(_) => unreachable!(),
        }
        self.table.shared.fetch_add::<Leave>(seat, PARTS + part, 1)
    }
}
