//! The table, and how it begins.

ghost use Rattle.std.specs.Prelude.{◌≡◌, ℕ, ◌+◌, ◌<◌, ◌≤◌, List, [], Some, IfOk, IfErr, All, slice_get, slice_index, vec_len, vec_capacity};
ghost use Rattle.turn_table.specs.Passes.{Opens};
ghost use Rattle.turn_table.specs.declared.table.TheConstants.{PARTS, WORDS};
ghost use Rattle.turn_table.specs.Values.{AreZeros, slots_from};

use crate::held::Held;
use crate::pass::Pass;
use crate::plays::{Orderly, Slot};
use crate::view::View;
use atomic_table::{Refused, Table};
use histories::{Originated, Share, Turned};
use std::alloc::Global;
use std::marker::Model;
use std::snapshot::Snapshot;
use std::sync::Mutex;
use vfs_base::{NoMemory, ROWS};

/// The parts of a table: part 0 and one for each vnode slot.
pub const PARTS: usize = ROWS as usize + 1;

// The words of a table: a ticket word and a serving word for each part, and the stamp word.
pub(crate) const WORDS: usize = 2 * PARTS + 1;

pub(crate) const STAMP: usize = 2 * PARTS;

/// Parts that threads take in turn. A contract sees which table it is.
#[derive(Drop)]
pub struct TurnTable<A: Turned<S> + Originated<O>, B: Turned<S>, S: Share, O> {
    pub(crate) table: Table<Slot<A, B>, View<S, O>, Snapshot<A>, Orderly, Global>,
    // For the values when the table closes. The lock lets threads share it; none takes it.
    pub(crate) room: Mutex<Room<A, B>>,
}

impl<A: Turned<S> + Originated<O>, B: Turned<S>, S: Share, O> Model for TurnTable<A, B, S, O> {
    ghost use Rattle.std.specs.Prelude.{◌≡◌};
    ghost use Rattle.atomic_table.specs.Seated.{TableId, table_id_coded};
    ghost use Rattle.turn_table.specs.declared.table.TheConstants.{PARTS, WORDS};

    ghost Value = { TableId };

    ghost coded = { table_id_coded };

    ghost view = { λ t. t.table.shared.table_id };

    ghost invariant = { λ t. (t.table.shared.table_id.words ≡ WORDS) × (t.table.shared.table_id.slots ≡ PARTS) };
}

/// There was no memory. The values come back as they were handed in.
#[derive(Drop)]
pub struct NewRefused<A, B> {
    pub first: A,
    pub others: Vec<B>,
}

// An empty list with room for the value of each part.
#[derive(Drop)]
pub(crate) struct Room<A, B> {
    pub(crate) values: Vec<Held<A, B>>,
    ghost empty: { values.items ≡ [] },
    ghost roomy: { PARTS ≤ vec_capacity values },
}

// All the memory that a table takes beside its own: nothing has moved yet.
struct Reserved<A, B> {
    room: Room<A, B>,
    words: Vec<u64>,
    slots: Vec<Slot<A, B>>,
    ghost zeros: { AreZeros words.items WORDS },
    ghost empty: { slots.items ≡ [] },
    ghost roomy: { PARTS ≤ vec_capacity slots },
}

impl<A, B> Room<A, B> {
    fn new(alloc: Global) -> Result<Room<A, B>, NoMemory> {
        let values = Vec::with_capacity(alloc, PARTS)?;
        Ok(Room { values })
    }

    // Gives up the room.
    fn discard(self) {
        let Room { values } = self;
        values.destroy_empty();
    }
}

// So many words, each 0.
fn zeros(alloc: Global, count: usize) -> Result<Vec<u64>, NoMemory>
    ensures { IfOk result (λ words. AreZeros words.items count) }
{
    Ok(Vec::from_elem(alloc, 0u64, count)?)
}

impl<A, B> Reserved<A, B> {
    fn new(alloc: Global) -> Result<Reserved<A, B>, NoMemory> {
        let words = zeros(alloc, WORDS)?;
        let room = Room::new(alloc)?;
        let Ok(slots) = Vec::with_capacity(alloc, PARTS) else {
            room.discard();
            return Err(NoMemory);
        };
        Ok(Reserved { room, words, slots })
    }
}

// The value of part 0 in a slot.
fn first_in<A, B>(slot: Option<Slot<A, B>>) -> A
    requires { (first : A) × (slot ≡ Some (Some (Held.First first))) }
    ensures { slot ≡ Some (Some (Held.First result)) }
{
    let Some(Some(Held::First { value })) = slot else {
        unreachable!()
    };
    value
}

// The value of a row in a slot.
fn row_in<A, B>(slot: Slot<A, B>) -> B
    requires { (row : B) × (slot ≡ Some (Held.Row row)) }
    ensures { slot ≡ Some (Held.Row result) }
{
    let Some(Held::Row { value }) = slot else {
        unreachable!()
    };
    value
}

// Moves the values into slots, part 0's first.
fn move_in<A, B>(slots: &mut Vec<Slot<A, B>>, first: A, others: &mut Vec<B>)
    requires room { (slots.old.items ≡ []) × (vec_len others.old < vec_capacity slots.old) }
    ensures slots { slots.new.items ≡ slots_from first others.old.items }
    ensures others { (others.new.items ≡ []) × (vec_capacity others.new ≡ vec_capacity others.old) }
{
    while let Some(value) = others.pop() {
        slots.push_reserved(Some(Held::Row { value }));
    }
    slots.push_reserved(Some(Held::First { value: first }));
    slots.reverse();
}

// Moves the values out of the slots again.
fn move_out<A, B>(mut slots: Vec<Slot<A, B>>, others: &mut Vec<B>) -> A
    requires slots { (first : A) × (rows : List B) × (slots.items ≡ slots_from first rows) }
    requires room { (others.old.items ≡ []) × (vec_len slots ≤ vec_capacity others.old + 1) }
    ensures { slots.items ≡ slots_from result others.new.items }
{
    slots.reverse();
    let first = first_in(slots.pop());
    while let Some(slot) = slots.pop() {
        others.push_reserved(row_in(slot));
    }
    slots.destroy_empty();
    first
}

impl<A: Turned<S> + Originated<O>, B: Turned<S>, S: Share, O> TurnTable<A, B, S, O> {
    /// A table of these values, and its opening pass. No call has reached a value yet: it has no turn,
    /// and its share is that of a part without references.
    pub fn new(
        alloc: Global,
        first: A,
        others: Vec<B>,
    ) -> Result<(TurnTable<A, B, S, O>, Pass<A, B, S, O>), NewRefused<A, B>>
        requires count { vec_len others ≡ ROWS }
        requires first_turns { A.turns first ≡ [] }
        requires turns { All (λ value. B.turns value ≡ []) others.items }
        requires first_share { A.share first ≡ S.tie.nothing }
        requires shares { (row : ℕ) (value : B) → slice_get others.items row ≡ Some value → B.share value ≡ S.tie.rows (row + 1) S.tie.nothing }
        requires held_open { S.tie.held_open S.tie.nothing }
        ensures ok { IfOk result (λ made. (made.1.0 ≡ made.0) × Opens made.1.1 (Some (A.origin first))) }
        ensures err { IfErr result (λ refused. (refused.first ≡ first) × (refused.others.items ≡ others.items)) }
    {
        match Reserved::new(alloc) {
            Ok(reserved) => TurnTable::fill(alloc, reserved, first, others),
            Err(NoMemory) => Err(NewRefused { first, others }),
        }
    }

    // The table, in memory that was reserved.
    fn fill(
        alloc: Global,
        reserved: Reserved<A, B>,
        first: A,
        mut others: Vec<B>,
    ) -> Result<(TurnTable<A, B, S, O>, Pass<A, B, S, O>), NewRefused<A, B>>
        requires count { vec_len others ≡ ROWS }
        requires first_turns { A.turns first ≡ [] }
        requires turns { All (λ value. B.turns value ≡ []) others.items }
        requires first_share { A.share first ≡ S.tie.nothing }
        requires shares { (row : ℕ) (value : B) → slice_get others.items row ≡ Some value → B.share value ≡ S.tie.rows (row + 1) S.tie.nothing }
        requires held_open { S.tie.held_open S.tie.nothing }
        ensures ok { IfOk result (λ made. (made.1.0 ≡ made.0) × Opens made.1.1 (Some (A.origin first))) }
        ensures err { IfErr result (λ refused. (refused.first ≡ first) × (refused.others.items ≡ others.items)) }
    {
        let Reserved {
            room,
            words,
            mut slots,
        } = reserved;
        let began = Snapshot::of(&first);
        move_in(&mut slots, first, &mut others);
        match Table::new(alloc, words.as_slice(), slots, &began) {
            Ok((table, seat)) => {
                others.destroy_empty();
                let room = Mutex::new(room);
                let pass = Pass {
                    seat,
                    number: 0,
                    made: 0,
                };
                Ok((TurnTable { table, room }, pass))
            }
            Err(Refused { slots }) => {
                room.discard();
                let first = move_out(slots, &mut others);
                Err(NewRefused { first, others })
            }
        }
    }
}
