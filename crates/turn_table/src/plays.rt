//! The rule of the table, and what each step tells. These types are for the proofs alone.

ghost use Rattle.std.specs.Prelude.{Some};
ghost use Rattle.turn_table.specs.Moves.{draws, looks, leaves, fronts, merges, draws_stamp, opener, splitter, newcomer, joiner, nobody};
ghost use Rattle.turn_table.specs.Rule.{IsOrderly};
ghost use Rattle.turn_table.specs.declared.table.TheConstants.{PARTS};
ghost use Rattle.turn_table.specs.Values.{turns_of, share_of, IsOf, law_of};

use crate::called::Called;
use crate::held::Held;
use crate::view::View;
use atomic_table::{Play, TableRule};
use histories::{NamedShares, Originated, Share, Turned};
use std::marker::PhantomData;
use std::snapshot::Snapshot;

/// A slot of the table. It is empty while a pass holds its part.
pub type Slot<A, B> = Option<Held<A, B>>;

/// The rule. The table's key is the first value of part 0.
pub struct Orderly;

impl<A: Turned<S> + Originated<O>, B: Turned<S>, S: Share, O> TableRule<
    Slot<A, B>,
    View<S, O>,
    Snapshot<A>,
> for Orderly {
    ghost holds = { λ began. IsOrderly (law_of (turns_of A.turns B.turns) (share_of A.share B.share) (IsOf A.origin) S.tie) (Some (A.origin began.value)) PARTS };

    ghost first = { λ began. opener PARTS (Some (A.origin began.value)) };
}

/// A ticket is drawn.
pub struct Draw;

impl<A, B, S, O> Play<Slot<A, B>, View<S, O>> for Draw {
    ghost then = { draws };
}

/// It is looked whose turn it is.
pub struct Look;

impl<A: Turned<S> + Originated<O>, B: Turned<S>, S: Share, O> Play<Slot<A, B>, View<S, O>>
    for Look {
    ghost then = { looks (law_of (turns_of A.turns B.turns) (share_of A.share B.share) (IsOf A.origin) S.tie) };
}

/// A stamp is drawn.
pub struct Stamp<C, N> {
    marker: PhantomData<(C, N)>,
}

impl<A, B, S, O, C: Called, N: NamedShares<S>> Play<Slot<A, B>, View<S, O>> for Stamp<C, N> {
    ghost then = { draws_stamp C.asked C.outcome C.answer N.named };
}

/// A held part comes before the others that are held.
pub struct Front;

impl<A, B, S, O> Play<Slot<A, B>, View<S, O>> for Front {
    ghost then = { fronts };
}

/// What a joined pass has seen is seen.
pub struct Merge;

impl<A, B, S, O> Play<Slot<A, B>, View<S, O>> for Merge {
    ghost then = { merges };
}

/// A turn ends.
pub struct Leave;

impl<A: Turned<S> + Originated<O>, B: Turned<S>, S: Share, O> Play<Slot<A, B>, View<S, O>>
    for Leave {
    ghost then = { leaves (law_of (turns_of A.turns B.turns) (share_of A.share B.share) (IsOf A.origin) S.tie) };
}

/// A pass is split from the opening pass.
pub struct Split;

impl<S, O> atomic_table::Split<View<S, O>> for Split {
    ghost left = { splitter };

    ghost right = { newcomer };
}

/// A pass is joined into another.
pub struct Join;

impl<S, O> atomic_table::Join<View<S, O>> for Join {
    ghost both = { joiner };

    ghost spent = { nobody };
}
