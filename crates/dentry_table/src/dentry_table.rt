//! The numbers of holders by path.

ghost use Rattle.std.specs.Prelude.{◌≡◌, ◌≢◌, ◌<◌, ◌-◌, ◌^◌, ◌↔◌, IsTrue, [], length, IfOk, OnOk, OnErr};
ghost use Rattle.dentry_table.specs.DentryTable.{AreApart, count_at, HasRoom, held, HoldsBelow, HoldsNothing, HoldsNothingBelow, Lowers, Moves, Raises, SameCounts, Takes};

use crate::dentries::{clear, count_in, keep_held, lower, raise};
use crate::move_plan::MovePlan;
use crate::room::{fill_room, give_back, holds_below, make_room};
use name_tree::NameTree;
use std::alloc::Global;
use std::marker::Model;
use vfs_base::{List, Name, NoMemory, Path};

/// How many holders each path has.
///
/// A call that wants memory and gets none leaves each number as it was.
#[derive(Drop)]
pub struct DentryTable {
    alloc: Global,
    // The numbers of holders at the paths that have any, at each path above one, at the root, and
    // along the room.
    counts: NameTree<u32>,
    // The path to which a planned move goes, or the root.
    room: Path,
}

impl Model for DentryTable {
    ghost use Rattle.dentry_table.specs.DentryTable.{Dentries};
    ghost use Rattle.dentry_table.specs.Tidy.{IsTidy};

    ghost Value = { Dentries };

    ghost view = { λ table. record { counts = table.counts; room = table.room } };

    ghost invariant = { λ table. IsTidy table.counts table.room };
}

impl DentryTable {
    /// No path has a holder.
    pub fn new(alloc: Global) -> Result<DentryTable, NoMemory>
        ensures counts { IfOk result (λ table. HoldsNothing table.counts) }
        ensures plan { IfOk result (λ table. table.room ≡ []) }
    {
        let counts = NameTree::new(alloc, 0)?;
        Ok(DentryTable {
            alloc,
            counts,
            room: Path::root(alloc),
        })
    }

    /// How many holders the path has.
    pub fn count(&self, path: &[Name]) -> u32
        ensures { result ≡ count_at self.now.counts path.now }
    {
        count_in(&self.counts, path)
    }

    /// One holder of the path more. Where it has one already, no memory is wanted.
    pub fn hold(&mut self, path: &[Name]) -> Result<(), NoMemory>
        requires room { count_at self.old.counts path.now < 2 ^ 32 - 1 }
        ensures ok { OnOk result (Raises self.old.counts self.new.counts path.now) }
        ensures err { OnErr result (SameCounts self.old.counts self.new.counts) }
        ensures held { OnErr result (count_at self.old.counts path.now ≡ 0) }
        ensures plan { self.new.room ≡ self.old.room }
    {
        raise(&mut self.counts, path, self.room.as_names())
    }

    /// One holder of the path less. No memory is wanted.
    pub fn release(&mut self, path: &[Name])
        requires { count_at self.old.counts path.now ≢ 0 }
        ensures counts { Lowers self.old.counts self.new.counts path.now }
        ensures plan { self.new.room ≡ self.old.room }
    {
        lower(&mut self.counts, path, self.room.as_names());
    }

    /// Takes all holders of the path off, and answers how many there were. No memory is wanted.
    pub fn dropped(&mut self, path: &[Name]) -> u32
        ensures count { result ≡ count_at self.old.counts path.now }
        ensures taken { Takes self.old.counts self.new.counts path.now }
        ensures plan { self.new.room ≡ self.old.room }
    {
        clear(&mut self.counts, path, self.room.as_names())
    }

    /// The paths that have holders, each with their number, in the order of paths.
    pub fn list(&self) -> Result<List<(Path, u32)>, NoMemory>
        ensures { IfOk result (λ list. list ≡ held self.now.counts) }
    {
        let mut list = self.counts.entries()?;
        keep_held(&mut list);
        Ok(list)
    }

    /// Whether a path below this one has a holder. Nothing below it is walked over but the way of a
    /// planned move.
    pub fn held_below(&self, path: &[Name]) -> bool
        ensures { IsTrue result ↔ HoldsBelow self.now.counts path.now }
    {
        holds_below(&self.counts, path, self.room.as_names())
    }
}

impl DentryTable {
    /// Takes the room of a move of all that is held at and below one path to another. There is room
    /// for one move at a time: an earlier plan is given up. Nothing that is held changes.
    pub fn plan_move(&mut self, from: &Path, to: &Path) -> Result<MovePlan, NoMemory>
        requires { AreApart from.now to.now }
        ensures ok { IfOk result (λ plan. plan ≡ record { from = from.now; to = to.now }) }
        ensures plan { IfOk result (λ plan. HasRoom self.new plan) }
        ensures err { OnErr result (self.new.room ≡ []) }
        ensures same { SameCounts self.old.counts self.new.counts }
    {
        self.give_up();
        let room = to.copy()?;
        let plan = MovePlan::new(from, to)?;
        self.make_room(room)?;
        Ok(plan)
    }

    /// What was held at and below the plan's first path is held at and below its second from now on.
    /// Holders that the second had are taken off, and their number is answered. No memory is wanted.
    pub fn moved(&mut self, plan: MovePlan) -> u32
        requires plan { HasRoom self.old plan }
        requires below { HoldsNothingBelow self.old.counts plan.to }
        ensures count { result ≡ count_at self.old.counts plan.to }
        ensures moves { Moves self.old.counts self.new.counts plan.from plan.to }
        ensures plan { self.new.room ≡ [] }
    {
        let count = fill_room(&mut self.counts, plan.from(), self.room.as_names());
        self.give_up();
        count
    }

    /// Gives the room of a move back. Nothing that is held changes, and no memory is wanted.
    pub fn cancel_move(&mut self, plan: MovePlan)
        requires { HasRoom self.old plan }
        ensures same { SameCounts self.old.counts self.new.counts }
        ensures plan { self.new.room ≡ [] }
    {
        drop(plan);
        self.give_up();
    }

    // There is no room any more.
    fn give_up(&mut self)
        ensures same { SameCounts self.old.counts self.new.counts }
        ensures plan { self.new.room ≡ [] }
    {
        give_back(&mut self.counts, self.room.as_names());
        self.room = Path::root(self.alloc);
    }

    // There is room for a move to this path.
    fn make_room(&mut self, room: Path) -> Result<(), NoMemory>
        requires { self.old.room ≡ [] }
        ensures same { SameCounts self.old.counts self.new.counts }
        ensures ok { OnOk result (self.new.room ≡ room) }
        ensures err { OnErr result (self.new.room ≡ []) }
    {
        make_room(&mut self.counts, room.as_names())?;
        self.room = room;
        Ok(())
    }
}
