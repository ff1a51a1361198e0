//! The room of a move: bare dentries along the path to which it goes, so that the move takes no memory.

ghost use Rattle.std.specs.Prelude.{◌≡◌, ◌≤◌, ◌↔◌, [], length, take, IsTrue, OnOk, OnErr};
ghost use Rattle.dentry_table.specs.DentryTable.{AreApart, count_at, HoldsBelow, HoldsNothingBelow, Moves, SameCounts};
ghost use Rattle.dentry_table.specs.Tidy.{IsTidy};

use crate::dentries::{clear, count_in, is_prefix, parent, prune};
use name_tree::NameTree;
use vfs_base::{Name, NoMemory};

// Dentries without holders come along the path, the room. Without memory for all, those that came go.
pub fn make_room(counts: &mut NameTree<u32>, room: &[Name]) -> Result<(), NoMemory>
    requires { IsTidy counts.old [] }
    ensures counts { SameCounts counts.old counts.new }
    ensures ok { OnOk result (IsTidy counts.new room.now) }
    ensures err { OnErr result (IsTidy counts.new []) }
{
    match counts.enter(room, 0) {
        Ok(()) => Ok(()),
        Err(fault) => {
            prune(counts, room, &[]);
            Err(fault)
        }
    }
}

// The dentries of the room go, but for those that are wanted.
pub fn give_back(counts: &mut NameTree<u32>, room: &[Name])
    requires { IsTidy counts.old room.now }
    ensures counts { SameCounts counts.old counts.new }
    ensures tidy { IsTidy counts.new [] }
{
    prune(counts, room, &[]);
}

// What is held at and below the path is held at and below the room. Answers how many holders the room's
// path had, which go.
pub fn fill_room(counts: &mut NameTree<u32>, from: &[Name], room: &[Name]) -> u32
    requires tidy { IsTidy counts.old room.now }
    requires apart { AreApart from.now room.now }
    requires below { HoldsNothingBelow counts.old room.now }
    ensures count { result ≡ count_at counts.old room.now }
    ensures moves { Moves counts.old counts.new from.now room.now }
    ensures tidy { IsTidy counts.new room.now }
{
    match counts.find(from) {
        Some(_) => {
            let count = counts.replace(from, room);
            prune(counts, parent(from), room);
            count
        }
        None => clear(counts, room, room),
    }
}

// Whether a path below this one has a holder. No path is walked along but this one and the room.
pub fn holds_below(counts: &NameTree<u32>, path: &[Name], room: &[Name]) -> bool
    requires { IsTidy counts.now room.now }
    ensures { IsTrue result ↔ HoldsBelow counts.now path.now }
{
    if is_prefix(path, room) {
        holds_behind(counts, room, path.len())
    } else {
        counts.has_below(path)
    }
}

// Whether a path below so many first names of the room has a holder.
fn holds_behind(counts: &NameTree<u32>, room: &[Name], len: usize) -> bool
    requires tidy { IsTidy counts.now room.now }
    requires len { len ≤ length room.now }
    ensures { IsTrue result ↔ HoldsBelow counts.now (take len room.now) }
{
    if len == room.len() {
        return counts.has_below(room);
    }
    if counts.has_beside(&room[..len], &room[len]) {
        return true;
    }
    count_in(counts, &room[..len + 1]) != 0 || holds_behind(counts, room, len + 1)
}
