ghost use Rattle.std.specs.Prelude.{◌≡◌, ℕ, [], ◌∷◌, ◌++◌, ◌↔◌, length, take, nat_eq, IsTrue, IfOk, IfNone, IfSome, OnOk, OnErr};
ghost use Rattle.std.specs.Cmp.{partial_equiv_from_equiv, po};
ghost use Rattle.std.specs.Cmp.Lexicographic.{pointwise, slice_cmp};
ghost use Rattle.std.specs.Ordering.{as_partial_cmp, nat_cmp};
ghost use Rattle.std.proofs.Common.{refl};
ghost use Rattle.vfs_base.specs.Path.{IsPath, printed, slashed, path_cmp};
ghost use Rattle.vfs_base.specs.PathLaws.{path_equiv, path_cmp_total, path_ties};

use crate::list::{Bytes, List};
use crate::name::Name;
use crate::no_memory::NoMemory;
use std::alloc::Global;
use std::cmp::Ordering;
use std::marker::Model;

/// The place of an entry: the names that lead to it from the root.
///
/// Paths stand in the order of their printed bytes, so `/a-b` stands before `/a/b`.
#[derive(Clone, Debug, Drop)]
pub struct Path {
    names: List<Name>,
}

impl Model for Path {
    ghost use Rattle.std.specs.Prelude.{ℕ, List};
    ghost use Rattle.vfs_base.specs.Path.{IsPath};

    ghost Value = { List (List ℕ) };

    ghost view = { λ path. path.names };

    ghost invariant = { λ path. IsPath path.names };
}

impl Path {
    /// The path of no name, which takes no memory yet.
    pub fn root(alloc: Global) -> Path
        ensures { result ≡ [] }
    {
        Path {
            names: List::new(alloc),
        }
    }

    pub fn as_names(&self) -> &[Name]
        ensures value { result.now ≡ self.now }
        ensures is_path { IsPath self.now }
    {
        self.names.as_slice()
    }

    /// How many names lead from the root to the entry.
    pub fn len(&self) -> usize
        ensures { result ≡ length self.now }
    {
        self.names.len()
    }

    pub fn is_root(&self) -> bool
        ensures { IsTrue result ↔ (self.now ≡ []) }
    {
        self.names.is_empty()
    }

    /// Goes down to the entry of this name. Where there is no memory, the name is dropped.
    pub fn push(&mut self, name: Name) -> Result<(), NoMemory>
        ensures ok { OnOk result (self.new ≡ self.old ++ name ∷ []) }
        ensures err { OnErr result (self.new ≡ self.old) }
    {
        // What the path promises of the name is known only from a call of the name's.
        let _bytes = name.as_bytes();
        self.names.push(name)
    }

    /// Goes up to the root.
    pub fn clear(&mut self)
        ensures { self.new ≡ [] }
    {
        self.names.clear();
    }

    /// Goes up to the parent and answers the name left behind, or `None` at the root.
    pub fn pop(&mut self) -> Option<Name>
        ensures some { IfSome result (λ name. self.old ≡ self.new ++ name ∷ []) }
        ensures none { IfNone result ((self.old ≡ []) × (self.new ≡ [])) }
    {
        self.names.pop()
    }

    /// The same path in memory of its own.
    pub fn copy(&self) -> Result<Path, NoMemory>
        ensures { IfOk result (λ path. path ≡ self.now) }
    {
        Ok(self.clone()?)
    }

    /// The printed form: a slash before each name, and of the root one slash.
    pub fn print(&self, alloc: Global) -> Result<Bytes, NoMemory>
        ensures { IfOk result (λ text. text ≡ printed self.now) }
    {
        let mut text = Bytes::new(alloc);
        push_printed(&mut text, self)?;
        Ok(text)
    }
}

/// Puts the printed form of the path at the end of `out`.
pub fn push_printed(out: &mut Bytes, path: &Path) -> Result<(), NoMemory>
    ensures ok { OnOk result (out.new ≡ out.old ++ printed path.now) }
    ensures err { OnErr result (out.new ≡ out.old) }
{
    if path.is_root() {
        return out.push(b'/');
    }
    let before = out.len();
    let pushed = push_slashed(out, path.as_names());
    if pushed.is_err() {
        out.truncate(before);
    }
    pushed
}

// Puts a slash and a name at the end for each of the names. At an error a part of them stays there.
fn push_slashed(out: &mut Bytes, names: &[Name]) -> Result<(), NoMemory>
    ensures ok { OnOk result (out.new ≡ out.old ++ slashed names.now) }
    ensures err { OnErr result (take (length out.old) out.new ≡ out.old) }
{
    for name in names {
        out.push(b'/')?;
        out.extend_from_slice(name.as_bytes())?;
    }
    Ok(())
}

impl PartialEq for Path {
    ghost eq = { pointwise (pointwise nat_eq) };

    ghost laws = { partial_equiv_from_equiv path_equiv };

    fn eq(&self, other: &Path) -> bool
        ensures value { result ≡ pointwise (pointwise nat_eq) self.now other.now }
        ensures same { IsTrue result ↔ (self.now ≡ other.now) }
    {
        self.names == other.names
    }
}

impl Eq for Path {
    ghost laws = { path_equiv };
}

impl PartialOrd for Path {
    ghost partial_cmp = { as_partial_cmp path_cmp };

    ghost laws = { po path_cmp_total path_ties };

    fn partial_cmp(&self, other: &Path) -> Option<Ordering> {
        Some(self.cmp(other))
    }
}

impl Ord for Path {
    ghost cmp = { path_cmp };

    ghost total = { path_cmp_total };

    ghost matches_partial_cmp = { λ x y. refl };

    ghost matches_eq = { path_ties };

    #[tactic(auto, using(crate::proofs::PrintedAlone::slashed_alone))]
    fn cmp(&self, other: &Path) -> Ordering {
        slashed_order(self.as_names(), other.as_names())
    }
}

// The order of the printed paths, but for the slash of the root, which decides nothing.
fn slashed_order(p: &[Name], q: &[Name]) -> Ordering
    ensures { result ≡ slice_cmp nat_cmp (slashed p.now) (slashed q.now) }
{
    let mut left = Unread {
        name: &[],
        names: p,
    };
    let mut right = Unread {
        name: &[],
        names: q,
    };
    while let Some(a) = left.next() {
        let Some(b) = right.next() else {
            return Ordering::Greater;
        };
        if a != b {
            return a.cmp(&b);
        }
    }
    match right.next() {
        None => Ordering::Equal,
        Some(_) => Ordering::Less,
    }
}

// What is left to read of a printed path: the rest of one name, then the names behind it.
#[derive(Drop)]
struct Unread<'a> {
    name: &'a [u8],
    names: &'a [Name],
}

impl Iterator for Unread<'_> {
    ghost use Rattle.std.specs.Iterator.{YieldsFirst, item_count};
    ghost use Rattle.vfs_base.specs.Unread.{unread_bytes};

    type Item = u8;

    ghost next_gives = { YieldsFirst unread_bytes };

    ghost remaining = { item_count unread_bytes };

    fn next(&mut self) -> Option<u8> {
        if let [byte, name @ ..] = self.name {
            self.name = name;
            return Some(*byte);
        }
        let (name, names) = self.names.split_first()?;
        self.name = name.as_bytes();
        self.names = names;
        Some(b'/')
    }
}
