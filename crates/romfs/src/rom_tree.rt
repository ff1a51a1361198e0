//! The tree of a rom.

ghost use Rattle.std.specs.Prelude.{◌≡◌, ◌≤◌, length, option_map, slice_get};
ghost use Rattle.std.specs.List.Sorted.{IsBinarySearchResult, IsSearchInRange};
ghost use Rattle.std.specs.Option.{option_and_then, option_copied};
ghost use Rattle.vfs_base.specs.Path.{path_cmp};
ghost use Rattle.vfs_model.specs.Rom.{item_at, IsRom};
ghost use Rattle.romfs.specs.RomTree.{node_of};

use std::marker::Model;
use vfs_base::{Bytes, List, Path};

/// What stands at a path of a rom.
#[derive(Clone, Copy, Debug, PartialEq, Eq)]
pub enum RomNode {
    Dir,
    /// A file of so many bytes.
    File { size: u64 },
}

// A path, and the bytes of the file that stands there; a folder has none.
pub(crate) type Item = (Path, Option<Bytes>);

/// A read-only tree of folders and files: what a manifest can mean.
///
/// Each folder that a path leads through is a path of it too, but for the root, which is none.
#[derive(Debug, Drop)]
pub struct RomTree {
    items: List<Item>,
}

impl Model for RomTree {
    ghost use Rattle.vfs_model.specs.Rom.{IsRom, RomItems};

    ghost Value = { RomItems };

    ghost view = { λ tree. tree.items };

    ghost invariant = { λ tree. IsRom tree.items };
}

impl RomTree {
    pub(crate) fn from_items(items: List<Item>) -> RomTree
        requires { IsRom items }
        ensures { result ≡ items }
    {
        RomTree { items }
    }

    pub(crate) fn items(&self) -> &[Item]
        ensures items { result.now ≡ self.now }
        ensures is_rom { IsRom self.now }
    {
        self.items.as_slice()
    }

    /// The number of paths, at most `NODES`.
    pub fn len(&self) -> usize
        ensures value { result ≡ length self.now }
        ensures most { result ≤ 4096 }
    {
        self.items.len()
    }

    /// What stands at the path, or `None` where nothing does. The root is no path of a rom.
    pub fn find(&self, path: &Path) -> Option<RomNode>
        ensures node { result ≡ option_map node_of (item_at self.now path.now) }
        ensures is_rom { IsRom self.now }
    {
        let items = self.items.as_slice();
        match place_of(items, path) {
            Ok(place) => Some(node_of(&items[place].1)),
            Err(_) => None,
        }
    }

    /// The path at this place, from 0, in the byte order of all paths; `None` from their number on.
    pub fn path_at(&self, place: usize) -> Option<&Path>
        ensures { option_copied result ≡ option_map (λ item. item.0) (slice_get self.now place) }
    {
        let item = self.items.as_slice().get(place)?;
        Some(&item.0)
    }

    /// The bytes of the file whose path is at this place, from 0, in the byte order of all paths;
    /// `None` for a folder, and from the number of paths on.
    pub fn bytes_at(&self, place: usize) -> Option<&Bytes>
        ensures { option_copied result
            ≡ option_and_then (λ item. item.1) (slice_get self.now place) }
    {
        let item = self.items.as_slice().get(place)?;
        item.1.as_ref()
    }
}

// The place of the path among the items, or where it would stand.
fn place_of(items: &[Item], path: &Path) -> Result<usize, usize>
    ensures bound { IsSearchInRange result (length items.now) }
    ensures place { IsBinarySearchResult (λ item. path_cmp item.0 path.now) items.now result }
{
    items.binary_search_by(|item| item.0.cmp(path))
}

fn node_of(bytes: &Option<Bytes>) -> RomNode
    ensures { result ≡ node_of bytes.now }
{
    match bytes {
        None => RomNode::Dir,
        Some(bytes) => RomNode::File {
            size: bytes.len() as u64,
        },
    }
}
