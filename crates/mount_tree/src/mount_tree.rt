//! The tree of mounts.

ghost use Rattle.std.specs.Prelude.{◌≡◌, [], ◌≢◌, ◌≤◌, ◌==◌, ◌↔◌, Some, Err, true, false, is_some, length, nat_le, not, option_map, slice_get, IfOk, OnErr};
ghost use Rattle.std.specs.Option.{option_copied};
ghost use Rattle.vfs_base.specs.declared.limits.TheConstants.{MOUNTS};
ghost use Rattle.vfs_model.specs.Lookup.{is_prefix};
ghost use Rattle.vfs_model.specs.Namespace.{root_mount};
ghost use Rattle.mount_tree.specs.MountList.{AreMounts, covering, has_number, has_point, has_point_below, least_free_number, mount_at, mount_numbered, mounts_of, with_mount, without_mount};
ghost use Rattle.mount_tree.specs.declared.mount_fault.MountFault.TheVariants as fault;

use crate::mount_fault::MountFault;
use crate::mounts::{
    drop_numbered, find_at, find_numbered, has_number, has_point_below, is_at, is_below,
    is_numbered, nearest,
};
use std::alloc::Global;
use std::marker::Model;
use vfs_base::{Bytes, FsType, List, MOUNTS, MountId, Name, NoMemory, Path};
use vfs_model::Mount;

/// The mounts: that of `/`, which stays, and up to 15 others.
///
/// Memory is taken by `new` and by `add` alone.
#[derive(Debug, Drop)]
pub struct MountTree {
    root: Mount,
    // The other mounts, in the order of mounting.
    others: List<Mount>,
}

impl Model for MountTree {
    ghost use Rattle.mount_tree.specs.MountList.{AreMounts, MountList};

    ghost Value = { MountList };

    ghost view = { λ tree. record { root = tree.root; others = tree.others } };

    ghost invariant = { λ tree. AreMounts (record { root = tree.root; others = tree.others }) };
}

impl MountTree {
    /// The mount of `/` alone: number 0, in memory, with the source word `none`.
    pub fn new(alloc: Global) -> Result<MountTree, NoMemory>
        ensures { IfOk result (λ tree. tree ≡ record { root = root_mount; others = [] }) }
    {
        let root = Mount {
            number: MountId::ROOT,
            point: Path::root(alloc),
            fs: FsType::Tmp,
            source: Bytes::from_slice(alloc, b"none")?,
        };
        Ok(MountTree {
            root,
            others: List::new(alloc),
        })
    }

    /// Whether all 16 numbers are used, so that no mount can be added.
    pub fn is_full(&self) -> bool
        ensures full { result ≡ nat_le MOUNTS (length (mounts_of self.now)) }
        ensures sound { AreMounts self.now }
    {
        MOUNTS - 1 <= self.others.len()
    }

    /// Adds a mount at a point that no mount has. It comes last in the order of mounting, and its
    /// number, which is answered, is the least that no mount has.
    ///
    /// # Errors
    /// `Full` exactly where there are 16 mounts, and `NoMemory`. The point and the source are dropped.
    pub fn add(&mut self, point: Path, fs: FsType, source: Bytes) -> Result<MountId, MountFault>
        requires { has_point self.old point ≡ false }
        ensures mount { IfOk result (λ number.
            self.new ≡ with_mount self.old (record { number = number; point = point; fs = fs; source = source })) }
        ensures number { IfOk result (λ number. number ≡ least_free_number self.old) }
        ensures full { (result ≡ Err fault.Full) ↔ (length (mounts_of self.old) ≡ MOUNTS) }
        ensures refused { OnErr result (self.new ≡ self.old) }
    {
        if self.is_full() {
            return Err(MountFault::Full);
        }
        let number = free_number(&self.root, self.others.as_slice());
        self.others.push(Mount {
            number,
            point,
            fs,
            source,
        })?;
        Ok(number)
    }

    /// Takes a mount away that is there and is not that of `/`. The others stay in their order.
    pub fn remove(&mut self, id: MountId)
        requires there { has_number self.old id ≡ true }
        requires not_root { id ≢ 0 }
        ensures { self.new ≡ without_mount self.old id }
    {
        drop_numbered(&mut self.others, id.number());
    }

    /// The mount with the longest point that is a prefix of the path.
    pub fn under(&self, path: &[Name]) -> &Mount
        ensures mount { result.now ≡ covering self.now path.now }
        ensures prefix { is_prefix result.now.point path.now ≡ true }
        ensures there { has_number self.now result.now.number ≡ true }
        ensures sound { AreMounts self.now }
    {
        nearest(&self.root, self.others.as_slice(), path)
    }

    /// The number of the mount at this point; `None` exactly where it is no point.
    pub fn is_point(&self, path: &[Name]) -> Option<MountId>
        ensures mount { result ≡ option_map (λ mount. mount.number) (mount_at self.now path.now) }
        ensures point { is_some result ≡ has_point self.now path.now }
    {
        if is_at(&self.root, path) {
            return Some(self.root.number);
        }
        Some(find_at(self.others.as_slice(), path)?.number)
    }

    /// Whether a mount's point lies below the path.
    pub fn point_below(&self, path: &[Name]) -> bool
        ensures { result ≡ has_point_below self.now path.now }
    {
        is_below(path, self.root.point.as_names()) || has_point_below(self.others.as_slice(), path)
    }

    /// Whether a mount's point lies below that of this mount, which is there.
    pub fn has_child(&self, id: MountId) -> bool
        requires { has_number self.now id ≡ true }
        ensures { option_map (λ mount. has_point_below self.now mount.point) (mount_numbered self.now id) ≡ Some result }
    {
        self.point_below(self.mount(id).point.as_names())
    }

    /// The number of the mount at this place, from 0, in the order of mounting; `None` exactly from
    /// the number of mounts on.
    pub fn nth(&self, place: usize) -> Option<MountId>
        ensures number { result ≡ option_map (λ mount. mount.number) (slice_get (mounts_of self.now) place) }
        ensures sound { AreMounts self.now }
    {
        match place.checked_sub(1) {
            None => Some(self.root.number),
            Some(place) => Some(self.others.as_slice().get(place)?.number),
        }
    }

    /// The mount of this number; `None` exactly where there is none.
    pub fn find(&self, id: MountId) -> Option<&Mount>
        ensures mount { option_copied result ≡ mount_numbered self.now id }
        ensures sound { AreMounts self.now }
    {
        if is_numbered(&self.root, id.number()) {
            return Some(&self.root);
        }
        find_numbered(self.others.as_slice(), id)
    }

    /// Where the mount is mounted, which is there.
    pub fn point(&self, id: MountId) -> &Path
        requires { has_number self.now id ≡ true }
        ensures point { option_map (λ mount. mount.point) (mount_numbered self.now id) ≡ Some result.now }
        ensures sound { AreMounts self.now }
    {
        &self.mount(id).point
    }

    /// The type of the mount, which is there.
    pub fn fs(&self, id: MountId) -> FsType
        requires { has_number self.now id ≡ true }
        ensures { option_map (λ mount. mount.fs) (mount_numbered self.now id) ≡ Some result }
    {
        self.mount(id).fs
    }

    /// The source word of the mount, which is there.
    pub fn source(&self, id: MountId) -> &Bytes
        requires { has_number self.now id ≡ true }
        ensures { option_map (λ mount. mount.source) (mount_numbered self.now id) ≡ Some result.now }
    {
        &self.mount(id).source
    }

    fn mount(&self, id: MountId) -> &Mount
        requires { has_number self.now id ≡ true }
        ensures mount { mount_numbered self.now id ≡ Some result.now }
        ensures sound { AreMounts self.now }
    {
        let Some(mount) = self.find(id) else {
            unreachable!();
        };
        mount
    }
}

// The least number that no mount has, of which there are fewer than numbers.
fn free_number(root: &Mount, others: &[Mount]) -> MountId
    requires { length others.now ≤ 14 }
    ensures { result ≡ least_free_number (record { root = root.now; others = others.now }) }
{
    let Some(number) = MountId::new(least_free_number(root, others)) else {
        unreachable!();
    };
    number
}

fn least_free_number(root: &Mount, others: &[Mount]) -> u8
    ensures { result ≡ least_free_number (record { root = root.now; others = others.now }) }
{
    for number in 0..16 {
        if !is_used(root, others, number) {
            return number;
        }
    }
    16
}

// Whether a mount has the number.
fn is_used(root: &Mount, others: &[Mount], number: u8) -> bool
    ensures { result ≡ has_number (record { root = root.now; others = others.now }) number }
{
    is_numbered(root, number) || has_number(others, number)
}
