//! Mounts, by their points and by their numbers.

ghost use Rattle.std.specs.Prelude.{◌≡◌, ◌==◌, ◌&&◌, ◌∷◌, not, nat_lt, length, filter, find, if◌then◌else◌};
ghost use Rattle.std.specs.List.{list_any};
ghost use Rattle.std.specs.Option.{option_copied};
ghost use Rattle.vfs_model.specs.Lookup.{is_below, is_prefix, nearest};
ghost use Rattle.vfs_model.specs.Namespace.{same_path};

use vfs_base::{List, MountId, Name};
use vfs_model::Mount;

/// The mount with the longest point that is a prefix of the path, of one found so far and the others.
pub fn nearest<'a>(found: &'a Mount, others: &'a [Mount], path: &[Name]) -> &'a Mount
    ensures { result.now ≡ nearest path.now found.now others.now }
{
    let mut found = found;
    for mount in others {
        found = nearer(found, mount, path);
    }
    found
}

// The mount, where its point is the longer one and a prefix of the path; else the one found so far.
fn nearer<'a>(found: &'a Mount, mount: &'a Mount, path: &[Name]) -> &'a Mount
    ensures { result.now ≡ (if is_prefix mount.now.point path.now && nat_lt (length found.now.point) (length mount.now.point) then mount.now else found.now) }
{
    let point = mount.point.as_names();
    if path.starts_with(point) && found.point.len() < point.len() {
        mount
    } else {
        found
    }
}

/// The mount at this point.
pub fn find_at<'a>(mounts: &'a [Mount], point: &[Name]) -> Option<&'a Mount>
    ensures { option_copied result ≡ find (λ mount. same_path mount.point point.now) mounts.now }
{
    for mount in mounts {
        if is_at(mount, point) {
            return Some(mount);
        }
    }
    None
}

/// Whether the mount is at this point.
pub fn is_at(mount: &Mount, point: &[Name]) -> bool
    ensures { result ≡ same_path mount.now.point point.now }
{
    mount.point.as_names() == point
}

/// The mount of this number.
pub fn find_numbered(mounts: &[Mount], number: MountId) -> Option<&Mount>
    ensures { option_copied result ≡ find (λ mount. mount.number == number) mounts.now }
{
    for mount in mounts {
        if is_numbered(mount, number.number()) {
            return Some(mount);
        }
    }
    None
}

/// Whether one of the mounts has this number.
pub fn has_number(mounts: &[Mount], number: u8) -> bool
    ensures { result ≡ list_any (λ mount. mount.number == number) mounts.now }
{
    mounts.iter().any(|mount| is_numbered(mount, number))
}

/// Whether the mount has this number.
pub fn is_numbered(mount: &Mount, number: u8) -> bool
    ensures { result ≡ (mount.now.number == number) }
{
    mount.number.number() == number
}

/// Whether the point of one of the mounts lies below the path.
pub fn has_point_below(mounts: &[Mount], path: &[Name]) -> bool
    ensures { result ≡ list_any (λ mount. is_below path.now mount.point) mounts.now }
{
    mounts
        .iter()
        .any(|mount| is_below(path, mount.point.as_names()))
}

/// Whether the path lies below the front.
pub fn is_below(front: &[Name], path: &[Name]) -> bool
    ensures { result ≡ is_below front.now path.now }
{
    path.starts_with(front) && front.len() < path.len()
}

/// Takes the mount of this number out; the others stay in their order.
pub fn drop_numbered(mounts: &mut List<Mount>, number: u8)
    ensures { mounts.new ≡ filter (λ other. not (other.number == number)) mounts.old }
{
    mounts.retain(|other| !is_numbered(other, number));
}
