//! The places of devices: each has a name, and its device home or out.

ghost use Rattle.std.specs.Prelude.{◌≡◌, [], ◌∷◌, ◌++◌, ◌<◌, ◌≤◌, Some, None, map, is_some, nat_eq, option_and_then, slice_get, vec_capacity, vec_len, IfNone, IfOk, IfSome};
ghost use Rattle.std.specs.Cmp.Lexicographic.{pointwise};
ghost use Rattle.std.specs.List.{position};
ghost use Rattle.devfs.specs.Slots.{last_device, with_device};

use std::alloc::Global;
use vfs_base::{List, Name, NoMemory};

/// A name and its device, which is `None` while it is out.
#[derive(Drop)]
pub(crate) struct Slot<C> {
    pub name: Name,
    pub device: Option<C>,
}

/// Puts a device that is home behind the others, for which there is memory.
pub(crate) fn push_home<C: Drop>(slots: &mut Vec<Slot<C>>, name: Name, device: C)
    requires { vec_len slots.old < vec_capacity slots.old }
    ensures slots { slots.new.items ≡ slots.old.items ++ record { name = name; device = Some device } ∷ [] }
    ensures memory { vec_capacity slots.old ≤ vec_capacity slots.new }
{
    let slot = Slot {
        name,
        device: Some(device),
    };
    slots.push(slot).unwrap();
}

/// Takes the last device away with its name, where it is home.
pub(crate) fn pop_home<C: Drop>(slots: &mut Vec<Slot<C>>) -> Option<(Name, C)>
    ensures some { IfSome result
        (λ last. slots.old.items ≡ slots.new.items ++ record { name = last.0; device = Some last.1 } ∷ []) }
    ensures none { IfNone result (slots.new.items ≡ slots.old.items) }
    ensures out { IfNone result (last_device slots.old.items ≡ None) }
    ensures memory { vec_capacity slots.new ≡ vec_capacity slots.old }
{
    if !is_last_home(slots.as_slice()) {
        return None;
    }
    let Slot { name, device } = slots.pop()?;
    Some((name, device?))
}

fn is_last_home<C>(slots: &[Slot<C>]) -> bool
    ensures { result ≡ is_some (last_device slots.now) }
{
    match slots.last() {
        Some(slot) => slot.device.is_some(),
        None => false,
    }
}

/// Takes the device at the place out, where one is home there.
pub(crate) fn take_device<C>(slots: &mut Vec<Slot<C>>, place: usize) -> Option<C>
    ensures device { result ≡ option_and_then (λ slot. slot.device) (slice_get slots.old.items place) }
    ensures left { slots.new.items ≡ with_device slots.old.items place None }
    ensures memory { vec_capacity slots.new ≡ vec_capacity slots.old }
{
    if place < slots.len() {
        slots[place].device.take()
    } else {
        None
    }
}

/// Puts the device at the place.
pub(crate) fn put_device<C: Drop>(slots: &mut Vec<Slot<C>>, place: usize, device: C)
    requires { place < vec_len slots.old }
    ensures put { slots.new.items ≡ with_device slots.old.items place (Some device) }
    ensures memory { vec_capacity slots.new ≡ vec_capacity slots.old }
{
    slots[place].device = Some(device);
}

/// The first place of the name.
pub(crate) fn place_of<C>(slots: &[Slot<C>], name: &Name) -> Option<usize>
    ensures { result ≡ position (λ slot. pointwise nat_eq slot.name name.now) slots.now }
{
    slots.iter().position(|slot| slot.name == *name)
}

/// The names, in the order of the places.
pub(crate) fn copy_names<C>(alloc: Global, slots: &[Slot<C>]) -> Result<List<Name>, NoMemory>
    ensures { IfOk result (λ names. names ≡ map (λ slot. slot.name) slots.now) }
{
    let mut names = List::new(alloc);
    for slot in slots {
        names.push(slot.name.copy()?)?;
    }
    Ok(names)
}
