ghost use Rattle.std.specs.Prelude.{◌≡◌, [], ◌<◌, ◌≤◌, ◌↔◌, Some, None, length, map, option_map, IfNone, IfOk, IfSome, IsTrue};
ghost use Rattle.devfs.specs.DeviceTable.{NamesDiffer, device_at, last_device, place_named, shown, with_device, with_device_at};

use crate::slots::{Slot, copy_names, place_of, pop_home, push_home, put_device, take_device};
use std::alloc::Global;
use std::marker::Model;
use vfs_base::{List, Name, NoMemory};
use vfs_outside::{Chars, CharsPart};

/// Character devices by name, in the order of handing in. A device that was taken out leaves its
/// name and its place for its return.
///
/// The first call takes the memory for all devices; but for `names`, no later one takes any.
#[derive(Drop)]
pub struct Registry<C: Chars> {
    // How many devices there is room for.
    room: usize,
    // The devices, with memory for so many.
    slots: Vec<Slot<C>>,
}

impl<C: Chars> Model for Registry<C> {
    ghost use Rattle.std.specs.Prelude.{vec_capacity};
    ghost use Rattle.devfs.specs.DeviceTable.{DeviceTable, IsKept};
    ghost use Rattle.devfs.specs.Slots.{entries_of};

    ghost Value = { DeviceTable };

    ghost view = { λ r. record { room = r.room; devices = entries_of C.contents C.faults r.slots.items } };

    ghost invariant = { λ r. IsKept
        (record { room = r.room; devices = entries_of C.contents C.faults r.slots.items })
        (vec_capacity r.slots) };
}

impl<C: Chars> Registry<C> {
    /// No device, and room for so many.
    ///
    /// # Errors
    /// `NoMemory` where there is none for them.
    pub fn new(alloc: Global, room: usize) -> Result<Registry<C>, NoMemory>
        ensures { IfOk result (λ table. table ≡ record { room = room; devices = [] }) }
    {
        let slots = Vec::with_capacity(alloc, room)?;
        Ok(Registry { room, slots })
    }

    /// How many devices there are, home or out.
    pub fn len(&self) -> usize
        ensures value { result ≡ length self.now.devices }
        ensures within { length self.now.devices ≤ self.now.room }
    {
        self.slots.len()
    }

    pub fn is_empty(&self) -> bool
        ensures { IsTrue result ↔ (self.now.devices ≡ []) }
    {
        self.slots.is_empty()
    }

    /// Whether there is room for no more.
    pub fn is_full(&self) -> bool
        ensures full { IsTrue result ↔ (length self.now.devices ≡ self.now.room) }
        ensures within { length self.now.devices ≤ self.now.room }
    {
        self.slots.len() == self.room
    }

    /// Puts a device behind the others, home. There is room for it, and none has its name.
    pub fn add(&mut self, part: CharsPart<C>)
        requires room { length self.old.devices < self.old.room }
        requires name { place_named self.old part.name ≡ None }
        ensures { self.new ≡ with_device self.old part }
    {
        let CharsPart { name, device } = part;
        push_home(&mut self.slots, name, device);
    }

    /// Takes the last device away with its name; `None` exactly where there is none or it is out, and
    /// then all stays.
    pub fn pop(&mut self) -> Option<CharsPart<C>>
        ensures some { IfSome result (λ part. self.old ≡ with_device self.new part) }
        ensures none { IfNone result (self.new ≡ self.old) }
        ensures out { IfNone result (last_device self.old ≡ None) }
    {
        let (name, device) = pop_home(&mut self.slots)?;
        Some(CharsPart { name, device })
    }

    /// The place of the device with this name, home or out, counted from 0; `None` exactly where none
    /// has it.
    pub fn find(&self, name: &Name) -> Option<usize>
        ensures place { result ≡ place_named self.now name.now }
        ensures differ { NamesDiffer self.now.devices }
    {
        place_of(self.slots.as_slice(), name)
    }

    /// Takes the device at the place out; `None` exactly where there is no such place or its device is
    /// out.
    pub fn take(&mut self, place: usize) -> Option<C>
        ensures device { option_map (shown C.contents C.faults) result ≡ device_at self.old place }
        ensures left { self.new ≡ with_device_at self.old place None }
    {
        take_device(&mut self.slots, place)
    }

    /// Puts a device home at the place, from which one is out.
    pub fn give(&mut self, place: usize, device: C)
        requires within { place < length self.old.devices }
        requires out { device_at self.old place ≡ None }
        ensures { self.new ≡ with_device_at self.old place (Some (shown C.contents C.faults device)) }
    {
        put_device(&mut self.slots, place, device);
    }

    /// The names of the devices, home or out, in the order of handing in.
    ///
    /// # Errors
    /// `NoMemory` where there is none for the answer.
    pub fn names(&self) -> Result<List<Name>, NoMemory>
        ensures { IfOk result (λ names. names ≡ map (λ entry. entry.name) self.now.devices) }
    {
        copy_names(*self.slots.allocator(), self.slots.as_slice())
    }
}
