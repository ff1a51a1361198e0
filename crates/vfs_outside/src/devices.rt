ghost use Rattle.std.specs.Prelude.{◌≡◌, [], ◌≤◌, Some, None, true, false, length, map, option_map, slice_get, slice_index_or, slice_set, unwrap_or, All, IfErr, IfOk, IsErr, IsSome, OnErr, OnOk};
ghost use Rattle.std.specs.Option.{option_copied};
ghost use Rattle.vfs_base.specs.declared.limits.TheConstants.{VOLUME_CELLS_MAX};
ghost use Rattle.vfs_outside.specs.Devices.{AreSound, are_home, chars_refusal, counts_of, describe_of, is_taken, volume_named, volume_refusal, with_chars, with_volume};
ghost use Rattle.vfs_outside.specs.Volume.{cell_states, empty_volume};

use crate::any_block::AnyBlock;
use crate::block::Block;
use crate::chars::Chars;
use crate::mem_chars::MemChars;
use crate::parts::{CharsPart, VolumePart, are_cells};
use crate::places::{
    chars_shapes, find_volume, is_taken, push_part, put_part, take_part, volume_shapes,
};
use crate::refused::{CharsRefused, DeviceWhy, VolumeRefused};
use std::alloc::Global;
use std::marker::Model;
use vfs_base::{Counts, Describe, Name, NoMemory, Record};

/// The devices that are handed in: volumes and character devices, each in the order of handing in,
/// of which no two have one name. A part that was taken out leaves its place free for its return; while
/// one is out, parts are taken out and put back and counts are asked for, and nothing else.
#[derive(Drop)]
pub struct DeviceSet<B: Block, C: Chars> {
    volumes: Vec<Option<VolumePart<B>>>,
    chars: Vec<Option<CharsPart<C>>>,
}

/// The devices of the program: block devices in memory or over parts of a file, and character devices
/// in memory.
pub type Devices = DeviceSet<AnyBlock, MemChars>;

impl<B: Block, C: Chars> Model for DeviceSet<B, C> {
    ghost use Rattle.vfs_outside.specs.Devices.{AreSound, DevicesState};

    ghost Value = { DevicesState };

    ghost view = { λ d. record { volumes = d.volumes.items; chars = d.chars.items } };

    ghost invariant = { λ d. AreSound (record { volumes = d.volumes.items; chars = d.chars.items }) };
}

impl<B: Block, C: Chars> DeviceSet<B, C> {
    /// Devices that hold none; takes no memory.
    pub fn new(alloc: Global) -> DeviceSet<B, C>
        ensures { result ≡ record { volumes = []; chars = [] } }
    {
        DeviceSet {
            volumes: Vec::new(alloc),
            chars: Vec::new(alloc),
        }
    }

    /// Takes a volume of these cells, behind the others. It keeps nothing.
    ///
    /// # Errors
    /// The first of `NameTaken`, `BadPages` and `NoMemory` that holds. The cells go back.
    pub fn add_volume(&mut self, name: Name, cells: Vec<B>) -> Result<(), VolumeRefused<B>>
        requires home { are_home self.old ≡ true }
        ensures ok { OnOk result (self.new
            ≡ with_volume self.old (empty_volume name (cell_states B.pages B.contents B.counts cells.items))) }
        ensures refuses { IsSome (volume_refusal self.old name (map B.pages cells.items)) → IsErr result }
        ensures why { IfErr result (λ refused.
            refused.why ≡ unwrap_or (volume_refusal self.old name (map B.pages cells.items)) DeviceWhy.NoMemory) }
        ensures back { IfErr result (λ refused. refused.cells.items ≡ cells.items) }
        ensures err { OnErr result (self.new ≡ self.old) }
    {
        if is_taken(self.volumes.as_slice(), self.chars.as_slice(), &name) {
            let why = DeviceWhy::NameTaken;
            return Err(VolumeRefused { why, cells });
        }
        if !are_cells(cells.as_slice()) {
            let why = DeviceWhy::BadPages;
            return Err(VolumeRefused { why, cells });
        }
        if self.volumes.reserve(1).is_err() {
            let why = DeviceWhy::NoMemory;
            return Err(VolumeRefused { why, cells });
        }
        let volume = VolumePart::new(*self.volumes.allocator(), name, cells);
        push_part(&mut self.volumes, volume);
        Ok(())
    }

    /// Takes a character device, behind the others.
    ///
    /// # Errors
    /// The first of `NameTaken` and `NoMemory` that holds. The device goes back.
    pub fn add_chars(&mut self, name: Name, device: C) -> Result<(), CharsRefused<C>>
        requires home { are_home self.old ≡ true }
        ensures ok { OnOk result (self.new
            ≡ with_chars self.old (record { name = name; contents = C.contents device; faults = C.faults device })) }
        ensures refuses { IsSome (chars_refusal self.old name) → IsErr result }
        ensures why { IfErr result (λ refused. refused.why ≡ unwrap_or (chars_refusal self.old name) DeviceWhy.NoMemory) }
        ensures back { IfErr result (λ refused. refused.device ≡ device) }
        ensures err { OnErr result (self.new ≡ self.old) }
    {
        if is_taken(self.volumes.as_slice(), self.chars.as_slice(), &name) {
            let why = DeviceWhy::NameTaken;
            return Err(CharsRefused { why, device });
        }
        if self.chars.reserve(1).is_err() {
            let why = DeviceWhy::NoMemory;
            return Err(CharsRefused { why, device });
        }
        push_part(&mut self.chars, CharsPart { name, device });
        Ok(())
    }

    /// What each device shows of itself.
    ///
    /// # Errors
    /// `NoMemory` where there is none for the answer.
    pub fn describe(&self) -> Result<Describe, NoMemory>
        requires home { are_home self.now ≡ true }
        ensures shown { IfOk result (λ shown. shown ≡ describe_of self.now) }
        ensures few { IfOk result (λ shown. All (λ volume. length volume.pages ≤ VOLUME_CELLS_MAX) shown.volumes) }
        ensures sound { AreSound self.now }
        ensures empty { self.now ≡ record { volumes = []; chars = [] }
            → IfOk result (λ shown. shown ≡ record { volumes = []; chars = [] }) }
    {
        let alloc = *self.volumes.allocator();
        let volumes = volume_shapes(alloc, self.volumes.as_slice())?;
        let chars = chars_shapes(alloc, self.chars.as_slice())?;
        Ok(Describe { volumes, chars })
    }

    /// What the volume keeps while it is not mounted; `None` exactly where no volume has the name.
    pub fn record(&self, volume: &Name) -> Option<&Record>
        requires home { are_home self.now ≡ true }
        ensures { option_map (λ kept. kept.entries) (option_copied result)
            ≡ option_map (λ found. found.kept) (volume_named self.now.volumes volume.now) }
    {
        Some(&find_volume(self.volumes.as_slice(), volume)?.kept)
    }

    /// How often the cells of the volume were called, all together; a sum that no u64 holds is
    /// 2^64 - 1. `None` exactly where no volume that is home has the name.
    pub fn counts(&self, volume: &Name) -> Option<Counts>
        ensures { result ≡ counts_of self.now volume.now }
    {
        Some(find_volume(self.volumes.as_slice(), volume)?.counts())
    }

    /// Takes the volume at the place out; places count from 0. `None` exactly where there is no such
    /// place, or its volume is out.
    pub fn take_volume(&mut self, place: usize) -> Option<VolumePart<B>>
        ensures part { result ≡ slice_index_or self.old.volumes place None }
        ensures left { self.new ≡ record self.old { volumes = slice_set self.old.volumes place None } }
    {
        take_part(&mut self.volumes, place)
    }

    /// Puts a volume at the place, from which the volume is out. None that is home has its name.
    pub fn put_volume(&mut self, place: usize, part: VolumePart<B>)
        requires out { slice_get self.old.volumes place ≡ Some None }
        requires name { is_taken self.old part.name ≡ false }
        ensures { self.new ≡ record self.old { volumes = slice_set self.old.volumes place (Some part) } }
    {
        // What holds of every volume is known of this one only where a field is used.
        let _cells = &part.cells;
        put_part(&mut self.volumes, place, part);
    }

    /// Takes the character device at the place out; places count from 0. `None` exactly where there
    /// is no such place, or its device is out.
    pub fn take_chars(&mut self, place: usize) -> Option<CharsPart<C>>
        ensures part { result ≡ slice_index_or self.old.chars place None }
        ensures left { self.new ≡ record self.old { chars = slice_set self.old.chars place None } }
    {
        take_part(&mut self.chars, place)
    }

    /// Puts a character device at the place, from which the device is out. None that is home has its
    /// name.
    pub fn put_chars(&mut self, place: usize, part: CharsPart<C>)
        requires out { slice_get self.old.chars place ≡ Some None }
        requires name { is_taken self.old part.name ≡ false }
        ensures { self.new ≡ record self.old { chars = slice_set self.old.chars place (Some part) } }
    {
        put_part(&mut self.chars, place, part);
    }
}
