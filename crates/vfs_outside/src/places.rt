//! The places of volumes and of character devices, each with its part home or out.

ghost use Rattle.std.specs.Prelude.{◌≡◌, [], ◌∷◌, ◌++◌, ◌<◌, ◌≤◌, Some, None, length, filter_map, option_map, option_to_list, slice_index_or, slice_set, vec_capacity, vec_len, All, IfOk, OnOk};
ghost use Rattle.std.specs.List.{list_any};
ghost use Rattle.std.specs.Option.{option_copied};
ghost use Rattle.vfs_base.specs.declared.limits.TheConstants.{VOLUME_CELLS_MAX};
ghost use Rattle.vfs_outside.specs.Devices.{is_chars_named, is_taken, is_volume_named, volume_named};
ghost use Rattle.vfs_outside.specs.Volume.{chars_shape, volume_shape};

use crate::block::Block;
use crate::chars::Chars;
use crate::parts::{CharsPart, VolumePart};
use std::alloc::Global;
use vfs_base::{CharsShape, List, Name, NoMemory, VolumeShape};

/// Takes the part at the place out, where there is one.
pub(crate) fn take_part<P>(parts: &mut Vec<Option<P>>, place: usize) -> Option<P>
    ensures part { result ≡ slice_index_or parts.old.items place None }
    ensures left { parts.new.items ≡ slice_set parts.old.items place None }
{
    if place < parts.len() {
        parts[place].take()
    } else {
        None
    }
}

/// Puts the part at the place.
pub(crate) fn put_part<P: Drop>(parts: &mut Vec<Option<P>>, place: usize, part: P)
    requires { place < length parts.old.items }
    ensures { parts.new.items ≡ slice_set parts.old.items place (Some part) }
{
    parts[place] = Some(part);
}

/// Whether a volume or a character device that is home has the name.
pub(crate) fn is_taken<B: Block, C: Chars>(
    volumes: &[Option<VolumePart<B>>],
    chars: &[Option<CharsPart<C>>],
    name: &Name,
) -> bool
    ensures { result ≡ is_taken (record { volumes = volumes.now; chars = chars.now }) name.now }
{
    has_volume(volumes, name) || has_chars(chars, name)
}

fn has_volume<B: Block>(volumes: &[Option<VolumePart<B>>], name: &Name) -> bool
    ensures { result ≡ list_any (is_volume_named name.now) volumes.now }
{
    volumes.iter().any(|part| is_volume_named(part, name))
}

fn has_chars<C: Chars>(chars: &[Option<CharsPart<C>>], name: &Name) -> bool
    ensures { result ≡ list_any (is_chars_named name.now) chars.now }
{
    chars.iter().any(|part| is_chars_named(part, name))
}

fn is_volume_named<B: Block>(part: &Option<VolumePart<B>>, name: &Name) -> bool
    ensures { result ≡ is_volume_named name.now part.now }
{
    match part {
        Some(volume) => volume.is_named(name),
        None => false,
    }
}

fn is_chars_named<C: Chars>(part: &Option<CharsPart<C>>, name: &Name) -> bool
    ensures { result ≡ is_chars_named name.now part.now }
{
    match part {
        Some(device) => device.is_named(name),
        None => false,
    }
}

/// The volume that is home and has the name.
pub(crate) fn find_volume<'a, B: Block>(
    volumes: &'a [Option<VolumePart<B>>],
    name: &Name,
) -> Option<&'a VolumePart<B>>
    ensures { option_copied result ≡ volume_named volumes.now name.now }
{
    for part in volumes {
        if is_volume_named(part, name) {
            return part.as_ref();
        }
    }
    None
}

/// Puts the part in a place behind the others, for which there is room.
pub(crate) fn push_part<P: Drop>(parts: &mut Vec<Option<P>>, part: P)
    requires { vec_len parts.old < vec_capacity parts.old }
    ensures { parts.new.items ≡ parts.old.items ++ Some part ∷ [] }
{
    parts.push(Some(part)).unwrap();
}

/// What the volumes that are home show of themselves.
pub(crate) fn volume_shapes<B: Block>(
    alloc: Global,
    volumes: &[Option<VolumePart<B>>],
) -> Result<List<VolumeShape>, NoMemory>
    ensures shapes { IfOk result (λ shapes. shapes ≡ filter_map (option_map volume_shape) volumes.now) }
    ensures few { IfOk result (λ shapes. All (λ volume. length volume.pages ≤ VOLUME_CELLS_MAX) shapes) }
{
    let mut shapes = List::new(alloc);
    for place in volumes {
        push_volume_shape(&mut shapes, alloc, place)?;
    }
    Ok(shapes)
}

fn push_volume_shape<B: Block>(
    shapes: &mut List<VolumeShape>,
    alloc: Global,
    place: &Option<VolumePart<B>>,
) -> Result<(), NoMemory>
    ensures shape { OnOk result (shapes.new ≡ shapes.old ++ option_to_list (option_map volume_shape place.now)) }
    ensures few { OnOk result (All (λ volume. length volume.pages ≤ VOLUME_CELLS_MAX) shapes.old
        → All (λ volume. length volume.pages ≤ VOLUME_CELLS_MAX) shapes.new) }
{
    match place {
        Some(volume) => shapes.push(volume.shape(alloc)?),
        None => Ok(()),
    }
}

/// What the character devices that are home show of themselves.
pub(crate) fn chars_shapes<C: Chars>(
    alloc: Global,
    chars: &[Option<CharsPart<C>>],
) -> Result<List<CharsShape>, NoMemory>
    ensures { IfOk result (λ shapes. shapes ≡ filter_map (option_map chars_shape) chars.now) }
{
    let mut shapes = List::new(alloc);
    for place in chars {
        push_chars_shape(&mut shapes, alloc, place)?;
    }
    Ok(shapes)
}

fn push_chars_shape<C: Chars>(
    shapes: &mut List<CharsShape>,
    alloc: Global,
    place: &Option<CharsPart<C>>,
) -> Result<(), NoMemory>
    ensures { OnOk result (shapes.new ≡ shapes.old ++ option_to_list (option_map chars_shape place.now)) }
{
    match place {
        Some(device) => shapes.push(device.shape(alloc)?),
        None => Ok(()),
    }
}
