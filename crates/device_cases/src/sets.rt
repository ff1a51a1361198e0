//! Devices that are handed in, refused, taken out and put back.

ghost use Rattle.std.specs.Prelude.{◌≡◌, true, OnOk};
ghost use Rattle.vfs_outside.specs.Devices.{are_home};

use crate::wrong::Wrong;
use std::alloc::Global;
use vfs_base::{Counts, Name, copy_bytes};
use vfs_outside::{AnyBlock, Block, DeviceWhy, Devices, MemBlock, MemChars, VolumePart};

const PAGE: usize = 4096;

/// A volume that is out has no counts and can't be taken again; when it is back, its calls are counted.
pub fn a_volume_goes_out_and_comes_back(alloc: Global) -> Result<(), Wrong> {
    let mut devices = Devices::new(alloc);
    let name = name_of(alloc, "sd0")?;
    let cells = mem_cells(alloc, 2)?;
    if devices.add_volume(name.copy()?, cells).is_err() {
        return Err(Wrong::There);
    }
    let Some(mut part) = devices.take_volume(0) else {
        return Err(Wrong::There);
    };
    if devices.counts(&name).is_some() || devices.take_volume(0).is_some() {
        return Err(Wrong::There);
    }
    write_cell(&mut part)?;
    devices.put_volume(0, part);
    check_counts(devices.counts(&name))
}

fn name_of(alloc: Global, text: &str) -> Result<Name, Wrong> {
    let bytes = copy_bytes(alloc, text.as_bytes())?;
    match Name::from_bytes(bytes) {
        Some(name) => Ok(name),
        None => Err(Wrong::There),
    }
}

// One cell in memory of so many pages.
fn mem_cells(alloc: Global, pages: u16) -> Result<Vec<AnyBlock>, Wrong> {
    let block = MemBlock::new(alloc, pages, Vec::new(alloc))?;
    let mut cells = Vec::new(alloc);
    if cells.push(AnyBlock::Mem(block)).is_err() {
        return Err(Wrong::NoMemory);
    }
    Ok(cells)
}

// Writes the second page of the volume's only cell.
fn write_cell(part: &mut VolumePart<AnyBlock>) -> Result<(), Wrong> {
    if part.cells.len() != 1 {
        return Err(Wrong::There);
    }
    let cell = &mut part.cells[0];
    if cell.pages() != 2 {
        return Err(Wrong::There);
    }
    cell.write_page(1, &[7; PAGE])?;
    Ok(())
}

// One write was made.
fn check_counts(counts: Option<Counts>) -> Result<(), Wrong> {
    let expected = Counts {
        reads: 0,
        writes: 1,
        faults: 0,
    };
    if counts != Some(expected) {
        return Err(Wrong::Counts { counts });
    }
    Ok(())
}

/// A volume with a cell of no pages is refused and its cells go back; a character device of a name that is taken is refused, goes back,
/// and is taken under another name.
pub fn devices_are_refused_and_go_back(alloc: Global) -> Result<(), Wrong> {
    let mut devices = Devices::new(alloc);
    refuse_cells(&mut devices, alloc)?;
    let Ok(()) = devices.add_volume(name_of(alloc, "sd0")?, mem_cells(alloc, 2)?) else {
        return Err(Wrong::There);
    };
    let device = refuse_device(&mut devices, alloc)?;
    let Ok(()) = devices.add_chars(name_of(alloc, "uart0")?, device) else {
        return Err(Wrong::There);
    };
    let shown = devices.describe()?;
    if shown.volumes.len() != 1 || shown.chars.len() != 1 {
        return Err(Wrong::There);
    }
    Ok(())
}

// A volume with a cell of no pages is not taken.
fn refuse_cells(devices: &mut Devices, alloc: Global) -> Result<(), Wrong>
    requires { are_home devices.old ≡ true }
    ensures { OnOk result (devices.new ≡ devices.old) }
{
    let name = name_of(alloc, "sd0")?;
    let cells = mem_cells(alloc, 0)?;
    let Err(refused) = devices.add_volume(name, cells) else {
        return Err(Wrong::Taken { why: None });
    };
    if refused.why != DeviceWhy::BadPages || refused.cells.len() != 1 {
        return Err(Wrong::Taken {
            why: Some(refused.why),
        });
    }
    Ok(())
}

// A character device of a name that a volume has is not taken, and goes back.
fn refuse_device(devices: &mut Devices, alloc: Global) -> Result<MemChars, Wrong>
    requires { are_home devices.old ≡ true }
    ensures { OnOk result (devices.new ≡ devices.old) }
{
    let name = name_of(alloc, "sd0")?;
    let device = MemChars::new(alloc, copy_bytes(alloc, b"ready")?, Vec::new(alloc));
    let Err(refused) = devices.add_chars(name, device) else {
        return Err(Wrong::Taken { why: None });
    };
    if refused.why != DeviceWhy::NameTaken {
        return Err(Wrong::Taken {
            why: Some(refused.why),
        });
    }
    Ok(refused.device)
}
