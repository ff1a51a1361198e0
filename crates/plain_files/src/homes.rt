//! What rows and homes become when files are bound and freed, and when a volume is formatted.

ghost use Rattle.std.specs.Prelude.{◌≡◌, ◌-◌, [], map, slice_index_or, slice_set};
ghost use Rattle.vfs_model.specs.Homes.{bound_file, cell_capacity, change_row, homes_after_bind, homes_after_end, bytes_of, home_of, with_empty_cells};
ghost use Rattle.vfs_model.specs.declared.namespace.RowChange.TheVariants as change;
ghost use Rattle.plain_files.specs.Contents.{origin_content};

use vfs_base::{Bytes, Kind, List, PAGE_SIZE, RowId, TMP_FILE_MAX};
use vfs_model::{DeviceHome, End, FileState, Homes, Namespace, Origin, WorldState};

/// Binds the row to a file that begins so. The content is what lies in a rom of it, in memory of its
/// own, so that binding wants none.
pub fn bind_file(
    world: &mut WorldState,
    row: RowId,
    generation: u64,
    origin: &Origin,
    content: Bytes,
)
    requires { content ≡ origin_content world.old.namespace.roms origin.now }
    ensures { world.new ≡ change_row world.old
        (change.Bind (record { row = row; generation = generation }) origin.now) }
{
    let bound = begin_file(world, generation, origin, content);
    world.files.set(row.place(), bound);
}

/// Frees the row. What stays of its file comes home.
pub fn free_file(world: &mut WorldState, row: RowId, generation: u64, end: &End)
    ensures { world.new ≡ change_row world.old
        (change.Free (record { row = row; generation = generation }) end.now) }
{
    let freed = FileState::Unbound { generation };
    let ended = replace_file(&mut world.files, row, freed);
    bring_home(&mut world.homes, ended, end);
}

// Puts another file into the row, and answers the one that it had.
#[tactic(auto, using(crate::proofs::PlaceLemmas::replacing))]
fn replace_file(files: &mut List<FileState>, row: RowId, next: FileState) -> FileState
    ensures value { result ≡ slice_index_or files.old (row - 1) (FileState.Unbound 0) }
    ensures files { files.new ≡ slice_set files.old (row - 1) next }
{
    let found = files.replace(row.place(), FileState::Unbound { generation: 0 });
    files.set(row.place(), next);
    found
}

// The file that a row becomes. What it takes from home is gone there.
fn begin_file(world: &mut WorldState, generation: u64, origin: &Origin, content: Bytes) -> FileState
    requires { content ≡ origin_content world.old.namespace.roms origin.now }
    ensures file { result ≡ bound_file world.old generation origin.now }
    ensures world { world.new
        ≡ record world.old { homes = homes_after_bind world.old.homes origin.now } }
{
    match origin {
        Origin::Empty => FileState::Bytes {
            generation,
            kind: Kind::Tmp,
            capacity: TMP_FILE_MAX,
            bytes: content,
        },
        Origin::Rom { .. } => FileState::Bytes {
            generation,
            kind: Kind::Rom,
            capacity: content.len() as u64,
            bytes: content,
        },
        Origin::Cell { volume, cell } => FileState::Bytes {
            generation,
            kind: Kind::Cell,
            capacity: cell_capacity(&world.namespace, *volume, *cell),
            bytes: replace_cell(&mut world.homes.cells, *volume, *cell, content),
        },
        Origin::NewCell { volume, cell } => FileState::Bytes {
            generation,
            kind: Kind::Cell,
            capacity: cell_capacity(&world.namespace, *volume, *cell),
            bytes: content,
        },
        Origin::Device { device } => {
            let home = take_home(&mut world.homes.devices, *device);
            FileState::Device {
                generation,
                input: home.input,
                output: home.output,
            }
        }
    }
}

// The bytes that a cell can hold.
fn cell_capacity(namespace: &Namespace, volume: usize, cell: usize) -> u64
    ensures { result ≡ cell_capacity namespace.now volume cell }
{
    match namespace.volumes.as_slice().get(volume) {
        Some(volume) => match volume.pages.as_slice().get(cell) {
            Some(pages) => PAGE_SIZE * u64::from(pages.number()),
            None => 0,
        },
        None => 0,
    }
}

// Takes what a device has at home, where nothing is left.
fn take_home(devices: &mut List<DeviceHome>, device: usize) -> DeviceHome
    ensures value { result ≡ slice_index_or devices.old device (record { input = []; output = [] }) }
    ensures devices { devices.new ≡ slice_set devices.old device (record { input = []; output = [] }) }
{
    let nothing = no_home(devices);
    devices.replace(device, nothing)
}

// What a device has at home that has nothing there.
fn no_home(devices: &List<DeviceHome>) -> DeviceHome
    ensures { result ≡ record { input = []; output = [] } }
{
    DeviceHome {
        input: devices.empty_like(),
        output: devices.empty_like(),
    }
}

// Puts other bytes on a cell, and answers those that were there.
fn replace_cell(cells: &mut List<List<Bytes>>, volume: usize, cell: usize, bytes: Bytes) -> Bytes
    ensures value { result ≡ slice_index_or (slice_index_or cells.old volume []) cell bytes }
    ensures cells { cells.new
        ≡ slice_set cells.old volume (slice_set (slice_index_or cells.old volume []) cell bytes) }
{
    let volumes = cells.as_mut_slice();
    if volumes.len() <= volume {
        return bytes;
    }
    volumes[volume].replace(cell, bytes)
}

// Brings home what stays of a file that has come to its end.
fn bring_home(homes: &mut Homes, ended: FileState, end: &End)
    ensures { homes.new ≡ homes_after_end homes.old ended end.now }
{
    match end {
        End::Nothing | End::Spare { .. } => {}
        End::Kept { volume, cell } => {
            let bytes = bytes_of(ended, homes.cells.empty_like());
            drop(replace_cell(&mut homes.cells, *volume, *cell, bytes));
        }
        End::Device { device } => {
            let home = home_of(ended, &homes.devices);
            homes.devices.set(*device, home);
        }
    }
}

// The bytes of a file in memory. Of another file they are the empty list that is handed in.
fn bytes_of(file: FileState, nothing: Bytes) -> Bytes
    requires { nothing ≡ [] }
    ensures { result ≡ bytes_of file }
{
    match file {
        FileState::Bytes { bytes, .. } => bytes,
        FileState::Unbound { .. } | FileState::Device { .. } => nothing,
    }
}

// What a device brings home; of another file it is nothing.
fn home_of(file: FileState, devices: &List<DeviceHome>) -> DeviceHome
    ensures { result ≡ home_of file }
{
    match file {
        FileState::Device { input, output, .. } => DeviceHome { input, output },
        FileState::Unbound { .. } | FileState::Bytes { .. } => no_home(devices),
    }
}

/// Formats a volume: no bytes lie on its cells any more.
pub fn empty_cells(homes: &mut Homes, volume: usize)
    ensures { homes.new ≡ with_empty_cells homes.old volume }
{
    let volumes = homes.cells.as_mut_slice();
    if volume < volumes.len() {
        clear_all(volumes[volume].as_mut_slice());
    }
}

fn clear_all(cells: &mut [Bytes])
    ensures { cells.new ≡ map (λ bytes. []) cells.old }
{
    for place in 0..cells.len() {
        cells[place].clear();
    }
}
