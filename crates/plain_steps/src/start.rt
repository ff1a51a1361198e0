//! The world at the start: nothing is mounted, and everything is at home.

ghost use Rattle.std.specs.Prelude.{◌≡◌, [], None, IfOk, OnOk, map, replicate};
ghost use Rattle.vfs_model.specs.Homes.{empty_cells, opening_home, opening_world};
ghost use Rattle.vfs_model.specs.Namespace.{opening_device, opening_namespace, opening_volume, root_mount};
ghost use Rattle.vfs_model.specs.declared.world.FileState.TheVariants as file;
ghost use Rattle.plain_steps.specs.Starting.{empty_namespace, with_devices, with_slots};

use std::alloc::Global;
use vfs_base::{
    Bytes, CharsShape, Describe, FsType, HOLDS, List, MOUNTS, MountId, NoMemory, Path, ROWS,
    SESSIONS, VolumeShape, copy_bytes,
};
use vfs_model::{
    DeviceHome, DeviceState, FileState, Homes, Mount, Namespace, RomImage, VolumeState, WorldState,
};

/// The world at the start, with these roms and devices.
#[tactic(auto, unfolding(vfs_model::specs::Homes::opening_world))]
pub fn opening_world(
    alloc: Global,
    roms: List<RomImage>,
    describe: &Describe,
) -> Result<WorldState, NoMemory>
    ensures { IfOk result (λ world. world ≡ opening_world roms describe.now) }
{
    Ok(WorldState {
        namespace: opening_namespace(alloc, roms, describe)?,
        files: no_files(alloc, ROWS as usize)?,
        homes: opening_homes(alloc, describe)?,
    })
}

fn opening_namespace(
    alloc: Global,
    roms: List<RomImage>,
    describe: &Describe,
) -> Result<Namespace, NoMemory>
    ensures { IfOk result (λ namespace. namespace ≡ opening_namespace roms describe.now) }
{
    let mut namespace = empty_namespace(alloc, roms)?;
    fill_namespace(alloc, &mut namespace, describe)?;
    Ok(namespace)
}

// Without any slot, and without devices.
fn empty_namespace(alloc: Global, roms: List<RomImage>) -> Result<Namespace, NoMemory>
    ensures { IfOk result (λ namespace. namespace ≡ empty_namespace roms) }
{
    let root = root_mount(alloc)?;
    Ok(Namespace {
        root,
        mounts: List::new(alloc),
        trees: List::new(alloc),
        live_files: List::new(alloc),
        generations: List::new(alloc),
        references: List::new(alloc),
        working_directories: List::new(alloc),
        volumes: List::new(alloc),
        roms,
        devices: List::new(alloc),
        is_stopped: false,
    })
}

fn fill_namespace(
    alloc: Global,
    namespace: &mut Namespace,
    describe: &Describe,
) -> Result<(), NoMemory>
    ensures { OnOk result (namespace.new ≡ with_devices (with_slots namespace.old) describe.now) }
{
    add_slots(alloc, namespace)?;
    add_devices(alloc, namespace, describe)
}

// All slots, with nothing in them.
fn add_slots(alloc: Global, namespace: &mut Namespace) -> Result<(), NoMemory>
    ensures { OnOk result (namespace.new ≡ with_slots namespace.old) }
{
    namespace.trees = empty_lists(alloc, MOUNTS)?;
    namespace.live_files = nothings(alloc, ROWS as usize)?;
    namespace.generations = zeros(alloc, ROWS as usize)?;
    namespace.references = nothings(alloc, SESSIONS as usize * HOLDS)?;
    namespace.working_directories = roots(alloc, SESSIONS as usize)?;
    Ok(())
}

fn add_devices(
    alloc: Global,
    namespace: &mut Namespace,
    describe: &Describe,
) -> Result<(), NoMemory>
    ensures { OnOk result (namespace.new ≡ with_devices namespace.old describe.now) }
{
    namespace.volumes = opening_volumes(alloc, describe.volumes.as_slice())?;
    namespace.devices = opening_devices(alloc, describe.chars.as_slice())?;
    Ok(())
}

fn root_mount(alloc: Global) -> Result<Mount, NoMemory>
    ensures { IfOk result (λ mount. mount ≡ root_mount) }
{
    Ok(Mount {
        number: MountId::ROOT,
        point: Path::root(alloc),
        fs: FsType::Tmp,
        source: copy_bytes(alloc, b"none".as_slice())?,
    })
}

#[tactic(auto, using(crate::proofs::Copies::one_copy_more))]
fn nothings<T: Drop>(alloc: Global, len: usize) -> Result<List<Option<T>>, NoMemory>
    ensures { IfOk result (λ list. list ≡ replicate len None) }
{
    let mut list = List::new(alloc);
    for _place in 0..len {
        list.push(None)?;
    }
    Ok(list)
}

#[tactic(auto, using(crate::proofs::Copies::one_copy_more))]
fn empty_lists<T: Drop>(alloc: Global, len: usize) -> Result<List<List<T>>, NoMemory>
    ensures { IfOk result (λ list. list ≡ replicate len []) }
{
    let mut list = List::new(alloc);
    for _place in 0..len {
        list.push(List::new(alloc))?;
    }
    Ok(list)
}

#[tactic(auto, using(crate::proofs::Copies::one_copy_more))]
fn zeros(alloc: Global, len: usize) -> Result<List<u64>, NoMemory>
    ensures { IfOk result (λ list. list ≡ replicate len 0) }
{
    let mut list = List::new(alloc);
    for _place in 0..len {
        list.push(0)?;
    }
    Ok(list)
}

#[tactic(auto, using(crate::proofs::Copies::one_copy_more))]
fn roots(alloc: Global, len: usize) -> Result<List<Path>, NoMemory>
    ensures { IfOk result (λ list. list ≡ replicate len []) }
{
    let mut list = List::new(alloc);
    for _place in 0..len {
        list.push(Path::root(alloc))?;
    }
    Ok(list)
}

#[tactic(auto, using(crate::proofs::Copies::one_copy_more))]
fn no_files(alloc: Global, len: usize) -> Result<List<FileState>, NoMemory>
    ensures { IfOk result (λ list. list ≡ replicate len (file.Unbound 0)) }
{
    let mut list = List::new(alloc);
    for _place in 0..len {
        list.push(FileState::Unbound { generation: 0 })?;
    }
    Ok(list)
}

fn opening_volumes(alloc: Global, shapes: &[VolumeShape]) -> Result<List<VolumeState>, NoMemory>
    ensures { IfOk result (λ volumes. volumes ≡ map opening_volume shapes.now) }
{
    let mut volumes = List::new(alloc);
    for shape in shapes {
        volumes.push(opening_volume(alloc, shape)?)?;
    }
    Ok(volumes)
}

fn opening_volume(alloc: Global, shape: &VolumeShape) -> Result<VolumeState, NoMemory>
    ensures { IfOk result (λ volume. volume ≡ opening_volume shape.now) }
{
    let spare = Vec::from_elem(alloc, true, shape.pages.len())?;
    Ok(VolumeState {
        name: shape.name.copy()?,
        pages: List::from_slice(alloc, shape.pages.as_slice())?,
        spare: List::from_vec(spare),
        kept: List::new(alloc),
    })
}

fn opening_devices(alloc: Global, shapes: &[CharsShape]) -> Result<List<DeviceState>, NoMemory>
    ensures { IfOk result (λ devices. devices ≡ map opening_device shapes.now) }
{
    let mut devices = List::new(alloc);
    for shape in shapes {
        devices.push(opening_device(shape)?)?;
    }
    Ok(devices)
}

fn opening_device(shape: &CharsShape) -> Result<DeviceState, NoMemory>
    ensures { IfOk result (λ device. device ≡ opening_device shape.now) }
{
    Ok(DeviceState {
        name: shape.name.copy()?,
        is_out: false,
    })
}

fn opening_homes(alloc: Global, describe: &Describe) -> Result<Homes, NoMemory>
    ensures { IfOk result (λ homes. homes ≡ record { cells = map empty_cells describe.now.volumes; devices = map opening_home describe.now.chars }) }
{
    Ok(Homes {
        cells: all_cells(alloc, describe.volumes.as_slice())?,
        devices: all_homes(alloc, describe.chars.as_slice())?,
    })
}

fn all_cells(alloc: Global, shapes: &[VolumeShape]) -> Result<List<List<Bytes>>, NoMemory>
    ensures { IfOk result (λ cells. cells ≡ map empty_cells shapes.now) }
{
    let mut cells = List::new(alloc);
    for shape in shapes {
        cells.push(empty_lists(alloc, shape.pages.len())?)?;
    }
    Ok(cells)
}

fn all_homes(alloc: Global, shapes: &[CharsShape]) -> Result<List<DeviceHome>, NoMemory>
    ensures { IfOk result (λ homes. homes ≡ map opening_home shapes.now) }
{
    let mut homes = List::new(alloc);
    for shape in shapes {
        homes.push(opening_home(alloc, shape)?)?;
    }
    Ok(homes)
}

fn opening_home(alloc: Global, shape: &CharsShape) -> Result<DeviceHome, NoMemory>
    ensures { IfOk result (λ home. home ≡ opening_home shape.now) }
{
    let input = match shape.input.as_ref() {
        Some(input) => copy_bytes(alloc, input.as_slice())?,
        None => Bytes::new(alloc),
    };
    Ok(DeviceHome {
        input,
        output: Bytes::new(alloc),
    })
}
