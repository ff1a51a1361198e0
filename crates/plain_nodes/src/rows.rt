//! Rows: which are free, how they are bound and freed, and what keeps a file alive.

ghost use Rattle.std.specs.Prelude.{true, ◌≡◌, ◌+◌, ◌<◌, ◌≤◌, is_none, nat_lt, IfSome, slice_index_or, slice_set};
ghost use Rattle.vfs_base.specs.declared.limits.TheConstants.{ROWS};
ghost use Rattle.vfs_model.specs.FileLife.{Rows, after_end, after_taking, backing_of, bind_row, end_of_dropped, free_if_unused, has_row, no_device, no_volume, with_spare_cell, is_file_of_row, is_free_row, is_held, is_linked, least_free_row, refers_to};
ghost use Rattle.vfs_model.specs.Namespace.{file_of, generation_at, life_at};
ghost use Rattle.vfs_model.specs.declared.namespace.RowChange.TheVariants as change;
ghost use Rattle.plain_nodes.specs.Changes.{brings_nothing, freed, row_change, row_changes};
ghost use Rattle.plain_nodes.specs.Rows.{RowsMatch, first_free};

use crate::changes::Change;
use vfs_base::{FileId, Generation, List, NodeKind, Path, ROWS, RowId};
use vfs_model::{Backing, DeviceState, End, LiveFile, Namespace, Reference, VolumeState};

/// The generation of a row.
pub fn generation_at(namespace: &Namespace, row: RowId) -> u64
    ensures { result ≡ generation_at namespace.now row }
{
    let place = row.place();
    match namespace.generations.as_slice().get(place) {
        Some(generation) => *generation,
        None => 0,
    }
}

/// The least free row, if one is free. Its generation has a next one.
#[tactic(auto, using(crate::proofs::FreeRows::least_row_has_room))]
pub fn least_free_row(namespace: &Namespace) -> Option<RowId>
    requires { RowsMatch namespace.now }
    ensures some { IfSome result (λ row. row ≡ least_free_row namespace.now) }
    ensures none { is_none result ≡ nat_lt ROWS (least_free_row namespace.now) }
    ensures room { IfSome result (λ row. generation_at namespace.now row < 18446744073709551615) }
{
    row_at(first_free(
        namespace.live_files.as_slice(),
        namespace.generations.as_slice(),
    ))
}

/// The file of a row in this generation.
pub fn file_of(row: RowId, generation: u64) -> FileId
    requires { 1 ≤ generation }
    ensures { result ≡ record { row = row; generation = generation } }
{
    let Some(generation) = Generation::new(generation) else {
        unreachable!();
    };
    FileId { row, generation }
}

// The row at this place, counted from 0.
fn row_at(place: usize) -> Option<RowId>
    ensures some { IfSome result (λ row. row ≡ place + 1) }
    ensures none { is_none result ≡ nat_lt ROWS (place + 1) }
{
    if place < ROWS as usize {
        RowId::new(place as u16 + 1)
    } else {
        None
    }
}

fn first_free(live_files: &[Option<LiveFile>], generations: &[u64]) -> usize
    ensures { result ≡ first_free live_files.now generations.now }
{
    let mut later = generations;
    let mut place = 0;
    for life in live_files {
        let [generation, rest @ ..] = later else {
            return place;
        };
        if is_free_row(life, *generation) {
            return place;
        }
        later = rest;
        place += 1;
    }
    place
}

/// Whether the row has no file, and a generation left.
pub fn is_free_row(life: &Option<LiveFile>, generation: u64) -> bool
    ensures { result ≡ is_free_row life.now generation }
{
    life.is_none() && generation < u64::MAX
}

/// Whether the file of this row stands at a path.
pub fn is_linked(namespace: &Namespace, row: RowId) -> bool
    ensures { result ≡ is_linked namespace.now row }
{
    let trees = namespace.trees.as_slice();
    trees.iter().any(|tree| has_row(row, tree.as_slice()))
}

fn has_row(row: RowId, tree: &[(Path, NodeKind)]) -> bool
    ensures { result ≡ has_row row tree.now }
{
    tree.iter().any(|entry| is_file_of_row(row, entry.1))
}

/// Whether the node is the file of this row.
pub fn is_file_of_row(row: RowId, node: NodeKind) -> bool
    ensures { result ≡ is_file_of_row row node }
{
    match node {
        NodeKind::Dir => false,
        NodeKind::File { file, .. } => file.row.number() == row.number(),
    }
}

/// Whether a reference names the file of this row.
pub fn is_held(namespace: &Namespace, row: RowId) -> bool
    ensures { result ≡ is_held namespace.now row }
{
    let references = namespace.references.as_slice();
    references.iter().any(|reference| refers_to(row, reference))
}

fn refers_to(row: RowId, reference: &Option<Reference>) -> bool
    ensures { result ≡ refers_to row reference.now }
{
    match reference {
        None => false,
        Some(reference) => reference.file.row.number() == row.number(),
    }
}

/// Binds the row, which is free, to this live file.
#[tactic(auto, unfolding(vfs_model::specs::FileLife::bind_row))]
pub fn bind_row(namespace: &mut Namespace, row: RowId, life: LiveFile)
    requires { generation_at namespace.old row < 18446744073709551615 }
    ensures next { namespace.new ≡ bind_row namespace.old row life }
{
    let place = row.place();
    let generation = generation_at(namespace, row) + 1;
    let backing = copy_backing(&life.backing);
    namespace.live_files.set(place, Some(life));
    namespace.generations.set(place, generation);
    take_backing(namespace, &backing);
}

fn copy_backing(backing: &Backing) -> Backing
    ensures { result ≡ backing.now }
{
    match backing {
        Backing::Memory => Backing::Memory,
        Backing::Cell { volume, cell } => Backing::Cell {
            volume: *volume,
            cell: *cell,
        },
        Backing::Device { device } => Backing::Device { device: *device },
    }
}

// A live file takes what it lies on.
fn take_backing(namespace: &mut Namespace, backing: &Backing)
    ensures { namespace.new ≡ after_taking namespace.old backing.now }
{
    match backing {
        Backing::Memory => {}
        Backing::Cell { volume, cell } => {
            set_spare(&mut namespace.volumes, *volume, *cell, false);
        }
        Backing::Device { device } => set_out(&mut namespace.devices, *device, true),
    }
}

// What lay on something comes to its end.
fn give_back(namespace: &mut Namespace, end: &End)
    ensures { namespace.new ≡ after_end namespace.old end.now }
{
    match end {
        End::Nothing | End::Kept { .. } => {}
        End::Spare { volume, cell } => {
            set_spare(&mut namespace.volumes, *volume, *cell, true);
        }
        End::Device { device } => set_out(&mut namespace.devices, *device, false),
    }
}

fn set_spare(volumes: &mut List<VolumeState>, volume: usize, cell: usize, is_spare: bool)
    ensures { volumes.new ≡ slice_set volumes.old volume
        (with_spare_cell is_spare cell (slice_index_or volumes.old volume no_volume)) }
{
    let volumes = volumes.as_mut_slice();
    if volume < volumes.len() {
        volumes[volume].spare.set(cell, is_spare);
    }
}

fn set_out(devices: &mut List<DeviceState>, device: usize, is_out: bool)
    ensures { devices.new ≡ slice_set devices.old device
        (record (slice_index_or devices.old device no_device) { is_out = is_out }) }
{
    let devices = devices.as_mut_slice();
    if device < devices.len() {
        devices[device].is_out = is_out;
    }
}

/// Frees the row, whose file comes to this end. The row keeps its generation.
pub fn free_row(namespace: &mut Namespace, row: RowId, end: End) -> Change
    ensures next { namespace.new ≡ freed namespace.old row end }
    ensures told { row_change result ≡ change.Free (file_of namespace.old row) end }
{
    let generation = generation_at(namespace, row);
    let place = row.place();
    namespace.live_files.set(place, None);
    give_back(namespace, &end);
    Change::Free {
        row,
        generation,
        end,
    }
}

/// What becomes of the row's file when it is neither linked nor held any more.
pub fn end_of_dropped(namespace: &Namespace, row: RowId) -> End
    ensures { result ≡ end_of_dropped (backing_of (life_at namespace.now row)) }
{
    let place = row.place();
    match namespace.live_files.as_slice().get(place) {
        Some(Some(life)) => end_of_backing(&life.backing),
        Some(None) => End::Nothing,
        None => End::Nothing,
    }
}

fn end_of_backing(backing: &Backing) -> End
    ensures { result ≡ end_of_dropped backing.now }
{
    match backing {
        Backing::Memory => End::Nothing,
        Backing::Cell { volume, cell } => End::Spare {
            volume: *volume,
            cell: *cell,
        },
        Backing::Device { device } => End::Device { device: *device },
    }
}

/// Frees the row unless its file is linked or held.
#[tactic(auto, unfolding(vfs_model::specs::FileLife::free_if_unused, vfs_model::specs::FileLife::free_row))]
pub fn free_if_unused(namespace: &mut Namespace, row: RowId) -> Option<Change>
    ensures next { free_if_unused namespace.old row
        ≡ record { next = namespace.new; changes = row_changes result } }
    ensures plain { brings_nothing result ≡ true }
{
    if is_linked(namespace, row) || is_held(namespace, row) {
        return None;
    }
    let end = end_of_dropped(namespace, row);
    Some(free_row(namespace, row, end))
}
