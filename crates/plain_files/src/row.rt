//! One step of the file of one row.

ghost use Rattle.std.specs.Prelude.{◌≡◌, true, IfOk, OnErr};
ghost use Rattle.vfs_model.specs.FileMoves.{file_step, fits_file};
ghost use Rattle.vfs_model.specs.Homes.{file_at};
ghost use Rattle.vfs_model.specs.World.{file_part};

use crate::step::{fits_file, step_file};
use std::alloc::Global;
use vfs_base::{Mark, NoMemory, Reply, RowId, Step};
use vfs_model::{FileState, WorldState};

/// Whether a step of the row's file may have the mark.
pub fn fits_row(world: &WorldState, row: RowId, step: &Step, mark: Mark) -> bool
    ensures { result ≡ fits_file (file_at world.now row) step.now mark }
{
    match world.files.as_slice().get(row.place()) {
        Some(file) => fits_file(file, step, mark),
        None => fits_file(&FileState::Unbound { generation: 0 }, step, mark),
    }
}

/// One step of the row's file, with a mark that it may have.
///
/// Want of memory is answered only where the plain bytes themselves find none; everything is then as
/// it was.
#[tactic(auto, using(crate::proofs::PlaceLemmas::replacing))]
pub fn step_row(
    world: &mut WorldState,
    alloc: Global,
    row: RowId,
    step: &Step,
    mark: Mark,
) -> Result<Reply, NoMemory>
    requires { fits_file (file_at world.old row) step.now mark ≡ true }
    ensures ok { IfOk result (λ reply. file_part world.old row (file_step (file_at world.old row) step.now mark)
        ≡ record { reply = reply; next = world.new }) }
    ensures err { OnErr result (world.new ≡ world.old) }
{
    let place = row.place();
    let nothing = FileState::Unbound { generation: 0 };
    let mut file = world.files.replace(place, nothing);
    let taken = step_file(&mut file, alloc, step, mark);
    world.files.set(place, file);
    taken
}
