//! The plain world: one step of it, and the marks that a step may have.

ghost use Rattle.std.specs.Prelude.{◌≡◌, false, true, None, IfOk, IfErr, OnOk, OnErr, map};
ghost use Rattle.vfs_model.specs.Homes.{opening_world};
ghost use Rattle.vfs_model.specs.NamespaceStep.{fits_namespace, is_shutdown, namespace_step};
ghost use Rattle.vfs_model.specs.ScriptRun.{first_bad_rom, rom_image};
ghost use Rattle.vfs_model.specs.StepForms.{MayTake, TellsFolder};
ghost use Rattle.vfs_model.specs.World.{FitsStep, fits_step, namespace_part, session_of, step_row, world_step};
ghost use Rattle.vfs_model.specs.Gives.{Gives};
ghost use Rattle.plain_steps.specs.Opening.{HasFewCellsEach, StopsOpening, is_untold};
ghost use Rattle.vfs_model.specs.Sizes.{IsSized};
ghost use Rattle.plain_nodes.specs.WorldAnswer.{leaving, world_answer};

use crate::plain_fault::PlainFault;
use crate::roms::rom_images;
use crate::start::opening_world;
use plain_files::{fits_row, step_row};
use plain_mounts::{may_umount, mkfs_in, mount_in, shut_down, umount_in};
use plain_names::{
    chdir_in, close_in, cwd_in, home_in, list_in, map_in, mkdir_in, open_in, rename_in, rmdir_in,
    stat_in, unlink_in, unmap_in,
};
use plain_reports::{cells_in, dentries_in, devices_in, mounts_in};
use std::alloc::Global;
use std::marker::Model;
use vfs_base::{Deck, Describe, Errno, Mark, NoMemory, Reply, RowId, SessionId, Step, Who};
use vfs_model::{Stop, WorldState};

/// The plain world over flat lists: mounts, trees, files by row, and what lies at home.
pub struct PlainWorld {
    pub(crate) world: WorldState,
}

// By hand, so that whoever lets a world go makes one call.
impl Drop for PlainWorld {
    fn drop(self) {
        let PlainWorld { world } = self;
        drop(world);
    }
}

impl Model for PlainWorld {
    ghost use Rattle.vfs_model.specs.declared.world.WorldState.{WorldState};
    ghost use Rattle.vfs_model.specs.Sizes.{IsSized};

    ghost Value = { WorldState };

    ghost view = { λ plain. plain.world };

    ghost invariant = { λ plain. IsSized plain.world.namespace };
}

impl PlainWorld {
    /// The world of a script at the start: its roms are read, nothing is mounted but `/`, and each
    /// device is at home. A volume has at most 1024 cells.
    ///
    /// # Errors
    /// `BadRom` with the first rom, counted from 0, whose manifest is not in its form; else `Untold`
    /// where a character device does not tell its input; `NoMemory`.
    #[tactic(auto, using(vfs_model::proofs::SizedStart::sized_start, crate::proofs::RomLists::none_bad, crate::proofs::RomLists::one_bad), unfolding(vfs_model::specs::Homes::opening_world))]
    pub fn open(alloc: Global, deck: &Deck, describe: &Describe) -> Result<PlainWorld, PlainFault>
        requires { HasFewCellsEach describe.now }
        ensures opens { IfOk result (λ world. world ≡ opening_world (map rom_image deck.now.roms) describe.now) }
        ensures roms { OnOk result (first_bad_rom deck.now ≡ None) }
        ensures told { OnOk result (is_untold describe.now ≡ false) }
        ensures fault { IfErr result (StopsOpening deck.now describe.now) }
    {
        let roms = match rom_images(alloc, deck.roms.as_slice()) {
            Ok(roms) => roms,
            Err(fault) => return Err(fault),
        };
        if is_untold(describe) {
            return Err(PlainFault::Untold);
        }
        let world = opening_world(alloc, roms, describe)?;
        Ok(PlainWorld { world })
    }

    /// One step, with a mark that it may have; any step of a session, and of others a file's step, the
    /// worker's or the end's. A folder that the reply tells has at most 1024 printed bytes. An `Err` is
    /// want of memory, and then nothing has changed.
    #[tactic(auto, unfolding(vfs_model::specs::World::world_step, vfs_model::specs::World::fits_step))]
    pub fn step(
        &mut self,
        alloc: Global,
        who: Who,
        step: &Step,
        mark: Mark,
    ) -> Result<Reply, NoMemory>
        requires asks { MayTake who step.now }
        requires fits { FitsStep self.old who step.now mark }
        ensures ok { IfOk result (λ reply. world_step self.old who step.now mark ≡ leaving self.new reply) }
        ensures folder { IfOk result TellsFolder }
        ensures err { OnErr result (self.new ≡ self.old) }
    {
        match row_of(step) {
            Some(row) => step_row(&mut self.world, alloc, row, step, mark),
            None => step_namespace(&mut self.world, alloc, who, step, mark),
        }
    }

    /// Whether the step may have the mark.
    #[tactic(auto, unfolding(vfs_model::specs::World::fits_step))]
    pub fn fits(&self, alloc: Global, who: Who, step: &Step, mark: Mark) -> Result<bool, NoMemory>
        requires { MayTake who step.now }
        ensures { IfOk result (λ fits. fits ≡ fits_step self.now who step.now mark) }
    {
        match row_of(step) {
            Some(row) => Ok(fits_row(&self.world, row, step, mark)),
            None => fits_namespace(&self.world, alloc, who, step, mark),
        }
    }
}

// Whether a character device does not tell its input.
fn is_untold(describe: &Describe) -> bool
    ensures { result ≡ is_untold describe.now }
{
    let shapes = describe.chars.as_slice();
    shapes.iter().any(|shape| shape.input.is_none())
}

// The row of a file's step or of the worker's.
fn row_of(step: &Step) -> Option<RowId>
    ensures { result ≡ step_row step.now }
{
    match step {
        Step::Size { file }
        | Step::Read { file, .. }
        | Step::Write { file, .. }
        | Step::Append { file, .. }
        | Step::Trunc { file, .. }
        | Step::Sync { file }
        | Step::Load { file, .. }
        | Step::Store { file, .. } => Some(file.row),
        Step::Flush { row } | Step::Reclaim { row } => Some(*row),
        _ => None,
    }
}

fn is_shutdown(step: &Step) -> bool
    ensures { result ≡ is_shutdown step.now }
{
    matches!(step, Step::Shutdown)
}

#[tactic(auto, using(crate::proofs::WorldSteps::asked_by_session))]
fn step_namespace(
    world: &mut WorldState,
    alloc: Global,
    who: Who,
    step: &Step,
    mark: Mark,
) -> Result<Reply, NoMemory>
    requires sized { IsSized world.old.namespace }
    requires asks { MayTake who step.now }
    requires row { step_row step.now ≡ None }
    ensures ok { IfOk result (λ reply. namespace_part world.old (namespace_step world.old.namespace (session_of who) step.now mark) step.now ≡ leaving world.new reply) }
    ensures err { OnErr result (world.new ≡ world.old) }
{
    if is_shutdown(step) {
        return shut_down(world, alloc, mark);
    }
    let Who::Session { k } = who else {
        unreachable!();
    };
    session_step(world, alloc, k, step, mark)
}

// A step that a session asks, under a mark.
#[tactic(auto, using(crate::proofs::WorldSteps::clear_done, crate::proofs::WorldSteps::clear_refused, crate::proofs::WorldSteps::fault_refused, crate::proofs::WorldSteps::want_refused))]
fn session_step(
    world: &mut WorldState,
    alloc: Global,
    session: SessionId,
    step: &Step,
    mark: Mark,
) -> Result<Reply, NoMemory>
    requires sized { IsSized world.old.namespace }
    requires goes_on { is_shutdown step.now ≡ false }
    ensures ok { IfOk result (λ reply. namespace_part world.old (namespace_step world.old.namespace session step.now mark) step.now ≡ leaving world.new reply) }
    ensures err { OnErr result (world.new ≡ world.old) }
{
    match mark {
        Mark::Clear => match take_step(world, alloc, session, step) {
            Ok(reply) => Ok(reply),
            Err(Stop::Refusal(errno)) => Ok(Reply::Refused { errno }),
            Err(Stop::NoMemory) => Err(NoMemory),
        },
        Mark::Fault { .. } => Ok(Reply::Refused { errno: Errno::EIO }),
        Mark::NoMem { .. } => Ok(Reply::Refused {
            errno: Errno::ENOMEM,
        }),
    }
}

fn take_step(
    world: &mut WorldState,
    alloc: Global,
    session: SessionId,
    step: &Step,
) -> Result<Reply, Stop>
    requires sized { IsSized world.old.namespace }
    ensures told { Gives (leaving world.new) result (world_answer world.old session step.now) }
    ensures err { OnErr result (world.new ≡ world.old) }
{
    match step {
        Step::Stat { path } => stat_in(world, alloc, session, path),
        Step::Open { path, flags } => open_in(world, alloc, session, path, *flags),
        Step::Close { hold } => close_in(world, session, hold),
        Step::Mkdir { path } => mkdir_in(world, alloc, session, path),
        Step::Rmdir { path } => rmdir_in(world, alloc, session, path),
        Step::Unlink { path } => unlink_in(world, alloc, session, path),
        Step::Rename { old, new } => rename_in(world, alloc, session, old, new),
        Step::List { path } => list_in(world, alloc, session, path),
        Step::Chdir { path } => chdir_in(world, alloc, session, path),
        Step::Home => Ok(home_in(world, session)),
        Step::Cwd => cwd_in(world, alloc, session),
        Step::Mount { source, point, fs } => mount_in(world, alloc, session, source, point, fs),
        Step::Umount { point } => umount_in(world, alloc, session, point),
        Step::Map { hold } => map_in(world, session, hold),
        Step::Unmap { hold } => unmap_in(world, session, hold),
        Step::Mounts => mounts_in(world, alloc, session),
        Step::Dentries => dentries_in(world, alloc, session),
        Step::Cells => cells_in(world, alloc, session),
        Step::Mkfs { name } => mkfs_in(world, alloc, session, name),
        Step::Devices => devices_in(world, alloc, session),
        _ => Err(Stop::Refusal(Errno::EINVAL)),
    }
}

// Whether a step of the namespace may have the mark.
#[tactic(auto, using(crate::proofs::WorldSteps::asked_by_session))]
fn fits_namespace(
    world: &WorldState,
    alloc: Global,
    who: Who,
    step: &Step,
    mark: Mark,
) -> Result<bool, NoMemory>
    requires asks { MayTake who step.now }
    requires row { step_row step.now ≡ None }
    ensures { IfOk result (λ fits. fits ≡ fits_namespace world.now.namespace (session_of who) step.now mark) }
{
    match mark {
        Mark::Clear => Ok(true),
        Mark::NoMem { n } => Ok(n == 0),
        Mark::Fault { n } => match step {
            Step::Shutdown => Ok(n == 0),
            Step::Umount { point } => {
                let Who::Session { k } = who else {
                    unreachable!();
                };
                let may = may_umount(&world.namespace, alloc, k, point)?;
                Ok(n == 0 && may)
            }
            _ => Ok(false),
        },
    }
}
