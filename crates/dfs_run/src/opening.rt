//! The stage of a script at the start, over the plain world.

ghost use Rattle.std.specs.Prelude.{◌≡◌, [], ◌∷◌, IfOk, OnErr};
ghost use Rattle.script_stage.specs.Scenes.{Script};
ghost use Rattle.script_stage.specs.Standing.{Opens, StandsAt};
ghost use Rattle.step_world.specs.WorldView.{view_of};
ghost use Rattle.vfs_model.specs.DeckLaws.{IsScript};
ghost use Rattle.vfs_model.specs.Turns.{script_tasks};
ghost use Rattle.dfs_run.specs.Opening.{IsTold, plainly};
ghost use Rattle.dfs_run.specs.Standing.{StandsBehind};

use plain_steps::{PlainFault, PlainWorld};
use script_stage::Stage;
use std::alloc::Global;
use vfs_base::{Deck, Describe, List, NoMemory};

/// The stage of a script, before any line is posted.
pub fn open_stage(
    alloc: Global,
    deck: &Deck,
    describe: &Describe,
) -> Result<Stage<PlainWorld>, NoMemory>
    requires script { IsScript deck.now }
    requires told { IsTold describe.now }
    ensures { IfOk result (λ stage. StandsAt stage (plainly deck.now describe.now) (script_tasks deck.now) []) }
{
    let world = open_world(alloc, deck, describe)?;
    Stage::new(alloc, world)
}

/// The stage of a shell, before its first line.
pub fn open_shell(alloc: Global, describe: &Describe) -> Result<Stage<PlainWorld>, NoMemory>
    requires { IsTold describe.now }
    ensures { IfOk result (λ stage. StandsBehind stage (plainly (record { roms = []; acts = [] }) describe.now) [] []) }
{
    let deck = Deck {
        roms: List::new(alloc),
        acts: List::new(alloc),
    };
    let world = open_world(alloc, &deck, describe)?;
    Stage::new(alloc, world)
}

// The plain world of a script at the start.
fn open_world(alloc: Global, deck: &Deck, describe: &Describe) -> Result<PlainWorld, NoMemory>
    requires script { IsScript deck.now }
    requires told { IsTold describe.now }
    ensures { IfOk result (λ world. Opens (plainly deck.now describe.now) (view_of world)) }
{
    match PlainWorld::open(alloc, deck, describe) {
        Ok(world) => Ok(world),
        Err(PlainFault::NoMemory) => Err(NoMemory),
        Err(PlainFault::BadRom { index: _ }) => unreachable!(),
        Err(PlainFault::Untold) => unreachable!(),
        Err(PlainFault::NoSchedule { at: _ }) => unreachable!(),
    }
}
