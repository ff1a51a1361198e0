//! Changes of rows, made in the world.

ghost use Rattle.std.specs.Prelude.{◌≡◌, fold, map, true};
ghost use Rattle.std.specs.List.{list_all};
ghost use Rattle.vfs_model.specs.Homes.{change_row};
ghost use Rattle.plain_nodes.specs.Changes.{brings_no_bytes, brings_nothing, row_change, row_changes};
ghost use Rattle.plain_nodes.specs.Contents.{change_content, contents_of};

use crate::changes::Change;
use plain_files::{bind_file, free_file};
use vfs_base::{Bytes, List};
use vfs_model::WorldState;

/// Makes the change, if there is one. It brings no bytes from a rom.
pub fn apply(world: &mut WorldState, change: Option<Change>)
    requires { brings_nothing change ≡ true }
    ensures next { world.new ≡ fold change_row world.old (row_changes change) }
    ensures namespace { world.new.namespace ≡ world.old.namespace }
{
    match change {
        None => {}
        Some(change) => apply_change(world, &change),
    }
}

#[tactic(auto, using(crate::proofs::Contents::no_bytes_brought))]
fn apply_change(world: &mut WorldState, change: &Change)
    requires { brings_no_bytes change.now ≡ true }
    ensures next { world.new ≡ change_row world.old (row_change change.now) }
    ensures namespace { world.new.namespace ≡ world.old.namespace }
{
    let nothing = world.files.empty_like();
    bring(world, change, nothing);
}

/// Makes the changes, in their order. They bring no bytes from a rom.
pub fn apply_all(world: &mut WorldState, changes: &List<Change>)
    requires { list_all brings_no_bytes changes.now ≡ true }
    ensures next { world.new ≡ fold change_row world.old (map row_change changes.now) }
    ensures namespace { world.new.namespace ≡ world.old.namespace }
{
    let changes = changes.as_slice();
    for change in changes {
        apply_change(world, change);
    }
}

/// Makes the changes, in their order. For each change the contents have the bytes that it brings
/// from a rom, in memory of their own, so that nothing can fail.
pub fn apply_with(world: &mut WorldState, changes: &List<Change>, mut contents: List<Bytes>)
    requires { contents ≡ contents_of world.old.namespace.roms (map row_change changes.now) }
    ensures next { world.new ≡ fold change_row world.old (map row_change changes.now) }
    ensures namespace { world.new.namespace ≡ world.old.namespace }
{
    let changes = changes.as_slice();
    for place in 0..changes.len() {
        let nothing = contents.empty_like();
        let content = contents.replace(place, nothing);
        bring(world, &changes[place], content);
    }
}

fn bring(world: &mut WorldState, change: &Change, content: Bytes)
    requires { content ≡ change_content world.old.namespace.roms (row_change change.now) }
    ensures next { world.new ≡ change_row world.old (row_change change.now) }
    ensures namespace { world.new.namespace ≡ world.old.namespace }
{
    match change {
        Change::Bind {
            row,
            generation,
            origin,
        } => bind_file(world, *row, *generation, origin, content),
        Change::Free {
            row,
            generation,
            end,
        } => free_file(world, *row, *generation, end),
    }
}
