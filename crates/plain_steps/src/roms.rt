//! The roms of a script.

ghost use Rattle.std.specs.Prelude.{◌≡◌, ◌+◌, ◌++◌, ◌∷◌, ◌≤◌, ◌<◌, List, Ok, IfOk, IfErr, OnOk, length, slice_get, option_to_list};
ghost use Rattle.std.specs.Option.{option_copied};
ghost use Rattle.vfs_base.specs.Path.{AllAre};
ghost use Rattle.vfs_base.specs.declared.deck.RomText.{RomText};
ghost use Rattle.vfs_model.specs.ScriptRun.{rom_node};
ghost use Rattle.vfs_model.specs.Sizes.{IsSmallRom};
ghost use Rattle.plain_steps.specs.Opening.{behind, StopsRoms, rom_images, rom_nodes};

use crate::plain_fault::PlainFault;
use romfs::{ManifestFault, RomTree, read_manifest};
use std::alloc::Global;
use vfs_base::{Bytes, List, NoMemory, Path, RomText, copy_bytes};
use vfs_model::{RomImage, RomNode};

/// The roms of a script, in its order.
pub fn rom_images(alloc: Global, texts: &[RomText]) -> Result<List<RomImage>, PlainFault>
    ensures images { IfOk result (λ images. rom_images 0 texts.now ≡ Ok images) }
    ensures small { IfOk result (λ images. AllAre IsSmallRom images) }
    ensures fault { IfErr result (StopsRoms (rom_images 0 texts.now)) }
{
    let mut images = List::new(alloc);
    let mut index = 0;
    for text in texts {
        if let Err(fault) = push_image(&mut images, alloc, text, index) {
            return Err(fault);
        }
        index += 1;
    }
    Ok(images)
}

// Puts the rom that the text means at the end; the text is at this place of a script.
#[tactic(auto, using(crate::proofs::RomTexts::read_on, crate::proofs::RomTexts::stops_here, crate::proofs::RomTexts::small_more))]
fn push_image(
    images: &mut List<RomImage>,
    alloc: Global,
    text: &RomText,
    index: u64,
) -> Result<(), PlainFault>
    ensures ok { OnOk result ((later : List RomText) → behind images.new (rom_images (index + 1) later) ≡ behind images.old (rom_images index (text.now ∷ later))) }
    ensures small { OnOk result (AllAre IsSmallRom images.old → AllAre IsSmallRom images.new) }
    ensures fault { IfErr result (λ fault. (later : List RomText) → StopsRoms (behind images.old (rom_images index (text.now ∷ later))) fault) }
{
    match read_manifest(alloc, text.manifest.as_slice()) {
        Ok(tree) => {
            images.push(rom_image(alloc, text, &tree)?)?;
            Ok(())
        }
        Err(ManifestFault::Line { .. }) => Err(PlainFault::BadRom { index }),
        Err(ManifestFault::NoMemory) => Err(PlainFault::NoMemory),
    }
}

fn rom_image(alloc: Global, text: &RomText, tree: &RomTree) -> Result<RomImage, NoMemory>
    ensures image { IfOk result (λ image. image ≡ record { name = text.now.name; nodes = rom_nodes tree.now }) }
    ensures small { IfOk result IsSmallRom }
{
    let nodes = rom_nodes(alloc, tree)?;
    Ok(RomImage {
        name: text.name.copy()?,
        nodes,
    })
}

#[tactic(auto, using(crate::proofs::RomTexts::node_more))]
fn rom_nodes(alloc: Global, tree: &RomTree) -> Result<List<(Path, RomNode)>, NoMemory>
    ensures nodes { IfOk result (λ nodes. nodes ≡ rom_nodes tree.now) }
    ensures small { IfOk result (λ nodes. length nodes ≤ 4096) }
{
    let mut nodes = List::new(alloc);
    for place in 0..tree.len() {
        push_node(&mut nodes, alloc, tree, place)?;
    }
    Ok(nodes)
}

// Puts the node at the place of the tree, which it has, at the end.
#[tactic(auto, using(crate::proofs::RomTexts::node_at_place))]
fn push_node(
    nodes: &mut List<(Path, RomNode)>,
    alloc: Global,
    tree: &RomTree,
    place: usize,
) -> Result<(), NoMemory>
    requires { place < length tree.now }
    ensures { OnOk result (nodes.new ≡ nodes.old ++ rom_nodes (option_to_list (slice_get tree.now place))) }
{
    let Some(path) = tree.path_at(place) else {
        unreachable!();
    };
    let node = copy_node(alloc, tree.bytes_at(place))?;
    nodes.push((path.copy()?, node))
}

fn copy_node(alloc: Global, bytes: Option<&Bytes>) -> Result<RomNode, NoMemory>
    ensures { IfOk result (λ node. node ≡ rom_node (option_copied bytes.entry)) }
{
    match bytes {
        None => Ok(RomNode::Dir),
        Some(bytes) => Ok(RomNode::File {
            bytes: copy_bytes(alloc, bytes.as_slice())?,
        }),
    }
}
