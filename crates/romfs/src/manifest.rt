//! Manifests: the texts that describe roms.

ghost use Rattle.std.specs.Prelude.{◌≡◌, ◌∷◌, ◌++◌, Ok, IfOk, IfErr, OnOk, []};
ghost use Rattle.std.specs.Option.{option_copied};
ghost use Rattle.vfs_base.specs.Path.{printed};
ghost use Rattle.vfs_model.specs.Manifest.{bytes_line, bytes_text, item_text, manifest_text, manifest_tree};
ghost use Rattle.romfs.specs.Manifest.{StopsReading};

use crate::draft::Draft;
use crate::field::first_line;
use crate::rom_tree::RomTree;
use std::alloc::Global;
use thiserror::Error;
use vfs_base::{Bytes, NoMemory, Path, push_printed};

/// Why no rom was read.
#[derive(Clone, Copy, Debug, PartialEq, Eq, Error)]
pub enum ManifestFault {
    /// This line, counted from 1, is the first that is outside the form of a manifest.
    #[error("line {line} of the manifest is not in its form")]
    Line { line: u64 },
    /// No memory for the rom.
    #[error("no memory")]
    NoMemory,
}

impl From<NoMemory> for ManifestFault {
    ghost use Rattle.romfs.specs.declared.manifest.ManifestFault.TheVariants.{NoMemory as WantsMemory};

    ghost from_gives = { λ _ fault. fault ≡ WantsMemory };

    fn from(_: NoMemory) -> ManifestFault {
        ManifestFault::NoMemory
    }
}

/// The rom that the text describes. A folder's line comes before those of what is in it.
///
/// # Errors
/// `Line` where the text is no manifest, with the first line at fault, and `NoMemory`.
pub fn read_manifest(alloc: Global, bytes: &[u8]) -> Result<RomTree, ManifestFault>
    ensures tree { IfOk result (λ tree. manifest_tree bytes.now ≡ Ok tree) }
    ensures fault { IfErr result (StopsReading (manifest_tree bytes.now)) }
{
    let mut draft = Draft::new(alloc);
    let mut number = 0;
    let mut rest = bytes;
    while !rest.is_empty() {
        let (line, after) = first_line(rest);
        number += 1;
        if !draft.take_line(alloc, line)? {
            return Err(ManifestFault::Line { line: number });
        }
        rest = after;
    }
    Ok(RomTree::from_items(draft.into_list(alloc)?))
}

// As many bytes of a file as a line has.
const LINE_BYTES: usize = 500;

/// The canonical form of the texts that describe this rom: the paths in byte order, and behind a
/// file's path its bytes, in lines of 500.
#[tactic(auto, using(crate::proofs::RoundTrip::reads_again))]
pub fn write_manifest(alloc: Global, tree: &RomTree) -> Result<Bytes, NoMemory>
    ensures text { IfOk result (λ text. text ≡ manifest_text tree.now) }
    // What is written is read again as the same rom.
    ensures again { manifest_tree (manifest_text tree.now) ≡ Ok tree.now }
{
    let mut out = Bytes::new(alloc);
    for (path, bytes) in tree.items() {
        push_item(&mut out, alloc, path, bytes.as_ref())?;
    }
    Ok(out)
}

fn push_item(
    out: &mut Bytes,
    alloc: Global,
    path: &Path,
    bytes: Option<&Bytes>,
) -> Result<(), NoMemory>
    ensures { OnOk result (out.new ≡ out.old ++ item_text path.now (option_copied bytes.entry)) }
{
    match bytes {
        None => push_path_line(out, b"d ", path),
        Some(bytes) => {
            push_path_line(out, b"f ", path)?;
            push_bytes(out, alloc, bytes.as_slice())
        }
    }
}

fn push_path_line(out: &mut Bytes, kind: &[u8], path: &Path) -> Result<(), NoMemory>
    ensures { OnOk result (out.new ≡ out.old ++ kind.now ++ printed path.now ++ 10 ∷ []) }
{
    out.extend_from_slice(kind)?;
    push_printed(out, path)?;
    out.push(b'\n')
}

fn push_bytes(out: &mut Bytes, alloc: Global, bytes: &[u8]) -> Result<(), NoMemory>
    ensures { OnOk result (out.new ≡ out.old ++ bytes_text bytes.now) }
{
    for line in bytes.chunks(LINE_BYTES) {
        push_bytes_line(out, alloc, line)?;
    }
    Ok(())
}

fn push_bytes_line(out: &mut Bytes, alloc: Global, bytes: &[u8]) -> Result<(), NoMemory>
    ensures { OnOk result (out.new ≡ out.old ++ bytes_line bytes.now) }
{
    let digits = hex::encode(alloc, bytes)?;
    out.extend_from_slice(b"+ ")?;
    out.extend_from_slice(digits.as_bytes())?;
    out.push(b'\n')
}
