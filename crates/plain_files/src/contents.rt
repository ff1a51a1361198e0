//! The bytes that files begin with that are a rom's.

ghost use Rattle.std.specs.Prelude.{◌≡◌};
ghost use Rattle.std.specs.FinMap.Entries.{find as value_at};
ghost use Rattle.std.specs.Option.{option_copied};
ghost use Rattle.vfs_base.specs.Path.{path_cmp};
ghost use Rattle.vfs_model.specs.Homes.{rom_node_bytes};
ghost use Rattle.plain_files.specs.Contents.{origin_content};

use vfs_base::Path;
use vfs_model::{Origin, RomImage, RomNode};

/// The bytes that a file begins with, if they lie in a rom; else none.
pub fn origin_content<'a>(roms: &'a [RomImage], origin: &Origin) -> &'a [u8]
    ensures { result.now ≡ origin_content roms.now origin.now }
{
    match origin {
        Origin::Rom { rom, path } => match roms.get(*rom) {
            Some(image) => node_bytes(value_at(path, image.nodes.as_slice())),
            None => &[],
        },
        Origin::Empty | Origin::Cell { .. } | Origin::NewCell { .. } | Origin::Device { .. } => &[],
    }
}

fn node_bytes(node: Option<&RomNode>) -> &[u8]
    ensures { result.now ≡ rom_node_bytes (option_copied node.entry) }
{
    match node {
        Some(RomNode::File { bytes }) => bytes.as_slice(),
        Some(RomNode::Dir) | None => &[],
    }
}

// What stands at the path among entries by path.
fn value_at<'a, V>(path: &Path, entries: &'a [(Path, V)]) -> Option<&'a V>
    ensures { option_copied result ≡ value_at path_cmp path.now entries.now }
{
    for entry in entries {
        if path.cmp(&entry.0).is_eq() {
            return Some(&entry.1);
        }
    }
    None
}
