//! Paths of the cases, by their printed text.

use std::alloc::Global;
use vfs_base::{Name, NoMemory, Path, copy_bytes};

/// The path that a text such as `/a/b` names; parts that are no names are left out.
pub fn path_at(alloc: Global, text: &str) -> Result<Path, NoMemory> {
    let mut path = Path::root(alloc);
    for part in text.as_bytes().split(|&byte| byte == b'/') {
        push_part(alloc, &mut path, part)?;
    }
    Ok(path)
}

// Goes down by one part.
fn push_part(alloc: Global, path: &mut Path, part: &[u8]) -> Result<(), NoMemory> {
    if let Some(name) = Name::from_bytes(copy_bytes(alloc, part)?) {
        path.push(name)?;
    }
    Ok(())
}

/// The text of an entry by its number in a folder.
pub fn numbered(alloc: Global, folder: &str, at: u32) -> Result<String, NoMemory> {
    Ok(format!(in alloc; "{folder}/{at}")?)
}

/// One folder `d` further down.
pub fn go_down(alloc: Global, path: &mut Path) -> Result<(), NoMemory> {
    push_part(alloc, path, b"d")
}
