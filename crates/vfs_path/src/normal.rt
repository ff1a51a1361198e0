ghost use Rattle.std.specs.Prelude.{◌≡◌, ◌↔◌, ◌≤◌, true, false, fold, length, IfOk, OnOk, Ok, Err, IsErrOf};
ghost use Rattle.std.specs.List.{list_any, list_all};
ghost use Rattle.vfs_base.specs.Name.{is_name_byte};
ghost use Rattle.vfs_model.specs.NormalPath.{after_part, is_long_part, is_long_path, is_zero, normal_path, parts_of, start_of, Empty, BadByte, NameTooLong, PathTooLong};

use crate::path_fault::PathFault;
use std::alloc::Global;
use vfs_base::{NAME_MAX, Name, NoMemory, PATH_MAX, Path, copy_bytes};

/// The path that a text names from the folder on.
///
/// The text is a list of parts with `/` between them. They are taken in order, from `/` where the
/// text begins with `/`, and else from the folder: an empty part and `.` do nothing, `..` goes up
/// and does nothing at `/`, any other part goes down to the entry of that name.
///
/// Of several faults the first of these comes: Empty for a text of no byte; BadByte for a zero byte
/// in it; PathTooLong for more than 1024 bytes; NameTooLong for a part of more than 255 bytes, be it
/// one that a later `..` removes; PathTooLong for a path whose printed form is longer than 1024
/// bytes. NoMemory may come in place of the last one and of the path.
pub fn normalise(alloc: Global, folder: &Path, text: &[u8]) -> Result<Path, PathFault>
    ensures path { IfOk result (λ path. normal_path folder.now text.now ≡ Ok path) }
    ensures empty { IsErrOf result PathFault.Empty ↔ (normal_path folder.now text.now ≡ Err Empty) }
    ensures bad_byte { IsErrOf result PathFault.BadByte
        ↔ (normal_path folder.now text.now ≡ Err BadByte) }
    ensures name_too_long { IsErrOf result PathFault.NameTooLong
        ↔ (normal_path folder.now text.now ≡ Err NameTooLong) }
    ensures path_too_long { IsErrOf result PathFault.PathTooLong
        → normal_path folder.now text.now ≡ Err PathTooLong }
    ensures no_memory { IsErrOf result PathFault.NoMemory → length text.now ≤ PATH_MAX }
{
    if text.is_empty() {
        return Err(PathFault::Empty);
    }
    if text.contains(&0) {
        return Err(PathFault::BadByte);
    }
    if PATH_MAX < text.len() {
        return Err(PathFault::PathTooLong);
    }
    if has_long_part(text) {
        return Err(PathFault::NameTooLong);
    }
    let path = take_parts(alloc, start(alloc, folder, text)?, text)?;
    if is_long(&path) {
        return Err(PathFault::PathTooLong);
    }
    Ok(path)
}

fn has_long_part(text: &[u8]) -> bool
    ensures { result ≡ list_any is_long_part (parts_of text.now) }
{
    text.split(|&byte| byte == b'/')
        .any(|part| NAME_MAX < part.len())
}

// The path at which the parts of the text start.
fn start(alloc: Global, folder: &Path, text: &[u8]) -> Result<Path, NoMemory>
    ensures { IfOk result (λ path. path ≡ start_of folder.now text.now) }
{
    if text.first() == Some(&b'/') {
        Ok(Path::root(alloc))
    } else {
        folder.copy()
    }
}

// The path to which the parts of the text lead from this one.
fn take_parts(alloc: Global, mut path: Path, text: &[u8]) -> Result<Path, NoMemory>
    requires no_zero { list_any is_zero text.now ≡ false }
    requires short { list_any is_long_part (parts_of text.now) ≡ false }
    ensures { IfOk result (λ end. end ≡ fold after_part path (parts_of text.now)) }
{
    for part in text.split(|&byte| byte == b'/') {
        take_part(alloc, &mut path, part)?;
    }
    Ok(path)
}

fn take_part(alloc: Global, path: &mut Path, part: &[u8]) -> Result<(), NoMemory>
    requires clean { list_all is_name_byte part.now ≡ true }
    requires short { is_long_part part.now ≡ false }
    ensures { OnOk result (path.new ≡ after_part path.old part.now) }
{
    if part.is_empty() || part == b".".as_slice() {
        return Ok(());
    }
    if part == b"..".as_slice() {
        let _left = path.pop();
        return Ok(());
    }
    let name = Name::from_bytes(copy_bytes(alloc, part)?);
    path.push(name.unwrap())
}

// Whether the printed form is longer than a caller may ask for.
fn is_long(path: &Path) -> bool
    ensures { result ≡ is_long_path path.now }
{
    let mut room = PATH_MAX;
    for name in path.as_names() {
        let Some(left) = room.checked_sub(1 + name.as_bytes().len()) else {
            return true;
        };
        room = left;
    }
    false
}
