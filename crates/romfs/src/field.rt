//! The lines of a manifest, and their fields.

ghost use Rattle.std.specs.Prelude.{◌≡◌, ◌==◌, ◌<◌, ◌∷◌, length, IfOk, Some, None, if◌then◌else◌};
ghost use Rattle.std.specs.List.{list_all, list_any, position, before_first, after_first};
ghost use Rattle.std.specs.Option.{option_copied};
ghost use Rattle.vfs_model.specs.Manifest.{rom_path, rom_bytes};
ghost use Rattle.vfs_model.specs.NormalPath.{parts_of};
ghost use Rattle.vfs_model.specs.Rom.{is_rom_byte, is_rom_name};
ghost use Rattle.vfs_model.specs.Script.{input_lines, without_return};

use hex::FromHexError;
use std::alloc::Global;
use vfs_base::{Bytes, Name, NoMemory, PATH_MAX, Path, copy_bytes};

/// The bytes before the first byte of this value, and those behind it, where there is one.
pub(crate) fn split_once(bytes: &[u8], value: u8) -> (&[u8], Option<&[u8]>)
    ensures before { result.0.now ≡ before_first (λ byte. byte == value) bytes.now }
    ensures after { option_copied result.1 ≡ if list_any (λ byte. byte == value) bytes.now
        then Some (after_first (λ byte. byte == value) bytes.now) else None }
{
    match place_of(bytes, value) {
        Some(at) => (&bytes[..at], Some(&bytes[at + 1..])),
        None => (bytes, None),
    }
}

fn place_of(bytes: &[u8], value: u8) -> Option<usize>
    ensures { result ≡ position (λ byte. byte == value) bytes.now }
{
    bytes.iter().position(|&byte| byte == value)
}

/// The text of the first line, and the bytes behind the line.
pub(crate) fn first_line(bytes: &[u8]) -> (&[u8], &[u8])
    requires { 0 < length bytes.now }
    ensures lines { input_lines bytes.now ≡ result.0.now ∷ input_lines result.1.now }
    ensures shorter { length result.1.now < length bytes.now }
{
    let (line, rest) = split_once(bytes, b'\n');
    match rest {
        Some(rest) => (without_return(line), rest),
        None => (line, &[]),
    }
}

fn without_return(line: &[u8]) -> &[u8]
    ensures { result.now ≡ without_return line.now }
{
    match line {
        [front @ .., b'\r'] => front,
        _ => line,
    }
}

/// The path that the text prints, if a manifest may have it.
pub(crate) fn read_path(alloc: Global, text: &[u8]) -> Result<Option<Path>, NoMemory>
    ensures { IfOk result (λ found. found ≡ rom_path text.now) }
{
    match text {
        [b'/', names @ ..] if text.len() <= PATH_MAX => read_names(alloc, names),
        _ => Ok(None),
    }
}

// The path of the names that slashes separate, if a manifest may have each.
fn read_names(alloc: Global, names: &[u8]) -> Result<Option<Path>, NoMemory>
    ensures { IfOk result (λ found. found ≡
        if list_all is_rom_name (parts_of names.now) then Some (parts_of names.now) else None) }
{
    let mut path = Path::root(alloc);
    let mut left = Some(names);
    while let Some(names) = left {
        let (name, rest) = split_once(names, b'/');
        let Some(name) = read_name(alloc, name)? else {
            return Ok(None);
        };
        path.push(name)?;
        left = rest;
    }
    Ok(Some(path))
}

// The name that these bytes are, if a path may have it in a manifest.
fn read_name(alloc: Global, bytes: &[u8]) -> Result<Option<Name>, NoMemory>
    ensures { IfOk result (λ found. found
        ≡ if is_rom_name bytes.now then Some bytes.now else None) }
{
    if bytes == b".".as_slice() || bytes == b"..".as_slice() || !are_rom_bytes(bytes) {
        return Ok(None);
    }
    Ok(Name::from_bytes(copy_bytes(alloc, bytes)?))
}

fn are_rom_bytes(bytes: &[u8]) -> bool
    ensures { result ≡ list_all is_rom_byte bytes.now }
{
    bytes
        .iter()
        .all(|&byte| !matches!(byte, b'\n' | b'\r' | b' '))
}

/// The bytes that one or more pairs of hexadecimal digits mean.
pub(crate) fn read_bytes(alloc: Global, text: &[u8]) -> Result<Option<Bytes>, NoMemory>
    ensures { IfOk result (λ found. found ≡ rom_bytes text.now) }
{
    if text.is_empty() {
        return Ok(None);
    }
    match hex::decode(alloc, text) {
        Ok(bytes) => Ok(Some(Bytes::from_vec(bytes))),
        Err(FromHexError::OutOfMemory) => Err(NoMemory),
        Err(_) => Ok(None),
    }
}
