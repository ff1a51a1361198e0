//! Bytes, numbers and columns as they are shown.

ghost use Rattle.std.specs.Prelude.{◌≡◌, ◌≤◌, IfOk, OnOk, ◌++◌, [], ◌∷◌, codes, decimal, length};
ghost use Rattle.std.specs.List.{flat_map};
ghost use Rattle.hex.specs.Hex.{encode_lower};
ghost use Rattle.vfs_base.specs.Path.{printed};
ghost use Rattle.vfs_model.specs.Command.{help_text as text_of_help};
ghost use Rattle.vfs_model.specs.CommandText.{bytes_line, column_line, line, number_line, shown_byte, shown_bytes};
ghost use Rattle.vfs_model.specs.FolderCommands.{stat_line};
ghost use Rattle.vfs_model.specs.MountCommands.{row_text as text_of_row};
ghost use Rattle.vfs_model.specs.OpenCommands.{descriptor_line};
ghost use Rattle.vfs_model.specs.Shown.{padding};

use std::alloc::Global;
use vfs_base::{Bytes, NoMemory, Path, RowId, copy_bytes, push_number, push_printed};

/// A text and a line feed.
pub fn line_text(alloc: Global, text: &[u8]) -> Result<Bytes, NoMemory>
    ensures { IfOk result (λ shown. shown ≡ line text.now) }
{
    let mut shown = copy_bytes(alloc, text)?;
    shown.push(b'\n')?;
    Ok(shown)
}

/// The names of all commands.
pub fn help_text(alloc: Global) -> Result<Bytes, NoMemory>
    ensures { IfOk result (λ shown. shown ≡ text_of_help) }
{
    let mut shown = copy_bytes(
        alloc,
        b"cat cd close cp dentries df dup echo fsync ftruncate help list_device ls lseek mkdir mkfs mload mmap mount mstore ",
    )?;
    shown.extend_from_slice(b"msync munmap mv open pwd read rm rmdir stat sync umount write\n")?;
    Ok(shown)
}

// Appends a backslash, `x` and the byte in two digits of hexadecimal.
fn push_escaped(out: &mut Bytes, byte: u8) -> Result<(), NoMemory>
    ensures { OnOk result (out.new ≡ out.old ++ 92 ∷ 120 ∷ encode_lower (byte ∷ [])) }
{
    let mut digits = [0u8; 2];
    let _whole = hex::encode_to_slice([byte].as_slice(), &mut digits);
    out.extend_from_slice(b"\\x")?;
    out.extend_from_slice(&digits)
}

fn push_shown_byte(out: &mut Bytes, byte: u8) -> Result<(), NoMemory>
    ensures { OnOk result (out.new ≡ out.old ++ shown_byte byte) }
{
    match byte {
        b'\\' => out.extend_from_slice(b"\\\\"),
        32..=126 => out.push(byte),
        _ => push_escaped(out, byte),
    }
}

fn push_shown_bytes(out: &mut Bytes, bytes: &[u8]) -> Result<(), NoMemory>
    ensures { OnOk result (out.new ≡ out.old ++ shown_bytes bytes.now) }
{
    for byte in bytes {
        push_shown_byte(out, *byte)?;
    }
    Ok(())
}

/// How many bytes came, and the bytes as they are shown.
pub fn bytes_text(alloc: Global, bytes: &[u8]) -> Result<Bytes, NoMemory>
    ensures { IfOk result (λ shown. shown ≡ bytes_line bytes.now) }
{
    let mut shown = Bytes::new(alloc);
    push_number(&mut shown, bytes.len() as u64)?;
    shown.push(b':')?;
    push_shown_bytes(&mut shown, bytes)?;
    shown.push(b'\n')?;
    Ok(shown)
}

// A text, a number and a line feed.
fn numbered_text(alloc: Global, text: &[u8], number: u64) -> Result<Bytes, NoMemory>
    ensures { IfOk result (λ shown. shown ≡ line (text.now ++ decimal number)) }
{
    let mut shown = copy_bytes(alloc, text)?;
    push_number(&mut shown, number)?;
    shown.push(b'\n')?;
    Ok(shown)
}

/// A number and a line feed.
pub fn number_text(alloc: Global, number: u64) -> Result<Bytes, NoMemory>
    ensures { IfOk result (λ shown. shown ≡ number_line number) }
{
    numbered_text(alloc, b"", number)
}

/// What is shown of a descriptor that was taken.
pub fn descriptor_text(alloc: Global, fd: u64) -> Result<Bytes, NoMemory>
    ensures { IfOk result (λ shown. shown ≡ descriptor_line fd) }
{
    numbered_text(alloc, b"fd ", fd)
}

/// What is shown of a mapping that was made.
pub fn mapping_text(alloc: Global, number: u64) -> Result<Bytes, NoMemory>
    ensures { IfOk result (λ shown. shown ≡ line (codes "window " ++ decimal number)) }
{
    numbered_text(alloc, b"window ", number)
}

/// How an error names a file that has no word: by its vnode slot.
pub fn row_text(alloc: Global, row: RowId) -> Result<Bytes, NoMemory>
    ensures { IfOk result (λ shown. shown ≡ text_of_row row) }
{
    let mut shown = copy_bytes(alloc, b"row ")?;
    push_number(&mut shown, u64::from(row.number()))?;
    Ok(shown)
}

/// A folder's path and a line feed.
pub fn folder_text(alloc: Global, path: &Path) -> Result<Bytes, NoMemory>
    ensures { IfOk result (λ shown. shown ≡ line (printed path.now)) }
{
    let mut shown = path.print(alloc)?;
    shown.push(b'\n')?;
    Ok(shown)
}

/// The first line of a listing.
pub fn listing_head(alloc: Global, path: &Path) -> Result<Bytes, NoMemory>
    ensures { IfOk result (λ shown. shown ≡ line (codes "Directory " ++ printed path.now ++ codes ":")) }
{
    let mut shown = copy_bytes(alloc, b"Directory ")?;
    push_printed(&mut shown, path)?;
    shown.extend_from_slice(b":\n")?;
    Ok(shown)
}

// Appends spaces behind a name: up to 20 bytes in all, and at least one.
fn push_padding(out: &mut Bytes, name: &[u8]) -> Result<(), NoMemory>
    ensures { OnOk result (out.new ≡ out.old ++ padding name.now) }
{
    let spaces = [b' '; 20];
    if name.len() < spaces.len() {
        out.extend_from_slice(&spaces[name.len()..])
    } else {
        out.push(b' ')
    }
}

/// Appends a name in a listing, and what stands behind it. After an `Err` a front of it may stand there.
pub fn push_column(out: &mut Bytes, name: &[u8], text: &[u8]) -> Result<(), NoMemory>
    ensures { OnOk result (out.new ≡ out.old ++ column_line name.now text.now) }
{
    out.extend_from_slice(name)?;
    push_padding(out, name)?;
    out.extend_from_slice(text)?;
    out.push(b'\n')
}

/// Appends a name in a listing, and a number of bytes. After an `Err` a front of it may stand there.
pub fn push_size_column(out: &mut Bytes, name: &[u8], size: u64) -> Result<(), NoMemory>
    ensures { OnOk result (out.new ≡ out.old ++ column_line name.now (decimal size)) }
{
    out.extend_from_slice(name)?;
    push_padding(out, name)?;
    push_number(out, size)?;
    out.push(b'\n')
}

/// A path as it was typed, and what stands there.
pub fn stat_text(alloc: Global, word: &[u8], text: &[u8]) -> Result<Bytes, NoMemory>
    ensures { IfOk result (λ shown. shown ≡ stat_line word.now text.now) }
{
    let mut shown = copy_bytes(alloc, word)?;
    shown.push(b' ')?;
    shown.extend_from_slice(text)?;
    shown.push(b'\n')?;
    Ok(shown)
}

/// A path as it was typed, and the number of bytes of the file there.
pub fn size_stat_text(alloc: Global, word: &[u8], size: u64) -> Result<Bytes, NoMemory>
    ensures { IfOk result (λ shown. shown ≡ stat_line word.now (codes "file " ++ decimal size)) }
{
    let mut shown = copy_bytes(alloc, word)?;
    shown.extend_from_slice(b" file ")?;
    push_number(&mut shown, size)?;
    shown.push(b'\n')?;
    Ok(shown)
}
