//! Texts of steps that a command asks: `read 2 0 4096` reads the file of slot 2, `close 1` closes reference 1. Texts
//! are shown with the escapes of a case's lines.

use crate::escapes::push_escaped;
use bitflags::Flags;
use vfs_base::{Bytes, FileId, HoldId, NoMemory, OpenFlags, Step, push_number};

/// Puts the step at the end.
pub fn push_step(out: &mut Bytes, step: &Step) -> Result<(), NoMemory> {
    match step {
        Step::Cwd => out.extend_from_slice(b"cwd"),
        Step::Mounts => out.extend_from_slice(b"mounts"),
        Step::Dentries => out.extend_from_slice(b"dentries"),
        Step::Cells => out.extend_from_slice(b"cells"),
        Step::Devices => out.extend_from_slice(b"devices"),
        Step::Size { .. }
        | Step::Read { .. }
        | Step::Write { .. }
        | Step::Append { .. }
        | Step::Trunc { .. }
        | Step::Sync { .. }
        | Step::Load { .. }
        | Step::Store { .. } => push_file_step(out, step),
        Step::Close { hold } => push_hold(out, b"close", *hold),
        Step::Map { hold } => push_hold(out, b"map", *hold),
        Step::Unmap { hold } => push_hold(out, b"unmap", *hold),
        _ => push_path_step(out, step),
    }
}

fn push_path_step(out: &mut Bytes, step: &Step) -> Result<(), NoMemory> {
    match step {
        Step::Stat { path } => push_text(out, b"stat", path),
        Step::Mkdir { path } => push_text(out, b"mkdir", path),
        Step::Rmdir { path } => push_text(out, b"rmdir", path),
        Step::Unlink { path } => push_text(out, b"unlink", path),
        Step::List { path } => push_text(out, b"list", path),
        Step::Chdir { path } => push_text(out, b"chdir", path),
        Step::Umount { point } => push_text(out, b"umount", point),
        Step::Mkfs { name } => push_text(out, b"mkfs", name),
        Step::Rename { old, new } => {
            push_text(out, b"rename", old)?;
            push_text(out, b"", new)
        }
        Step::Open { path, flags } => {
            push_text(out, b"open", path)?;
            push_flags(out, *flags)
        }
        Step::Mount { source, point, fs } => {
            push_text(out, b"mount", source)?;
            push_text(out, b"", point)?;
            push_text(out, b"", fs)
        }
        _ => out.extend_from_slice(b"no step of a shell"),
    }
}

fn push_text(out: &mut Bytes, word: &[u8], text: &Bytes) -> Result<(), NoMemory> {
    out.extend_from_slice(word)?;
    out.push(b' ')?;
    push_escaped(out, text.as_slice())
}

fn push_flags(out: &mut Bytes, flags: OpenFlags) -> Result<(), NoMemory> {
    out.push(b' ')?;
    for (flag, letter) in [
        (OpenFlags::READ, b'r'),
        (OpenFlags::WRITE, b'w'),
        (OpenFlags::CREAT, b'c'),
        (OpenFlags::EXCL, b'x'),
        (OpenFlags::TRUNC, b't'),
        (OpenFlags::APPEND, b'a'),
    ] {
        push_flag(out, flags.contains(flag), letter)?;
    }
    Ok(())
}

fn push_flag(out: &mut Bytes, is_set: bool, letter: u8) -> Result<(), NoMemory> {
    if is_set { out.push(letter) } else { Ok(()) }
}

fn push_file_step(out: &mut Bytes, step: &Step) -> Result<(), NoMemory> {
    match step {
        Step::Size { file } => push_file(out, b"size", *file),
        Step::Sync { file } => push_file(out, b"sync", *file),
        Step::Trunc { file, len } => {
            push_file(out, b"trunc", *file)?;
            push_field(out, *len)
        }
        Step::Read { file, off, len } => {
            push_file(out, b"read", *file)?;
            push_field(out, *off)?;
            push_field(out, *len)
        }
        Step::Load { file, off, len } => {
            push_file(out, b"load", *file)?;
            push_field(out, *off)?;
            push_field(out, *len)
        }
        Step::Write { file, off, bytes } => {
            push_file(out, b"write", *file)?;
            push_field(out, *off)?;
            push_text(out, b"", bytes)
        }
        Step::Store { file, off, bytes } => {
            push_file(out, b"store", *file)?;
            push_field(out, *off)?;
            push_text(out, b"", bytes)
        }
        Step::Append { file, bytes } => {
            push_file(out, b"append", *file)?;
            push_text(out, b"", bytes)
        }
        _ => out.extend_from_slice(b"no step of a file"),
    }
}

fn push_field(out: &mut Bytes, number: u64) -> Result<(), NoMemory> {
    out.push(b' ')?;
    push_number(out, number)
}

fn push_file(out: &mut Bytes, word: &[u8], file: FileId) -> Result<(), NoMemory> {
    out.extend_from_slice(word)?;
    push_field(out, u64::from(file.row.number()))
}

fn push_hold(out: &mut Bytes, word: &[u8], hold: HoldId) -> Result<(), NoMemory> {
    out.extend_from_slice(word)?;
    push_field(out, u64::from(hold.number))
}
