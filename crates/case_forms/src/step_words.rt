//! Steps of texts: `1 mkdir /a` is asked by session 1, `worker flush 1` by the worker and `end shutdown` at the end.
//! The text `-` has no bytes, and texts have the escapes of a case's lines.

use crate::case_fault::CaseFault;
use crate::escapes::push_text;
use bitflags::Flags;
use std::alloc::Global;
use vfs_base::{Bytes, FileId, HoldId, Mark, OpenFlags, RowId, SessionId, Step, Who};

/// Who asks, and the mark: `1!2` is session 1 under a device's fault after 2 bytes, and `1m0` session
/// 1 under want of memory.
pub fn asker(words: &[&str]) -> Result<(Who, Mark), CaseFault> {
    let [first, ..] = *words else {
        return Err(CaseFault::Step);
    };
    let (name, mark) = marked(first)?;
    Ok((who_of(name, words)?, mark))
}

fn marked(word: &str) -> Result<(&str, Mark), CaseFault> {
    if let Some((name, n)) = word.split_once('!') {
        return Ok((name, Mark::Fault { n: n.parse()? }));
    }
    if let Some((name, n)) = word.split_once('m') {
        return Ok((name, Mark::NoMem { n: n.parse()? }));
    }
    Ok((word, Mark::Clear))
}

fn who_of(name: &str, words: &[&str]) -> Result<Who, CaseFault> {
    match *words {
        _ if name == "end" => Ok(Who::End),
        [_, "flush", row] if name == "worker" => Ok(Who::Flush { row: row_of(row)? }),
        [_, "reclaim", row] if name == "worker" => Ok(Who::Reclaim { row: row_of(row)? }),
        _ => Ok(Who::Session {
            k: session_of(name)?,
        }),
    }
}

/// The step. A step of a file is one of this file.
pub fn step_of(alloc: Global, file: FileId, words: &[&str]) -> Result<Step, CaseFault> {
    match *words {
        [_, word] => bare_step(file, word),
        [_, word, text] => text_step(alloc, file, word, text),
        [_, "rename", old, new] => Ok(Step::Rename {
            old: bytes_of(alloc, old)?,
            new: bytes_of(alloc, new)?,
        }),
        [_, "open", path, flags] => Ok(Step::Open {
            path: bytes_of(alloc, path)?,
            flags: flags_of(flags.as_bytes()),
        }),
        [_, "mount", source, point, fs] => Ok(Step::Mount {
            source: bytes_of(alloc, source)?,
            point: bytes_of(alloc, point)?,
            fs: bytes_of(alloc, fs)?,
        }),
        [_, word, first, second] => pair_step(alloc, file, word, first, second),
        _ => Err(CaseFault::Step),
    }
}

fn bare_step(file: FileId, word: &str) -> Result<Step, CaseFault> {
    match word {
        "home" => Ok(Step::Home),
        "cwd" => Ok(Step::Cwd),
        "mounts" => Ok(Step::Mounts),
        "dentries" => Ok(Step::Dentries),
        "cells" => Ok(Step::Cells),
        "devices" => Ok(Step::Devices),
        "shutdown" => Ok(Step::Shutdown),
        "size" => Ok(Step::Size { file }),
        "sync" => Ok(Step::Sync { file }),
        _ => Err(CaseFault::Step),
    }
}

fn text_step(alloc: Global, file: FileId, word: &str, text: &str) -> Result<Step, CaseFault> {
    match word {
        "flush" => Ok(Step::Flush { row: row_of(text)? }),
        "reclaim" => Ok(Step::Reclaim { row: row_of(text)? }),
        "trunc" => Ok(Step::Trunc {
            file,
            len: text.parse()?,
        }),
        _ => path_step(file, word, bytes_of(alloc, text)?),
    }
}

fn path_step(file: FileId, word: &str, text: Bytes) -> Result<Step, CaseFault> {
    match word {
        "append" => Ok(Step::Append { file, bytes: text }),
        "stat" => Ok(Step::Stat { path: text }),
        "mkdir" => Ok(Step::Mkdir { path: text }),
        "rmdir" => Ok(Step::Rmdir { path: text }),
        "unlink" => Ok(Step::Unlink { path: text }),
        "list" => Ok(Step::List { path: text }),
        "chdir" => Ok(Step::Chdir { path: text }),
        "umount" => Ok(Step::Umount { point: text }),
        "mkfs" => Ok(Step::Mkfs { name: text }),
        _ => Err(CaseFault::Step),
    }
}

fn pair_step(
    alloc: Global,
    file: FileId,
    word: &str,
    first: &str,
    second: &str,
) -> Result<Step, CaseFault> {
    match word {
        "read" => Ok(Step::Read {
            file,
            off: first.parse()?,
            len: second.parse()?,
        }),
        "load" => Ok(Step::Load {
            file,
            off: first.parse()?,
            len: second.parse()?,
        }),
        "write" => Ok(Step::Write {
            file,
            off: first.parse()?,
            bytes: bytes_of(alloc, second)?,
        }),
        "store" => Ok(Step::Store {
            file,
            off: first.parse()?,
            bytes: bytes_of(alloc, second)?,
        }),
        _ => hold_step(word, hold_of(first, second)?),
    }
}

fn hold_step(word: &str, hold: HoldId) -> Result<Step, CaseFault> {
    match word {
        "close" => Ok(Step::Close { hold }),
        "map" => Ok(Step::Map { hold }),
        "unmap" => Ok(Step::Unmap { hold }),
        _ => Err(CaseFault::Step),
    }
}

/// The bytes that a word stands for.
pub fn bytes_of(alloc: Global, text: &str) -> Result<Bytes, CaseFault> {
    let mut out = Bytes::new(alloc);
    if text != "-" {
        push_text(&mut out, text)?;
    }
    Ok(out)
}

fn row_of(text: &str) -> Result<RowId, CaseFault> {
    Ok(RowId::new(text.parse()?).ok_or(CaseFault::Step)?)
}

fn session_of(text: &str) -> Result<SessionId, CaseFault> {
    Ok(SessionId::new(text.parse()?).ok_or(CaseFault::Step)?)
}

fn hold_of(session: &str, number: &str) -> Result<HoldId, CaseFault> {
    Ok(HoldId {
        session: session_of(session)?,
        number: number.parse()?,
    })
}

// The flags of these letters.
fn flags_of(letters: &[u8]) -> OpenFlags {
    let mut bits = 0;
    for letter in letters {
        bits |= flag_of(*letter).bits();
    }
    OpenFlags::from_bits_retain(bits)
}

fn flag_of(letter: u8) -> OpenFlags {
    match letter {
        b'r' => OpenFlags::READ,
        b'w' => OpenFlags::WRITE,
        b'c' => OpenFlags::CREAT,
        b'x' => OpenFlags::EXCL,
        b't' => OpenFlags::TRUNC,
        _ => OpenFlags::APPEND,
    }
}
