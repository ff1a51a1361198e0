//! How a command of mappings begins: by its name and the words behind it. The desk stays as it is.

ghost use Rattle.std.specs.Prelude.{◌≡◌, IfOk, IfErr, OnOk, OnErr, Ok, Err};
ghost use Rattle.vfs_model.specs.CommandText.{usage as usage_talk};
ghost use Rattle.vfs_model.specs.MappingCommands.{load_checks as load_checks_of, load_mapped as load_talk, map_checks as map_checks_of, map_file as map_talk, mapping_command as mapping_command_talk, mload as mload_talk, mmap as mmap_talk, mstore as mstore_talk, msync as msync_talk, munmap as munmap_talk, store_mapped as store_talk, sync_mapped as sync_talk, unmap as unmap_talk};
ghost use Rattle.msh_file_commands.specs.FileTalks.{begun_state, state_behind};
ghost use Rattle.msh_file_commands.specs.MappingTalks.{BeginsMapping, GoesOn, mapping_talk};
ghost use Rattle.msh_desk.specs.State.{state_of};

use crate::file_words::open_file;
use crate::map_part::MapPart;
use crate::mappings::{MappingCommand, failed, shown};
use mapping::{Windows, may_map};
use msh_desk::{Desk, copy_word, four_words, three_words};
use msh_forms::{is_for_writing, is_word, read_number, usage_text};
use std::alloc::Global;
use vfs_base::{Bytes, Errno, FileId, NoMemory, READ_MAX};

// The words are not those of the form.
fn usage(alloc: Global, form: &[u8]) -> Result<MappingCommand, NoMemory>
    ensures { IfOk result (λ command. mapping_talk command ≡ usage_talk form.now) }
{
    let text = usage_text(alloc, form)?;
    Ok(shown(text))
}

// The open file of a descriptor, to map a part of it.
#[tactic(auto, using(crate::proofs::MappingWords::mapped_within))]
fn map_checks(desk: &Desk, fd: u64, off: u64, len: u64, writes: bool) -> Result<MapPart, Errno>
    ensures ok { IfOk result (λ part. (map_checks_of (state_of desk.now) fd off len writes ≡ Ok part.file) × ((part.off ≡ off) × ((part.len ≡ len) × (part.writes ≡ writes)))) }
    ensures fault { IfErr result (λ errno. map_checks_of (state_of desk.now) fd off len writes ≡ Err errno) }
{
    let file = open_file(&desk.fds, fd)?;
    if let Err(fault) = may_map(file.kind, file.reads, file.writes, off, len, writes) {
        return Err(fault.errno());
    }
    if desk.windows.is_full() {
        return Err(Errno::EMFILE);
    }
    Ok(MapPart {
        file,
        off,
        len,
        writes,
    })
}

fn map_file(
    alloc: Global,
    word: &Bytes,
    fd: u64,
    off: u64,
    len: u64,
    writes: bool,
    desk: &Desk,
) -> Result<MappingCommand, NoMemory>
    ensures { IfOk result (λ command. GoesOn (map_talk word.now fd off len writes) (state_of desk.now) command (state_of desk.now)) }
{
    match map_checks(desk, fd, off, len, writes) {
        Ok(part) => {
            let word = copy_word(alloc, word)?;
            Ok(MappingCommand::Map { word, part })
        }
        Err(errno) => failed(alloc, b"mmap", word, errno),
    }
}

fn mmap(alloc: Global, words: &[Bytes], desk: &Desk) -> Result<MappingCommand, NoMemory>
    ensures { IfOk result (λ command. GoesOn (mmap_talk words.now) (state_of desk.now) command (state_of desk.now)) }
{
    let Some((word, off, len, access)) = four_words(words) else {
        return usage(alloc, b"mmap FD OFF LEN r|rw");
    };
    let fd = read_number(word.as_slice());
    let off = read_number(off.as_slice());
    let len = read_number(len.as_slice());
    match (fd, off, len, is_for_writing(access.as_slice())) {
        (Some(fd), Some(off), Some(len), Some(writes)) => {
            map_file(alloc, word, fd, off, len, writes, desk)
        }
        _ => usage(alloc, b"mmap FD OFF LEN r|rw"),
    }
}

// Where the part lies that is read.
fn load_checks(windows: &Windows, number: u64, off: u64, len: u64) -> Result<(FileId, u64), Errno>
    ensures ok { IfOk result (λ found. load_checks_of windows.now number off len ≡ Ok (record { file = found.0; offset = found.1 })) }
    ensures fault { IfErr result (λ errno. load_checks_of windows.now number off len ≡ Err errno) }
{
    if READ_MAX < len {
        return Err(Errno::EINVAL);
    }
    match windows.check(number, off, len, false) {
        Ok(found) => Ok(found),
        Err(fault) => Err(fault.errno()),
    }
}

fn load_mapped(
    alloc: Global,
    word: &Bytes,
    number: u64,
    off: u64,
    len: u64,
    desk: &Desk,
) -> Result<MappingCommand, NoMemory>
    ensures { IfOk result (λ command. GoesOn (load_talk word.now number off len) (state_of desk.now) command (state_of desk.now)) }
{
    match load_checks(&desk.windows, number, off, len) {
        Ok((file, offset)) => {
            let word = copy_word(alloc, word)?;
            Ok(MappingCommand::Load {
                word,
                file,
                offset,
                len,
            })
        }
        Err(errno) => failed(alloc, b"mload", word, errno),
    }
}

fn mload(alloc: Global, words: &[Bytes], desk: &Desk) -> Result<MappingCommand, NoMemory>
    ensures { IfOk result (λ command. GoesOn (mload_talk words.now) (state_of desk.now) command (state_of desk.now)) }
{
    let Some((word, off, len)) = three_words(words) else {
        return usage(alloc, b"mload W OFF LEN");
    };
    let number = read_number(word.as_slice());
    match (
        number,
        read_number(off.as_slice()),
        read_number(len.as_slice()),
    ) {
        (Some(number), Some(off), Some(len)) => load_mapped(alloc, word, number, off, len, desk),
        _ => usage(alloc, b"mload W OFF LEN"),
    }
}

fn store_mapped(
    alloc: Global,
    word: &Bytes,
    text: &Bytes,
    number: u64,
    off: u64,
    desk: &Desk,
) -> Result<MappingCommand, NoMemory>
    ensures { IfOk result (λ command. GoesOn (store_talk word.now text.now number off) (state_of desk.now) command (state_of desk.now)) }
{
    match desk.windows.check(number, off, text.len() as u64, true) {
        Ok((file, offset)) => {
            let word = copy_word(alloc, word)?;
            let bytes = copy_word(alloc, text)?;
            Ok(MappingCommand::Store {
                word,
                file,
                offset,
                bytes,
            })
        }
        Err(fault) => failed(alloc, b"mstore", word, fault.errno()),
    }
}

fn mstore(alloc: Global, words: &[Bytes], desk: &Desk) -> Result<MappingCommand, NoMemory>
    ensures { IfOk result (λ command. GoesOn (mstore_talk words.now) (state_of desk.now) command (state_of desk.now)) }
{
    let Some((word, off, text)) = three_words(words) else {
        return usage(alloc, b"mstore W OFF TEXT");
    };
    match (read_number(word.as_slice()), read_number(off.as_slice())) {
        (Some(number), Some(off)) => store_mapped(alloc, word, text, number, off, desk),
        _ => usage(alloc, b"mstore W OFF TEXT"),
    }
}

fn sync_mapped(
    alloc: Global,
    word: &Bytes,
    number: u64,
    desk: &Desk,
) -> Result<MappingCommand, NoMemory>
    ensures { IfOk result (λ command. GoesOn (sync_talk word.now number) (state_of desk.now) command (state_of desk.now)) }
{
    match desk.windows.get(number) {
        Some(window) => {
            let word = copy_word(alloc, word)?;
            Ok(MappingCommand::Sync {
                word,
                file: window.file,
            })
        }
        None => failed(alloc, b"msync", word, Errno::EINVAL),
    }
}

fn msync(alloc: Global, words: &[Bytes], desk: &Desk) -> Result<MappingCommand, NoMemory>
    ensures { IfOk result (λ command. GoesOn (msync_talk words.now) (state_of desk.now) command (state_of desk.now)) }
{
    let [word] = words else {
        return usage(alloc, b"msync W");
    };
    match read_number(word.as_slice()) {
        Some(number) => sync_mapped(alloc, word, number, desk),
        None => usage(alloc, b"msync W"),
    }
}

// The mapping is given up at once.
#[tactic(auto, using(crate::proofs::MappingWords::unmap_asks))]
fn unmap(
    alloc: Global,
    word: &Bytes,
    number: u64,
    desk: &mut Desk,
) -> Result<MappingCommand, NoMemory>
    ensures ok { IfOk result (λ command. GoesOn (unmap_talk word.now number) (state_of desk.old) command (state_of desk.new)) }
    ensures desk { OnOk result (state_of desk.new ≡ state_behind (unmap_talk word.now number) (state_of desk.old)) }
    ensures err { OnErr result (state_of desk.new ≡ state_of desk.old) }
{
    let word = copy_word(alloc, word)?;
    match desk.windows.remove(number) {
        Ok(window) => Ok(MappingCommand::Unmap {
            word,
            hold: window.hold,
        }),
        Err(fault) => failed(alloc, b"munmap", &word, fault.errno()),
    }
}

fn munmap(alloc: Global, words: &[Bytes], desk: &mut Desk) -> Result<MappingCommand, NoMemory>
    ensures ok { IfOk result (λ command. GoesOn (munmap_talk words.now) (state_of desk.old) command (state_of desk.new)) }
    ensures desk { OnOk result (state_of desk.new ≡ state_behind (munmap_talk words.now) (state_of desk.old)) }
    ensures err { OnErr result (state_of desk.new ≡ state_of desk.old) }
{
    let [word] = words else {
        return usage(alloc, b"munmap W");
    };
    match read_number(word.as_slice()) {
        Some(number) => unmap(alloc, word, number, desk),
        None => usage(alloc, b"munmap W"),
    }
}

/// The command of this name with these words behind it; `None` where it is of no mapping. At want of
/// memory the desk is as before.
#[tactic(auto, using(crate::proofs::MappingWords::map_keeps, crate::proofs::MappingWords::load_keeps, crate::proofs::MappingWords::store_keeps, crate::proofs::MappingWords::sync_keeps))]
pub fn mapping_command(
    alloc: Global,
    name: &[u8],
    words: &[Bytes],
    desk: &mut Desk,
) -> Result<Option<MappingCommand>, NoMemory>
    ensures ok { IfOk result (λ found. BeginsMapping (mapping_command_talk name.now words.now) (state_of desk.old) found (state_of desk.new)) }
    ensures desk { OnOk result (state_of desk.new ≡ begun_state (mapping_command_talk name.now words.now) (state_of desk.old)) }
    ensures err { OnErr result (state_of desk.new ≡ state_of desk.old) }
{
    let command = if is_word(name, b"mmap") {
        mmap(alloc, words, desk)?
    } else if is_word(name, b"mload") {
        mload(alloc, words, desk)?
    } else if is_word(name, b"mstore") {
        mstore(alloc, words, desk)?
    } else if is_word(name, b"msync") {
        msync(alloc, words, desk)?
    } else if is_word(name, b"munmap") {
        munmap(alloc, words, desk)?
    } else {
        return Ok(None);
    };
    Ok(Some(command))
}
