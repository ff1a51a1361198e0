//! How a command of open files begins: by its name and the words behind it. `dup`, `lseek` from the
//! beginning or the place, and `close` of a further descriptor change the desk at once.

ghost use Rattle.std.specs.Prelude.{◌≡◌, IfOk, IfErr, OnOk, OnErr, Ok, Err};
ghost use Rattle.vfs_model.specs.CommandText.{usage as usage_talk};
ghost use Rattle.vfs_model.specs.CommandWords.{meaning};
ghost use Rattle.vfs_model.specs.FileCommands.{cut_checks as cut_checks_of, cut_file as cut_talk, file_command as file_command_talk, fsync as fsync_talk, ftruncate as ftruncate_talk, lseek as lseek_talk, lseek_file, lseek_form, placed_file as placed_file_of, read as read_words_talk, read_checks as read_checks_of, read_file as read_talk, seek_from as seek_from_talk, seek_place as seek_place_talk, seek_sized, sync_file as sync_talk, write as write_words_talk, write_checks as write_checks_of, write_file as write_talk};
ghost use Rattle.vfs_model.specs.OpenCommands.{close as close_words_talk, close_descriptor as close_talk, dup as dup_words_talk, dup_descriptor as dup_talk, open_path as open_path_talk, open_words as open_talk};
ghost use Rattle.vfs_model.specs.OpenFiles.{open_file as open_file_of};
ghost use Rattle.vfs_model.specs.Talk.{ask};
ghost use Rattle.vfs_base.specs.declared.step.Step.TheVariants.{Size};
ghost use Rattle.msh_file_commands.specs.FileTalks.{BeginsFile, GoesOn, begun_state, file_talk, state_behind};
ghost use Rattle.msh_desk.specs.State.{state_of};

use crate::files::{FileCommand, failed, seek_place, shown, told_descriptor};
use fd_table::FdTable;
use msh_desk::{Desk, copy_word, three_words};
use msh_forms::{is_word, read_flags, read_number, read_offset, usage_text};
use std::alloc::Global;
use vfs_base::{Bytes, Errno, Kind, NoMemory, OpenFlags, READ_MAX, WRITE_MAX};
use vfs_model::{OpenFile, Whence};

// The words are not those of the form.
fn usage(alloc: Global, form: &[u8]) -> Result<FileCommand, NoMemory>
    ensures { IfOk result (λ command. file_talk command ≡ usage_talk form.now) }
{
    let text = usage_text(alloc, form)?;
    Ok(shown(text))
}

// A descriptor is looked for before the path.
fn open_path(
    alloc: Global,
    word: &Bytes,
    flags: OpenFlags,
    desk: &Desk,
) -> Result<FileCommand, NoMemory>
    ensures { IfOk result (λ command. GoesOn (open_path_talk word.now flags) (state_of desk.now) command (state_of desk.now)) }
{
    if desk.fds.is_full() {
        return failed(alloc, b"open", word, Errno::EMFILE);
    }
    let word = copy_word(alloc, word)?;
    Ok(FileCommand::Open { word, flags })
}

fn open(alloc: Global, words: &[Bytes], desk: &Desk) -> Result<FileCommand, NoMemory>
    ensures { IfOk result (λ command. GoesOn (open_talk words.now) (state_of desk.now) command (state_of desk.now)) }
{
    let [word, mode] = words else {
        return usage(alloc, b"open PATH FLAGS");
    };
    match read_flags(mode.as_slice()) {
        Some(flags) => open_path(alloc, word, flags, desk),
        None => usage(alloc, b"open PATH FLAGS"),
    }
}

/// The open file of a descriptor; `EBADF` where there is none (POSIX.1-2017, read).
pub fn open_file(fds: &FdTable, fd: u64) -> Result<OpenFile, Errno>
    ensures ok { IfOk result (λ opened. open_file_of fds.now fd ≡ Ok opened) }
    ensures fault { IfErr result (λ errno. open_file_of fds.now fd ≡ Err errno) }
{
    match fds.get(fd) {
        Ok(file) => Ok(*file),
        Err(fault) => Err(fault.errno()),
    }
}

// The open file of a descriptor, to read so many bytes.
fn read_checks(fds: &FdTable, fd: u64, n: u64) -> Result<OpenFile, Errno>
    ensures ok { IfOk result (λ opened. read_checks_of fds.now fd n ≡ Ok opened) }
    ensures fault { IfErr result (λ errno. read_checks_of fds.now fd n ≡ Err errno) }
{
    let opened = open_file(fds, fd)?;
    if !opened.reads {
        return Err(Errno::EBADF);
    }
    if READ_MAX < n {
        return Err(Errno::EINVAL);
    }
    Ok(opened)
}

fn read_file(
    alloc: Global,
    word: &Bytes,
    fd: u64,
    n: u64,
    desk: &Desk,
) -> Result<FileCommand, NoMemory>
    ensures { IfOk result (λ command. GoesOn (read_talk word.now fd n) (state_of desk.now) command (state_of desk.now)) }
{
    match read_checks(&desk.fds, fd, n) {
        Ok(opened) => {
            let word = copy_word(alloc, word)?;
            Ok(FileCommand::Read {
                word,
                fd,
                n,
                opened,
            })
        }
        Err(errno) => failed(alloc, b"read", word, errno),
    }
}

fn read(alloc: Global, words: &[Bytes], desk: &Desk) -> Result<FileCommand, NoMemory>
    ensures { IfOk result (λ command. GoesOn (read_words_talk words.now) (state_of desk.now) command (state_of desk.now)) }
{
    let [word, n] = words else {
        return usage(alloc, b"read FD N");
    };
    match (read_number(word.as_slice()), read_number(n.as_slice())) {
        (Some(fd), Some(n)) => read_file(alloc, word, fd, n, desk),
        _ => usage(alloc, b"read FD N"),
    }
}

// The open file of a descriptor, to write so many bytes.
fn write_checks(fds: &FdTable, fd: u64, size: u64) -> Result<OpenFile, Errno>
    ensures ok { IfOk result (λ opened. write_checks_of fds.now fd size ≡ Ok opened) }
    ensures fault { IfErr result (λ errno. write_checks_of fds.now fd size ≡ Err errno) }
{
    let opened = open_file(fds, fd)?;
    if !opened.writes {
        return Err(Errno::EBADF);
    }
    if WRITE_MAX < size {
        return Err(Errno::EINVAL);
    }
    Ok(opened)
}

// A text so many times.
#[tactic(auto, using(crate::proofs::FileWords::saturated_checks))]
fn write_file(
    alloc: Global,
    word: &Bytes,
    fd: u64,
    text: &Bytes,
    count: u64,
    desk: &Desk,
) -> Result<FileCommand, NoMemory>
    ensures { IfOk result (λ command. GoesOn (write_talk word.now fd text.now count) (state_of desk.now) command (state_of desk.now)) }
{
    let size = count.saturating_mul(text.len() as u64);
    match write_checks(&desk.fds, fd, size) {
        Ok(opened) => {
            let word = copy_word(alloc, word)?;
            let bytes = text.as_slice().repeat(alloc, count as usize)?;
            Ok(FileCommand::Write {
                word,
                fd,
                opened,
                bytes: Bytes::from_vec(bytes),
            })
        }
        Err(errno) => failed(alloc, b"write", word, errno),
    }
}

fn write(alloc: Global, words: &[Bytes], desk: &Desk) -> Result<FileCommand, NoMemory>
    ensures { IfOk result (λ command. GoesOn (write_words_talk words.now) (state_of desk.now) command (state_of desk.now)) }
{
    match words {
        [word, text] => match read_number(word.as_slice()) {
            Some(fd) => write_file(alloc, word, fd, text, 1, desk),
            None => usage(alloc, b"write FD TEXT [COUNT]"),
        },
        [word, text, count] => {
            match (read_number(word.as_slice()), read_number(count.as_slice())) {
                (Some(fd), Some(count)) => write_file(alloc, word, fd, text, count, desk),
                _ => usage(alloc, b"write FD TEXT [COUNT]"),
            }
        }
        _ => usage(alloc, b"write FD TEXT [COUNT]"),
    }
}

// The open file of a descriptor that has a place.
fn placed_file(fds: &FdTable, fd: u64) -> Result<OpenFile, Errno>
    ensures ok { IfOk result (λ opened. placed_file_of fds.now fd ≡ Ok opened) }
    ensures fault { IfErr result (λ errno. placed_file_of fds.now fd ≡ Err errno) }
{
    let opened = open_file(fds, fd)?;
    if matches!(opened.kind, Kind::Chr) {
        return Err(Errno::ESPIPE);
    }
    Ok(opened)
}

// From the beginning or from the place.
fn seek_at_once(
    alloc: Global,
    word: &Bytes,
    fd: u64,
    off: i64,
    whence: Whence,
    desk: &mut Desk,
) -> Result<FileCommand, NoMemory>
    ensures ok { IfOk result (λ command. GoesOn (lseek_file word.now fd (λ file. seek_place_talk word.now fd off whence)) (state_of desk.old) command (state_of desk.new)) }
    ensures desk { state_of desk.new ≡ state_behind (lseek_file word.now fd (λ file. seek_place_talk word.now fd off whence)) (state_of desk.old) }
    ensures err { OnErr result (state_of desk.new ≡ state_of desk.old) }
{
    match placed_file(&desk.fds, fd) {
        Ok(_) => seek_place(alloc, word, fd, off, whence, desk),
        Err(errno) => failed(alloc, b"lseek", word, errno),
    }
}

// From the end, for which the size is asked.
fn seek_end(
    alloc: Global,
    word: &Bytes,
    fd: u64,
    off: i64,
    desk: &Desk,
) -> Result<FileCommand, NoMemory>
    ensures { IfOk result (λ command. GoesOn (lseek_file word.now fd (λ file. ask (Size file.file) (seek_sized word.now fd off))) (state_of desk.now) command (state_of desk.now)) }
{
    match placed_file(&desk.fds, fd) {
        Ok(opened) => {
            let word = copy_word(alloc, word)?;
            Ok(FileCommand::SeekEnd {
                word,
                fd,
                off,
                file: opened.file,
            })
        }
        Err(errno) => failed(alloc, b"lseek", word, errno),
    }
}

// The size is asked, and the desk stays.
#[tactic(auto, using(crate::proofs::FileWords::seek_end_keeps))]
fn seek_from(
    alloc: Global,
    word: &Bytes,
    fd: u64,
    off: i64,
    from: &Bytes,
    desk: &mut Desk,
) -> Result<FileCommand, NoMemory>
    ensures ok { IfOk result (λ command. GoesOn (meaning lseek_form (seek_from_talk from.now word.now fd off) (lseek_file word.now fd)) (state_of desk.old) command (state_of desk.new)) }
    ensures desk { state_of desk.new ≡ state_behind (meaning lseek_form (seek_from_talk from.now word.now fd off) (lseek_file word.now fd)) (state_of desk.old) }
    ensures err { OnErr result (state_of desk.new ≡ state_of desk.old) }
{
    if is_word(from.as_slice(), b"set") {
        seek_at_once(alloc, word, fd, off, Whence::Set, desk)
    } else if is_word(from.as_slice(), b"cur") {
        seek_at_once(alloc, word, fd, off, Whence::Cur, desk)
    } else if is_word(from.as_slice(), b"end") {
        seek_end(alloc, word, fd, off, desk)
    } else {
        usage(alloc, b"lseek FD OFF set|cur|end")
    }
}

fn lseek(alloc: Global, words: &[Bytes], desk: &mut Desk) -> Result<FileCommand, NoMemory>
    ensures ok { IfOk result (λ command. GoesOn (lseek_talk words.now) (state_of desk.old) command (state_of desk.new)) }
    ensures desk { state_of desk.new ≡ state_behind (lseek_talk words.now) (state_of desk.old) }
    ensures err { OnErr result (state_of desk.new ≡ state_of desk.old) }
{
    let Some((word, off, from)) = three_words(words) else {
        return usage(alloc, b"lseek FD OFF set|cur|end");
    };
    match (read_number(word.as_slice()), read_offset(off.as_slice())) {
        (Some(fd), Some(off)) => seek_from(alloc, word, fd, off, from, desk),
        _ => usage(alloc, b"lseek FD OFF set|cur|end"),
    }
}

fn dup_descriptor(
    alloc: Global,
    word: &Bytes,
    fd: u64,
    desk: &mut Desk,
) -> Result<FileCommand, NoMemory>
    ensures ok { IfOk result (λ command. GoesOn (dup_talk word.now fd) (state_of desk.old) command (state_of desk.new)) }
    ensures desk { state_of desk.new ≡ state_behind (dup_talk word.now fd) (state_of desk.old) }
    ensures err { OnErr result (state_of desk.new ≡ state_of desk.old) }
{
    match desk.fds.dup(fd) {
        Ok(new) => Ok(told_descriptor(new)),
        Err(fault) => failed(alloc, b"dup", word, fault.errno()),
    }
}

fn dup(alloc: Global, words: &[Bytes], desk: &mut Desk) -> Result<FileCommand, NoMemory>
    ensures ok { IfOk result (λ command. GoesOn (dup_words_talk words.now) (state_of desk.old) command (state_of desk.new)) }
    ensures desk { state_of desk.new ≡ state_behind (dup_words_talk words.now) (state_of desk.old) }
    ensures err { OnErr result (state_of desk.new ≡ state_of desk.old) }
{
    let [word] = words else {
        return usage(alloc, b"dup FD");
    };
    match read_number(word.as_slice()) {
        Some(fd) => dup_descriptor(alloc, word, fd, desk),
        None => usage(alloc, b"dup FD"),
    }
}

// The open file of a descriptor, to cut it.
fn cut_checks(fds: &FdTable, fd: u64) -> Result<OpenFile, Errno>
    ensures ok { IfOk result (λ opened. cut_checks_of fds.now fd ≡ Ok opened) }
    ensures fault { IfErr result (λ errno. cut_checks_of fds.now fd ≡ Err errno) }
{
    let opened = open_file(fds, fd)?;
    if !opened.writes {
        return Err(Errno::EINVAL);
    }
    Ok(opened)
}

fn cut_file(
    alloc: Global,
    word: &Bytes,
    fd: u64,
    len: u64,
    desk: &Desk,
) -> Result<FileCommand, NoMemory>
    ensures { IfOk result (λ command. GoesOn (cut_talk word.now fd len) (state_of desk.now) command (state_of desk.now)) }
{
    match cut_checks(&desk.fds, fd) {
        Ok(opened) => {
            let word = copy_word(alloc, word)?;
            Ok(FileCommand::Cut {
                word,
                file: opened.file,
                len,
            })
        }
        Err(errno) => failed(alloc, b"ftruncate", word, errno),
    }
}

fn ftruncate(alloc: Global, words: &[Bytes], desk: &Desk) -> Result<FileCommand, NoMemory>
    ensures { IfOk result (λ command. GoesOn (ftruncate_talk words.now) (state_of desk.now) command (state_of desk.now)) }
{
    let [word, len] = words else {
        return usage(alloc, b"ftruncate FD LEN");
    };
    match (read_number(word.as_slice()), read_number(len.as_slice())) {
        (Some(fd), Some(len)) => cut_file(alloc, word, fd, len, desk),
        _ => usage(alloc, b"ftruncate FD LEN"),
    }
}

fn sync_file(alloc: Global, word: &Bytes, fd: u64, desk: &Desk) -> Result<FileCommand, NoMemory>
    ensures { IfOk result (λ command. GoesOn (sync_talk word.now fd) (state_of desk.now) command (state_of desk.now)) }
{
    match open_file(&desk.fds, fd) {
        Ok(opened) => {
            let word = copy_word(alloc, word)?;
            Ok(FileCommand::Sync {
                word,
                file: opened.file,
            })
        }
        Err(errno) => failed(alloc, b"fsync", word, errno),
    }
}

fn fsync(alloc: Global, words: &[Bytes], desk: &Desk) -> Result<FileCommand, NoMemory>
    ensures { IfOk result (λ command. GoesOn (fsync_talk words.now) (state_of desk.now) command (state_of desk.now)) }
{
    let [word] = words else {
        return usage(alloc, b"fsync FD");
    };
    match read_number(word.as_slice()) {
        Some(fd) => sync_file(alloc, word, fd, desk),
        None => usage(alloc, b"fsync FD"),
    }
}

// The descriptor is given up at once; with the last one of its open file a Close is asked.
#[tactic(auto, using(crate::proofs::FileWords::close_asks, crate::proofs::FileWords::close_goes))]
fn close_descriptor(
    alloc: Global,
    word: &Bytes,
    fd: u64,
    desk: &mut Desk,
) -> Result<FileCommand, NoMemory>
    ensures ok { IfOk result (λ command. GoesOn (close_talk word.now fd) (state_of desk.old) command (state_of desk.new)) }
    ensures desk { OnOk result (state_of desk.new ≡ state_behind (close_talk word.now fd) (state_of desk.old)) }
    ensures err { OnErr result (state_of desk.new ≡ state_of desk.old) }
{
    let word = copy_word(alloc, word)?;
    match desk.fds.close(fd) {
        Ok(Some(file)) => Ok(FileCommand::Close {
            word,
            hold: file.hold,
        }),
        Ok(None) => Ok(shown(Bytes::new(alloc))),
        Err(fault) => failed(alloc, b"close", &word, fault.errno()),
    }
}

fn close(alloc: Global, words: &[Bytes], desk: &mut Desk) -> Result<FileCommand, NoMemory>
    ensures ok { IfOk result (λ command. GoesOn (close_words_talk words.now) (state_of desk.old) command (state_of desk.new)) }
    ensures desk { OnOk result (state_of desk.new ≡ state_behind (close_words_talk words.now) (state_of desk.old)) }
    ensures err { OnErr result (state_of desk.new ≡ state_of desk.old) }
{
    let [word] = words else {
        return usage(alloc, b"close FD");
    };
    match read_number(word.as_slice()) {
        Some(fd) => close_descriptor(alloc, word, fd, desk),
        None => usage(alloc, b"close FD"),
    }
}

/// The command of this name with these words behind it; `None` where it is of no open file. At want of
/// memory the desk is as before.
#[tactic(auto, using(crate::proofs::FileWords::open_keeps, crate::proofs::FileWords::read_keeps, crate::proofs::FileWords::write_keeps, crate::proofs::FileWords::cut_keeps, crate::proofs::FileWords::sync_keeps))]
pub fn file_command(
    alloc: Global,
    name: &[u8],
    words: &[Bytes],
    desk: &mut Desk,
) -> Result<Option<FileCommand>, NoMemory>
    ensures ok { IfOk result (λ found. BeginsFile (file_command_talk name.now words.now) (state_of desk.old) found (state_of desk.new)) }
    ensures desk { OnOk result (state_of desk.new ≡ begun_state (file_command_talk name.now words.now) (state_of desk.old)) }
    ensures err { OnErr result (state_of desk.new ≡ state_of desk.old) }
{
    let command = if is_word(name, b"open") {
        open(alloc, words, desk)?
    } else if is_word(name, b"read") {
        read(alloc, words, desk)?
    } else if is_word(name, b"write") {
        write(alloc, words, desk)?
    } else if is_word(name, b"lseek") {
        lseek(alloc, words, desk)?
    } else if is_word(name, b"dup") {
        dup(alloc, words, desk)?
    } else if is_word(name, b"ftruncate") {
        ftruncate(alloc, words, desk)?
    } else if is_word(name, b"fsync") {
        fsync(alloc, words, desk)?
    } else if is_word(name, b"close") {
        close(alloc, words, desk)?
    } else {
        return Ok(None);
    };
    Ok(Some(command))
}
