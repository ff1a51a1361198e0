//! The commands of open files.

ghost use Rattle.std.specs.Prelude.{◌≡◌, [], ◌∷◌, IfOk, OnOk, OnErr, List, ◌&&◌, slice_get};
ghost use Rattle.vfs_base.specs.declared.reply.Reply.{Reply as AnyReply};
ghost use Rattle.vfs_model.specs.CommandText.{fails, number_line};
ghost use Rattle.vfs_model.specs.CopyCommands.{is_cut as is_cut_kind};
ghost use Rattle.vfs_model.specs.FileCommands.{read_replied as read_talk, seek_place as seek_talk, seek_sized as seek_sized_talk, with_place, write_replied as write_talk, write_step as step_of_write};
ghost use Rattle.vfs_model.specs.FolderCommands.{done_or_fails as done_talk};
ghost use Rattle.vfs_model.specs.OpenCommands.{add_opened as add_talk, cut_replied as cut_talk, descriptor_line, open_replied as open_talk, opened_file as file_opened};
ghost use Rattle.vfs_model.specs.OpenStep.{truncates};
ghost use Rattle.vfs_model.specs.Talk.{shows};
ghost use Rattle.vfs_model.specs.declared.shell_state.ShellState.{ShellState};
ghost use Rattle.msh_file_commands.specs.FileTalks.{GoesOn, OwnsNone, file_talk, open_ended as open_ended_talk, own_of, state_behind};
ghost use Rattle.msh_desk.specs.FitsReply.{TakesReply};
ghost use Rattle.msh_desk.specs.State.{state_of};

use bitflags::Flags;
use fd_table::moved_offset;
use msh_desk::{Desk, ask, copy_word, done_or_fails, finished};
use msh_forms::{bytes_text, descriptor_text, number_text, push_subject_error, subject_error_text};
use std::alloc::Global;
use std::mem;
use vfs_base::{Bytes, Errno, FileId, HoldId, Kind, NoMemory, OpenFlags, Reply, Step, copy_bytes};
use vfs_model::{Next, OpenFile, Whence};

/// A command of open files, where it stands: the step that it asks and what it needs behind it.
#[derive(Drop)]
pub enum FileCommand {
    /// It is finished with this text.
    Shown {
        text: Bytes,
    },
    /// It is finished with the line of this number.
    ShownNumber {
        number: u64,
    },
    /// It is finished with the line of this descriptor.
    ShownDescriptor {
        fd: u64,
    },
    /// `open` asks Open.
    Open {
        word: Bytes,
        flags: OpenFlags,
    },
    /// `open` asks the Trunc of the file that it opened.
    OpenCut {
        word: Bytes,
        file: OpenFile,
    },
    /// `open` asks the Close of the file that it opened, whose Trunc was refused.
    OpenEnd {
        word: Bytes,
        hold: HoldId,
        errno: Errno,
    },
    /// `read` asks Read.
    Read {
        word: Bytes,
        fd: u64,
        n: u64,
        opened: OpenFile,
    },
    /// `write` asks Write, or Append.
    Write {
        word: Bytes,
        fd: u64,
        opened: OpenFile,
        bytes: Bytes,
    },
    /// `lseek` from the end asks Size.
    SeekEnd {
        word: Bytes,
        fd: u64,
        off: i64,
        file: FileId,
    },
    /// `ftruncate` asks Trunc.
    Cut {
        word: Bytes,
        file: FileId,
        len: u64,
    },
    /// `fsync` asks Sync.
    Sync {
        word: Bytes,
        file: FileId,
    },
    /// `close` of an open file's last descriptor asks Close.
    Close {
        word: Bytes,
        hold: HoldId,
    },
}

impl FileCommand {
    /// The step that is asked, or the whole text.
    pub fn next(&self, alloc: Global) -> Result<Next, NoMemory>
        ensures { IfOk result (λ next. (state : ShellState) → (file_talk self.now state []).next ≡ next) }
    {
        match self {
            FileCommand::Shown { text } => finished(alloc, text),
            FileCommand::ShownNumber { number } => {
                let text = number_text(alloc, *number)?;
                Ok(Next::Finished { text })
            }
            FileCommand::ShownDescriptor { fd } => {
                let text = descriptor_text(alloc, *fd)?;
                Ok(Next::Finished { text })
            }
            FileCommand::Open { word, flags } => {
                let path = copy_word(alloc, word)?;
                Ok(ask(Step::Open {
                    path,
                    flags: *flags,
                }))
            }
            FileCommand::OpenCut { file, .. } => Ok(ask(Step::Trunc {
                file: file.file,
                len: 0,
            })),
            FileCommand::OpenEnd { hold, .. } | FileCommand::Close { hold, .. } => {
                Ok(ask(Step::Close { hold: *hold }))
            }
            FileCommand::Read { n, opened, .. } => {
                let OpenFile { file, place, .. } = *opened;
                Ok(ask(Step::Read {
                    file,
                    off: place,
                    len: *n,
                }))
            }
            FileCommand::Write { opened, bytes, .. } => {
                let step = write_step(alloc, opened, bytes)?;
                Ok(ask(step))
            }
            FileCommand::SeekEnd { file, .. } => Ok(ask(Step::Size { file: *file })),
            FileCommand::Cut { file, len, .. } => Ok(ask(Step::Trunc {
                file: *file,
                len: *len,
            })),
            FileCommand::Sync { file, .. } => Ok(ask(Step::Sync { file: *file })),
        }
    }

    // The reference that the command has and no descriptor has: that of a file that is opened or closed.
    fn hold(&self) -> Option<HoldId>
        ensures { (state : ShellState) → own_of result ≡ (file_talk self.now state []).own }
    {
        match self {
            FileCommand::OpenCut { file, .. } => Some(file.hold),
            FileCommand::OpenEnd { hold, .. } | FileCommand::Close { hold, .. } => Some(*hold),
            FileCommand::Shown { .. }
            | FileCommand::ShownNumber { .. }
            | FileCommand::ShownDescriptor { .. }
            | FileCommand::Open { .. }
            | FileCommand::Read { .. }
            | FileCommand::Write { .. }
            | FileCommand::SeekEnd { .. }
            | FileCommand::Cut { .. }
            | FileCommand::Sync { .. } => None,
        }
    }

    /// What gives back the reference at this place among those that the command has and no descriptor
    /// has, which are one at most.
    pub fn own(&self, place: usize) -> Option<Step>
        ensures { (state : ShellState) → result ≡ slice_get (file_talk self.now state []).own place }
    {
        match self.hold() {
            Some(hold) if place == 0 => Some(Step::Close { hold }),
            _ => None,
        }
    }

    /// Takes in the reply to the step that is asked. A reply of a form that the step doesn't have ends the
    /// command. Want of memory loses text alone: the desk has taken in the reply, and the command may only
    /// be given up.
    pub fn feed(&mut self, alloc: Global, reply: &Reply, desk: &mut Desk) -> Result<(), NoMemory>
        requires { TakesReply (file_talk self.old (state_of desk.old) []).next reply.now }
        ensures ok { OnOk result ((later : List AnyReply) → file_talk self.new (state_of desk.new) later ≡ file_talk self.old (state_of desk.old) (reply.now ∷ later)) }
        ensures desk { state_of desk.new ≡ (file_talk self.old (state_of desk.old) (reply.now ∷ [])).state }
        ensures own { OnErr result ((state : ShellState) → (file_talk self.new state []).own ≡ (file_talk self.old (state_of desk.old) (reply.now ∷ [])).own) }
    {
        let text = Bytes::new(alloc);
        let command = mem::replace(self, FileCommand::Shown { text });
        *self = command.fed(alloc, reply, desk)?;
        Ok(())
    }

    // Where the command stands behind the reply to the step that it asks.
    #[tactic(auto, using(crate::proofs::FileKeeps::reply_owns))]
    fn fed(self, alloc: Global, reply: &Reply, desk: &mut Desk) -> Result<FileCommand, NoMemory>
        requires { TakesReply (file_talk self (state_of desk.old) []).next reply.now }
        ensures ok { IfOk result (λ command. (later : List AnyReply) → file_talk command (state_of desk.new) later ≡ file_talk self (state_of desk.old) (reply.now ∷ later)) }
        ensures desk { state_of desk.new ≡ (file_talk self (state_of desk.old) (reply.now ∷ [])).state }
        ensures own { OnErr result ((file_talk self (state_of desk.old) (reply.now ∷ [])).own ≡ []) }
    {
        match self {
            FileCommand::Shown { text } => Ok(shown(text)),
            FileCommand::ShownNumber { number } => Ok(told_number(number)),
            FileCommand::ShownDescriptor { fd } => Ok(told_descriptor(fd)),
            FileCommand::Open { word, flags } => open_replied(alloc, word, flags, reply, desk),
            FileCommand::OpenCut { word, file } => cut_replied(alloc, word, file, reply, desk),
            FileCommand::OpenEnd { word, errno, .. } => open_ended(alloc, &word, errno, reply),
            FileCommand::Read {
                word,
                fd,
                opened,
                ..
            } => { read_replied(alloc, &word, fd, &opened, reply, desk) }
            FileCommand::Write {
                word,
                fd,
                opened,
                ..
            } => { write_replied(alloc, &word, fd, &opened, reply, desk) }
            FileCommand::SeekEnd { word, fd, off, .. } => {
                seek_sized(alloc, &word, fd, off, reply, desk)
            }
            FileCommand::Cut { word, .. } => done(alloc, b"ftruncate", &word, reply),
            FileCommand::Sync { word, .. } => done(alloc, b"fsync", &word, reply),
            FileCommand::Close { word, .. } => done(alloc, b"close", &word, reply),
        }
    }
}

// At the end of the file, or at the place.
fn write_step(alloc: Global, file: &OpenFile, bytes: &Bytes) -> Result<Step, NoMemory>
    ensures { IfOk result (λ step. step ≡ step_of_write file.now bytes.now) }
{
    let bytes = copy_bytes(alloc, bytes.as_slice())?;
    let OpenFile {
        file,
        place,
        appends,
        ..
    } = *file;
    if appends {
        return Ok(Step::Append { file, bytes });
    }
    Ok(Step::Write {
        file,
        off: place,
        bytes,
    })
}

/// The command is finished with this text.
pub fn shown(text: Bytes) -> FileCommand
    ensures { file_talk result ≡ shows text }
{
    FileCommand::Shown { text }
}

/// The command is finished with the line of an error.
pub fn failed(
    alloc: Global,
    command: &[u8],
    subject: &Bytes,
    errno: Errno,
) -> Result<FileCommand, NoMemory>
    ensures { IfOk result (λ next. file_talk next ≡ fails command.now subject.now errno) }
{
    let text = subject_error_text(alloc, command, subject.as_slice(), errno)?;
    Ok(shown(text))
}

// The step had nothing to show.
fn done(
    alloc: Global,
    command: &[u8],
    subject: &Bytes,
    reply: &Reply,
) -> Result<FileCommand, NoMemory>
    ensures { IfOk result (λ next. file_talk next ≡ done_talk command.now subject.now reply.now) }
{
    let text = done_or_fails(alloc, command, subject.as_slice(), reply)?;
    Ok(shown(text))
}

/// The command is finished with the line of a descriptor.
pub fn told_descriptor(fd: u64) -> FileCommand
    ensures { file_talk result ≡ shows (descriptor_line fd) }
{
    FileCommand::ShownDescriptor { fd }
}

// The command is finished with the line of a number.
fn told_number(number: u64) -> FileCommand
    ensures { file_talk result ≡ shows (number_line number) }
{
    FileCommand::ShownNumber { number }
}

// The open file of an Opened, from its first byte on.
fn opened_file(hold: HoldId, file: FileId, kind: Kind, flags: OpenFlags) -> OpenFile
    ensures { result ≡ file_opened hold file kind flags }
{
    OpenFile {
        hold,
        file,
        kind,
        reads: flags.contains(OpenFlags::READ),
        writes: flags.contains(OpenFlags::WRITE),
        appends: flags.contains(OpenFlags::APPEND),
        place: 0,
    }
}

// Whether a Trunc is asked for.
fn is_cut(flags: OpenFlags, kind: Kind) -> bool
    ensures { result ≡ (truncates flags && is_cut_kind kind) }
{
    flags.contains(OpenFlags::TRUNC) && matches!(kind, Kind::Tmp | Kind::Cell)
}

// The open file gets its descriptor.
#[tactic(auto, using(crate::proofs::FileKeeps::add_owns))]
fn add_opened(
    alloc: Global,
    word: &Bytes,
    file: OpenFile,
    desk: &mut Desk,
) -> Result<FileCommand, NoMemory>
    ensures ok { IfOk result (λ next. GoesOn (add_talk word.now file) (state_of desk.old) next (state_of desk.new)) }
    ensures desk { state_of desk.new ≡ state_behind (add_talk word.now file) (state_of desk.old) }
    ensures own { OnErr result (OwnsNone (add_talk word.now file) (state_of desk.old)) }
{
    match desk.fds.add(file) {
        Ok(fd) => Ok(told_descriptor(fd)),
        Err(fault) => failed(alloc, b"open", word, fault.errno()),
    }
}

// The file is cut, or it is closed again and gets no descriptor.
fn cut_replied(
    alloc: Global,
    word: Bytes,
    file: OpenFile,
    reply: &Reply,
    desk: &mut Desk,
) -> Result<FileCommand, NoMemory>
    ensures ok { IfOk result (λ next. GoesOn (cut_talk word file reply.now) (state_of desk.old) next (state_of desk.new)) }
    ensures desk { state_of desk.new ≡ state_behind (cut_talk word file reply.now) (state_of desk.old) }
    ensures own { OnErr result (OwnsNone (cut_talk word file reply.now) (state_of desk.old)) }
{
    match reply {
        Reply::Done => add_opened(alloc, &word, file, desk),
        Reply::Refused { errno } => Ok(FileCommand::OpenEnd {
            word,
            hold: file.hold,
            errno: *errno,
        }),
        _ => Ok(shown(Bytes::new(alloc))),
    }
}

// The error of the Trunc, and that of the Close behind it where that is refused too.
fn open_ended(
    alloc: Global,
    word: &Bytes,
    errno: Errno,
    reply: &Reply,
) -> Result<FileCommand, NoMemory>
    ensures { IfOk result (λ next. file_talk next ≡ open_ended_talk word.now errno reply.now) }
{
    let mut text = subject_error_text(alloc, b"open", word.as_slice(), errno)?;
    if let Reply::Refused { errno } = reply {
        push_subject_error(&mut text, b"open", word.as_slice(), *errno)?;
    }
    Ok(shown(text))
}

fn open_replied(
    alloc: Global,
    word: Bytes,
    flags: OpenFlags,
    reply: &Reply,
    desk: &mut Desk,
) -> Result<FileCommand, NoMemory>
    ensures ok { IfOk result (λ next. GoesOn (open_talk word flags reply.now) (state_of desk.old) next (state_of desk.new)) }
    ensures desk { state_of desk.new ≡ state_behind (open_talk word flags reply.now) (state_of desk.old) }
    ensures own { OnErr result (OwnsNone (open_talk word flags reply.now) (state_of desk.old)) }
{
    match reply {
        Reply::Opened { hold, file, kind } => {
            let file = opened_file(*hold, *file, *kind, flags);
            if is_cut(flags, file.kind) {
                return Ok(FileCommand::OpenCut { word, file });
            }
            add_opened(alloc, &word, file, desk)
        }
        Reply::Refused { errno } => failed(alloc, b"open", &word, *errno),
        _ => Ok(shown(Bytes::new(alloc))),
    }
}

// The open file of the descriptor is here now; a character device stays at 0. It takes no memory.
fn put_place(desk: &mut Desk, fd: u64, kind: Kind, place: u64)
    ensures { state_of desk.new ≡ with_place fd kind place (state_of desk.old) }
{
    let place = if matches!(kind, Kind::Chr) { 0 } else { place };
    let _refusal = desk.fds.set_place(fd, place);
}

// The place moves by what came.
fn read_replied(
    alloc: Global,
    word: &Bytes,
    fd: u64,
    file: &OpenFile,
    reply: &Reply,
    desk: &mut Desk,
) -> Result<FileCommand, NoMemory>
    ensures ok { IfOk result (λ next. GoesOn (read_talk word.now fd file.now reply.now) (state_of desk.old) next (state_of desk.new)) }
    ensures desk { state_of desk.new ≡ state_behind (read_talk word.now fd file.now reply.now) (state_of desk.old) }
{
    match reply {
        Reply::Got { bytes } => {
            let place = moved_offset(file.place, bytes.len() as u64);
            put_place(desk, fd, file.kind, place);
            let text = bytes_text(alloc, bytes.as_slice())?;
            Ok(shown(text))
        }
        Reply::Refused { errno } => failed(alloc, b"read", word, *errno),
        _ => Ok(shown(Bytes::new(alloc))),
    }
}

// The place is behind what was written.
fn write_replied(
    alloc: Global,
    word: &Bytes,
    fd: u64,
    file: &OpenFile,
    reply: &Reply,
    desk: &mut Desk,
) -> Result<FileCommand, NoMemory>
    ensures ok { IfOk result (λ next. GoesOn (write_talk word.now fd file.now reply.now) (state_of desk.old) next (state_of desk.new)) }
    ensures desk { state_of desk.new ≡ state_behind (write_talk word.now fd file.now reply.now) (state_of desk.old) }
{
    match reply {
        Reply::Count { n, end } => {
            put_place(desk, fd, file.kind, *end);
            Ok(told_number(*n))
        }
        Reply::Refused { errno } => failed(alloc, b"write", word, *errno),
        _ => Ok(shown(Bytes::new(alloc))),
    }
}

/// The place is sought and shown. At want of memory the desk is as before.
pub fn seek_place(
    alloc: Global,
    word: &Bytes,
    fd: u64,
    off: i64,
    whence: Whence,
    desk: &mut Desk,
) -> Result<FileCommand, NoMemory>
    ensures ok { IfOk result (λ next. GoesOn (seek_talk word.now fd off whence) (state_of desk.old) next (state_of desk.new)) }
    ensures desk { state_of desk.new ≡ state_behind (seek_talk word.now fd off whence) (state_of desk.old) }
    ensures err { OnErr result (state_of desk.new ≡ state_of desk.old) }
{
    match desk.fds.seek(fd, off, whence) {
        Ok(place) => Ok(told_number(place)),
        Err(fault) => failed(alloc, b"lseek", word, fault.errno()),
    }
}

fn seek_sized(
    alloc: Global,
    word: &Bytes,
    fd: u64,
    off: i64,
    reply: &Reply,
    desk: &mut Desk,
) -> Result<FileCommand, NoMemory>
    ensures ok { IfOk result (λ next. GoesOn (seek_sized_talk word.now fd off reply.now) (state_of desk.old) next (state_of desk.new)) }
    ensures desk { state_of desk.new ≡ state_behind (seek_sized_talk word.now fd off reply.now) (state_of desk.old) }
{
    match reply {
        Reply::SizeIs { size } => {
            seek_place(alloc, word, fd, off, Whence::End { size: *size }, desk)
        }
        Reply::Refused { errno } => failed(alloc, b"lseek", word, *errno),
        _ => Ok(shown(Bytes::new(alloc))),
    }
}
