//! The command that copies a file: `cp`.

ghost use Rattle.std.specs.Prelude.{◌≡◌, [], ◌∷◌, IfOk, OnOk, OnErr, List, slice_get};
ghost use Rattle.vfs_base.specs.declared.reply.Reply.{Reply as AnyReply};
ghost use Rattle.vfs_model.specs.CopyCommands.{copy_cut as copy_cut_talk, copy_fails as copy_fails_talk, copy_from_start as copy_from_start_talk, destination_opened as destination_opened_talk, same_file as same_file_test, source_opened as source_opened_talk, copy_closed as copy_closed_talk, copy_left as copy_left_round, copy_read as copy_read_round, copy_written as copy_written_round, close_source};
ghost use Rattle.vfs_model.specs.Talk.{shows};
ghost use Rattle.vfs_model.specs.declared.shell_state.ShellState.{ShellState};
ghost use Rattle.msh_text_commands.specs.CopyTalks.{IsAsking, both, copy_after, copy_talk, file_of, own_behind, own_source};

use crate::copy_end::CopyEnd;
use crate::unwritten::Unwritten;
use bitflags::Flags;
use fd_table::moved_offset;
use msh_desk::{ask, copy_word, finished};
use msh_forms::{push_subject_error, subject_error_text};
use std::alloc::Global;
use std::mem;
use vfs_base::{
    Bytes, Errno, FileId, HoldId, Kind, NoMemory, OpenFlags, PAGE_SIZE, Reply, Step, copy_bytes,
};
use vfs_model::Next;

/// `cp`, where it stands: the step that it asks and what it needs behind it.
#[derive(Drop)]
pub enum CopyCommand {
    /// It is finished with this text.
    Shown {
        text: Bytes,
    },
    /// It asks the Open of the source.
    Open {
        word: Bytes,
        other: Bytes,
    },
    /// It asks the Open of the destination.
    OpenTo {
        src: CopyEnd,
        word: Bytes,
    },
    /// It asks the Trunc of the destination.
    Cut {
        src: CopyEnd,
        dst: CopyEnd,
    },
    /// It asks Read.
    Read {
        src: CopyEnd,
        dst: CopyEnd,
        offset: u64,
    },
    /// It asks Write.
    Write {
        src: CopyEnd,
        dst: CopyEnd,
        offset: u64,
        bytes: Unwritten,
    },
    /// It asks the Close of the destination.
    CloseTo {
        src: CopyEnd,
        dst: CopyEnd,
        text: Bytes,
    },
    /// It asks the Close of the source.
    CloseFrom {
        src: CopyEnd,
        text: Bytes,
    },
}

impl CopyCommand {
    /// The step that is asked, or the whole text.
    pub fn next(&self, alloc: Global) -> Result<Next, NoMemory>
        ensures { IfOk result (λ next. (state : ShellState) → (copy_talk self.now state []).next ≡ next) }
    {
        match self {
            CopyCommand::Shown { text } => finished(alloc, text),
            CopyCommand::Open { word, .. } => {
                let path = copy_word(alloc, word)?;
                let flags = OpenFlags::from_bits_retain(1);
                Ok(ask(Step::Open { path, flags }))
            }
            CopyCommand::OpenTo { word, .. } => {
                let path = copy_word(alloc, word)?;
                let flags = OpenFlags::from_bits_retain(2 + 4);
                Ok(ask(Step::Open { path, flags }))
            }
            CopyCommand::Cut { dst, .. } => Ok(ask(Step::Trunc {
                file: dst.file,
                len: 0,
            })),
            CopyCommand::Read { src, offset, .. } => {
                Ok(ask(Step::Read {
                    file: src.file,
                    off: *offset,
                    len: PAGE_SIZE,
                }))
            }
            CopyCommand::Write {
                dst,
                offset,
                bytes,
                ..
            } => {
                let bytes = copy_bytes(alloc, bytes.as_slice())?;
                Ok(ask(Step::Write {
                    file: dst.file,
                    off: *offset,
                    bytes,
                }))
            }
            CopyCommand::CloseTo { dst, .. } => Ok(ask(Step::Close { hold: dst.hold })),
            CopyCommand::CloseFrom { src, .. } => Ok(ask(Step::Close { hold: src.hold })),
        }
    }

    /// What gives back the reference at this place among those that the command has: the source's, and
    /// behind it the destination's.
    pub fn own(&self, place: usize) -> Option<Step>
        ensures { (state : ShellState) → result ≡ slice_get (copy_talk self.now state []).own place }
    {
        match self {
            CopyCommand::Shown { .. } | CopyCommand::Open { .. } => None,
            CopyCommand::OpenTo { src, .. } | CopyCommand::CloseFrom { src, .. } => match place {
                0 => Some(Step::Close { hold: src.hold }),
                _ => None,
            },
            CopyCommand::Cut { src, dst }
            | CopyCommand::Read { src, dst, .. }
            | CopyCommand::Write { src, dst, .. }
            | CopyCommand::CloseTo { src, dst, .. } => match place {
                0 => Some(Step::Close { hold: src.hold }),
                1 => Some(Step::Close { hold: dst.hold }),
                _ => None,
            },
        }
    }

    // A command that has lost its text behind the reply, and has the same references. The text that is
    // handed in stands for what is lost.
    fn lost_behind(&self, text: Bytes, reply: &Reply) -> CopyCommand
        ensures { (state : ShellState) → (copy_talk result state []).own ≡ own_behind self.now reply.now }
    {
        match (self, reply) {
            (CopyCommand::Open { .. }, Reply::Opened { hold, file, kind }) => {
                source_lost(open_end(text, *hold, *file, *kind))
            }
            (CopyCommand::OpenTo { src, .. }, Reply::Opened { hold, file, kind }) => {
                both_lost(lost_end(src), open_end(text, *hold, *file, *kind))
            }
            (CopyCommand::OpenTo { src, .. }, Reply::Refused { .. })
            | (CopyCommand::CloseTo { src, .. }, Reply::Done | Reply::Refused { .. }) => {
                source_lost(lost_end(src))
            }
            (CopyCommand::Cut { src, dst }, Reply::Done | Reply::Refused { .. })
            | (CopyCommand::Read { src, dst, .. }, Reply::Got { .. } | Reply::Refused { .. })
            | (CopyCommand::Write { src, dst, .. }, Reply::Count { .. } | Reply::Refused { .. }) =>
                { both_lost(lost_end(src), lost_end(dst)) }
            _ => shown(text),
        }
    }

    /// Takes in the reply to the step that is asked. A reply of a form that the step doesn't have ends the
    /// command. Want of memory loses text and bytes alone: `own` has taken in the reply, and the command may
    /// only be given up.
    #[tactic(auto, using(crate::proofs::CopyKeeps::reply_keeps, crate::proofs::CopyKeeps::reply_owns))]
    pub fn feed(&mut self, alloc: Global, reply: &Reply) -> Result<(), NoMemory>
        requires { IsAsking self.old }
        ensures ok { OnOk result ((state : ShellState) (later : List AnyReply) → copy_talk self.new state later ≡ copy_talk self.old state (reply.now ∷ later)) }
        ensures kept { (state : ShellState) → (copy_talk self.old state (reply.now ∷ [])).state ≡ state }
        ensures own { OnErr result ((state before : ShellState) → (copy_talk self.new state []).own ≡ (copy_talk self.old before (reply.now ∷ [])).own) }
    {
        let lost = self.lost_behind(Bytes::new(alloc), reply);
        let command = mem::replace(self, lost);
        *self = command.fed(alloc, reply)?;
        Ok(())
    }

    // Where the command stands behind the reply to the step that it asks.
    fn fed(self, alloc: Global, reply: &Reply) -> Result<CopyCommand, NoMemory>
        requires { IsAsking self }
        ensures { IfOk result (λ command. (state : ShellState) (later : List AnyReply) →
            copy_talk command state later ≡ copy_talk self state (reply.now ∷ later)) }
    {
        match self {
            CopyCommand::Shown { text } => Ok(shown(text)),
            CopyCommand::Open { word, other } => source_opened(alloc, word, other, reply),
            CopyCommand::OpenTo { src, word } => destination_opened(alloc, src, word, reply),
            CopyCommand::Cut { src, dst } => destination_cut(alloc, src, dst, reply),
            CopyCommand::Read { src, dst, offset } => copy_read(alloc, src, dst, offset, reply),
            CopyCommand::Write {
                src,
                dst,
                offset,
                bytes,
            } => { copy_written(alloc, src, dst, offset, bytes, reply) }
            CopyCommand::CloseTo { src, dst, text } => destination_closed(src, &dst, text, reply),
            CopyCommand::CloseFrom { src, text } => source_closed(&src, text, reply),
        }
    }
}

// A file that is open, of this word.
fn open_end(word: Bytes, hold: HoldId, file: FileId, kind: Kind) -> CopyEnd
    ensures { result.hold ≡ hold }
{
    CopyEnd {
        word,
        hold,
        file,
        kind,
    }
}

// The same file, without its word.
fn lost_end(end: &CopyEnd) -> CopyEnd
    ensures { result.hold ≡ end.now.hold }
{
    open_end(end.word.empty_like(), end.hold, end.file, end.kind)
}

// A command that has lost its text, and has the source alone.
fn source_lost(src: CopyEnd) -> CopyCommand
    ensures { (state : ShellState) → (copy_talk result state []).own ≡ own_source src }
{
    let text = src.word.empty_like();
    CopyCommand::CloseFrom { src, text }
}

// A command that has lost its text, and has both files.
fn both_lost(src: CopyEnd, dst: CopyEnd) -> CopyCommand
    ensures { (state : ShellState) → (copy_talk result state []).own ≡ both src dst }
{
    let text = src.word.empty_like();
    CopyCommand::CloseTo { src, dst, text }
}

// The copy ends at an error of a file.
fn failed(alloc: Global, src: CopyEnd, dst: CopyEnd, errno: Errno) -> Result<CopyCommand, NoMemory>
    ensures { IfOk result (λ next. copy_talk next ≡ copy_fails_talk (file_of src) (file_of dst) dst.word errno) }
{
    let mut text = Bytes::new(alloc);
    push_subject_error(&mut text, b"cp", dst.word.as_slice(), errno)?;
    Ok(CopyCommand::CloseTo { src, dst, text })
}

// The destination is cut, and the copy begins.
fn destination_cut(
    alloc: Global,
    src: CopyEnd,
    dst: CopyEnd,
    reply: &Reply,
) -> Result<CopyCommand, NoMemory>
    ensures { IfOk result (λ next. copy_talk next ≡ copy_cut_talk (file_of src) (file_of dst) reply.now) }
{
    match reply {
        Reply::Done => Ok(CopyCommand::Read {
            src,
            dst,
            offset: 0,
        }),
        Reply::Refused { errno } => failed(alloc, src, dst, *errno),
        _ => Ok(shown(Bytes::new(alloc))),
    }
}

fn is_same_file(a: FileId, b: FileId) -> bool
    ensures { result ≡ same_file_test a b }
{
    a.row.number() == b.row.number() && a.generation.number() == b.generation.number()
}

// A file that can be cut to no bytes is cut first; a file is not copied to itself.
fn copy_from_start(alloc: Global, src: CopyEnd, dst: CopyEnd) -> Result<CopyCommand, NoMemory>
    ensures { IfOk result (λ next. copy_talk next ≡ copy_from_start_talk (file_of src) (file_of dst)) }
{
    if is_same_file(src.file, dst.file) {
        return failed(alloc, src, dst, Errno::EINVAL);
    }
    if matches!(dst.kind, Kind::Tmp | Kind::Cell) {
        return Ok(CopyCommand::Cut { src, dst });
    }
    Ok(CopyCommand::Read {
        src,
        dst,
        offset: 0,
    })
}

fn destination_opened(
    alloc: Global,
    src: CopyEnd,
    word: Bytes,
    reply: &Reply,
) -> Result<CopyCommand, NoMemory>
    ensures { IfOk result (λ next. copy_talk next ≡ destination_opened_talk (file_of src) word reply.now) }
{
    match reply {
        Reply::Opened { hold, file, kind } => {
            let dst = CopyEnd {
                word,
                hold: *hold,
                file: *file,
                kind: *kind,
            };
            copy_from_start(alloc, src, dst)
        }
        Reply::Refused { errno } => {
            let mut text = Bytes::new(alloc);
            push_subject_error(&mut text, b"cp", word.as_slice(), *errno)?;
            Ok(CopyCommand::CloseFrom { src, text })
        }
        _ => Ok(shown(Bytes::new(alloc))),
    }
}

fn source_opened(
    alloc: Global,
    word: Bytes,
    other: Bytes,
    reply: &Reply,
) -> Result<CopyCommand, NoMemory>
    ensures { IfOk result (λ next. copy_talk next ≡ source_opened_talk word other reply.now) }
{
    match reply {
        Reply::Opened { hold, file, kind } => {
            let src = CopyEnd {
                word,
                hold: *hold,
                file: *file,
                kind: *kind,
            };
            Ok(CopyCommand::OpenTo { src, word: other })
        }
        Reply::Refused { errno } => {
            let text = subject_error_text(alloc, b"cp", word.as_slice(), *errno)?;
            Ok(shown(text))
        }
        _ => Ok(shown(Bytes::new(alloc))),
    }
}

/// The command is finished with this text.
pub fn shown(text: Bytes) -> CopyCommand
    ensures { copy_talk result ≡ shows text }
{
    CopyCommand::Shown { text }
}

// Behind the destination's Close the source is closed.
fn destination_closed(
    src: CopyEnd,
    dst: &CopyEnd,
    mut text: Bytes,
    reply: &Reply,
) -> Result<CopyCommand, NoMemory>
    ensures { IfOk result (λ next. copy_talk next ≡ copy_closed_talk dst.now.word text (close_source (file_of src)) reply.now) }
{
    match reply {
        Reply::Done => Ok(CopyCommand::CloseFrom { src, text }),
        Reply::Refused { errno } => {
            push_subject_error(&mut text, b"cp", dst.word.as_slice(), *errno)?;
            Ok(CopyCommand::CloseFrom { src, text })
        }
        _ => Ok(shown(text)),
    }
}

// Behind the source's Close the command is over.
fn source_closed(src: &CopyEnd, mut text: Bytes, reply: &Reply) -> Result<CopyCommand, NoMemory>
    ensures { IfOk result (λ next. copy_talk next ≡ copy_closed_talk src.now.word text shows reply.now) }
{
    if let Reply::Refused { errno } = reply {
        push_subject_error(&mut text, b"cp", src.word.as_slice(), *errno)?;
    }
    Ok(shown(text))
}

// What was read is written, and nothing is the end.
fn copy_read(
    alloc: Global,
    src: CopyEnd,
    dst: CopyEnd,
    offset: u64,
    reply: &Reply,
) -> Result<CopyCommand, NoMemory>
    ensures { IfOk result (λ next. copy_talk next ≡ copy_after src dst (copy_read_round (file_of src) (file_of dst) offset reply.now)) }
{
    match reply {
        Reply::Got { bytes } if bytes.is_empty() => {
            Ok(CopyCommand::CloseTo {
                src,
                dst,
                text: Bytes::new(alloc),
            })
        }
        Reply::Got { bytes } => {
            let bytes = copy_word(alloc, bytes)?;
            Ok(CopyCommand::Write {
                src,
                dst,
                offset,
                bytes: Unwritten::new(bytes),
            })
        }
        Reply::Refused { errno } => {
            let mut text = Bytes::new(alloc);
            push_subject_error(&mut text, b"cp", src.word.as_slice(), *errno)?;
            Ok(CopyCommand::CloseTo { src, dst, text })
        }
        _ => Ok(shown(Bytes::new(alloc))),
    }
}

// Behind the last byte a character device is not read again.
fn copy_left(src: CopyEnd, dst: CopyEnd, offset: u64, bytes: Unwritten) -> CopyCommand
    ensures { copy_talk result ≡ copy_after src dst (copy_left_round (file_of src) (file_of dst) offset bytes) }
{
    if !bytes.is_empty() {
        return CopyCommand::Write {
            src,
            dst,
            offset,
            bytes,
        };
    }
    if matches!(src.kind, Kind::Chr) {
        let text = src.word.empty_like();
        return CopyCommand::CloseTo { src, dst, text };
    }
    CopyCommand::Read { src, dst, offset }
}

// A rest is written on, behind what was written.
fn copy_written(
    alloc: Global,
    src: CopyEnd,
    dst: CopyEnd,
    offset: u64,
    mut bytes: Unwritten,
    reply: &Reply,
) -> Result<CopyCommand, NoMemory>
    ensures { IfOk result (λ next. copy_talk next ≡ copy_after src dst (copy_written_round (file_of src) (file_of dst) offset bytes reply.now)) }
{
    match reply {
        Reply::Count { n, .. } => {
            bytes.advance(*n);
            Ok(copy_left(src, dst, moved_offset(offset, *n), bytes))
        }
        Reply::Refused { errno } => {
            let mut text = Bytes::new(alloc);
            push_subject_error(&mut text, b"cp", dst.word.as_slice(), *errno)?;
            Ok(CopyCommand::CloseTo { src, dst, text })
        }
        _ => Ok(shown(Bytes::new(alloc))),
    }
}
