//! The commands that show and append whole texts: `cat` and `echo`.

ghost use Rattle.std.specs.Prelude.{◌≡◌, [], ◌∷◌, codes, IfOk, OnOk, OnErr, List, slice_get};
ghost use Rattle.vfs_base.specs.declared.reply.Reply.{Reply as AnyReply};
ghost use Rattle.vfs_model.specs.TextCommands.{cat_files as cat_files_talk, cat_got as cat_got_round, cat_opened as cat_opened_talk, cat_round, closed as closed_talk, echo_left as echo_left_round, echo_opened as echo_opened_talk, echo_round, to_append as to_append_flags};
ghost use Rattle.vfs_model.specs.Talk.{shows};
ghost use Rattle.vfs_model.specs.declared.shell_state.ShellState.{ShellState};
ghost use Rattle.msh_text_commands.specs.TextTalks.{IsAsking, appended_hold, cat_after, echo_after, hold_behind, opened_hold, own_of, read_hold, stage_of, text_talk};

use crate::cat_reading::CatReading;
use crate::unwritten::Unwritten;
use bitflags::Flags;
use fd_table::moved_offset;
use msh_desk::{ask, copy_word, finished};
use msh_forms::{push_subject_error, subject_error_text};
use std::alloc::Global;
use std::collections::VecDeque;
use std::mem;
use vfs_base::{
    Bytes, FileId, HoldId, Kind, NoMemory, OpenFlags, PAGE_SIZE, Reply, Step, copy_bytes,
};
use vfs_model::Next;

/// `cat` or `echo`, where it stands: the step that it asks and what it needs behind it.
#[derive(Drop)]
pub enum TextCommand {
    /// It is finished with this text.
    Shown {
        text: Bytes,
    },
    /// `cat` asks Open.
    CatOpen {
        word: Bytes,
        others: VecDeque<Bytes>,
        text: Bytes,
    },
    /// `cat` asks Read.
    CatRead {
        reading: CatReading,
    },
    /// `cat` asks the Close of a file that it has read, and then goes on with the others.
    CatClose {
        word: Bytes,
        others: VecDeque<Bytes>,
        hold: HoldId,
        text: Bytes,
    },
    /// `cat` asks the Close of a file whose Read was refused.
    CatEnd {
        word: Bytes,
        hold: HoldId,
        text: Bytes,
    },
    /// `echo` asks Open.
    EchoOpen {
        word: Bytes,
        text: Bytes,
    },
    /// `echo` asks Append for what is left of the text.
    EchoAppend {
        word: Bytes,
        hold: HoldId,
        file: FileId,
        bytes: Unwritten,
    },
    /// `echo` asks the Close of its file.
    EchoEnd {
        word: Bytes,
        hold: HoldId,
        text: Bytes,
    },
}

impl TextCommand {
    /// The step that is asked, or the whole text.
    pub fn next(&self, alloc: Global) -> Result<Next, NoMemory>
        ensures { IfOk result (λ next. (state : ShellState) → (text_talk self.now state []).next ≡ next) }
    {
        match self {
            TextCommand::Shown { text } => finished(alloc, text),
            TextCommand::CatOpen { word, .. } => {
                let path = copy_word(alloc, word)?;
                let flags = OpenFlags::READ;
                Ok(ask(Step::Open { path, flags }))
            }
            TextCommand::CatRead { reading } => {
                Ok(ask(Step::Read {
                    file: reading.file,
                    off: reading.offset,
                    len: PAGE_SIZE,
                }))
            }
            TextCommand::EchoOpen { word, .. } => {
                let path = copy_word(alloc, word)?;
                let flags = to_append();
                Ok(ask(Step::Open { path, flags }))
            }
            TextCommand::EchoAppend { file, bytes, .. } => {
                let bytes = copy_bytes(alloc, bytes.as_slice())?;
                Ok(ask(Step::Append { file: *file, bytes }))
            }
            TextCommand::CatClose { hold, .. }
            | TextCommand::CatEnd { hold, .. }
            | TextCommand::EchoEnd { hold, .. } => Ok(ask(Step::Close { hold: *hold })),
        }
    }

    // The reference that the command has.
    fn hold(&self) -> Option<HoldId>
        ensures { (state : ShellState) → (text_talk self.now state []).own ≡ own_of result }
    {
        match self {
            TextCommand::Shown { .. }
            | TextCommand::CatOpen { .. }
            | TextCommand::EchoOpen { .. } => None,
            TextCommand::CatRead { reading } => Some(reading.hold),
            TextCommand::CatClose { hold, .. }
            | TextCommand::CatEnd { hold, .. }
            | TextCommand::EchoAppend { hold, .. }
            | TextCommand::EchoEnd { hold, .. } => Some(*hold),
        }
    }

    /// What gives back the reference at this place among those that the command has, which are one at most.
    pub fn own(&self, place: usize) -> Option<Step>
        ensures { (state : ShellState) → result ≡ slice_get (text_talk self.now state []).own place }
    {
        match self.hold() {
            Some(hold) if place == 0 => Some(Step::Close { hold }),
            _ => None,
        }
    }

    // The reference that the command has behind the reply.
    fn hold_behind(&self, reply: &Reply) -> Option<HoldId>
        ensures { result ≡ hold_behind self.now reply.now }
    {
        match (self, reply) {
            (
                TextCommand::CatOpen { .. } | TextCommand::EchoOpen { .. },
                Reply::Opened { hold, .. },
            ) => Some(*hold),
            (TextCommand::CatRead { reading }, Reply::Got { .. } | Reply::Refused { .. }) => {
                Some(reading.hold)
            }
            (TextCommand::EchoAppend { hold, .. }, Reply::Count { .. } | Reply::Refused { .. }) =>
                Some(*hold),
            _ => None,
        }
    }

    /// Takes in the reply to the step that is asked. A reply of a form that the step doesn't have ends the
    /// command. Want of memory loses text alone: `own` has taken in the reply, and the command may only be
    /// given up.
    #[tactic(auto, using(crate::proofs::TextKeeps::reply_keeps, crate::proofs::TextKeeps::reply_owns))]
    pub fn feed(&mut self, alloc: Global, reply: &Reply) -> Result<(), NoMemory>
        requires { IsAsking self.old }
        ensures ok { OnOk result ((state : ShellState) (later : List AnyReply) → text_talk self.new state later ≡ text_talk self.old state (reply.now ∷ later)) }
        ensures kept { (state : ShellState) → (text_talk self.old state (reply.now ∷ [])).state ≡ state }
        ensures own { OnErr result ((state before : ShellState) → (text_talk self.new state []).own ≡ (text_talk self.old before (reply.now ∷ [])).own) }
    {
        let lost = given_up(Bytes::new(alloc), self.hold_behind(reply));
        let command = mem::replace(self, lost);
        *self = command.fed(alloc, reply)?;
        Ok(())
    }

    // Where the command stands behind the reply to the step that it asks.
    fn fed(self, alloc: Global, reply: &Reply) -> Result<TextCommand, NoMemory>
        requires { IsAsking self }
        ensures { IfOk result (λ command. (state : ShellState) (later : List AnyReply) →
            text_talk command state later ≡ text_talk self state (reply.now ∷ later)) }
    {
        match self {
            TextCommand::Shown { text } => Ok(shown(text)),
            TextCommand::CatOpen { word, others, text } => { cat_opened(word, others, text, reply) }
            TextCommand::CatRead { reading } => cat_read(reading, reply),
            TextCommand::CatClose {
                word,
                others,
                text,
                ..
            } => { cat_closed(&word, others, text, reply) }
            TextCommand::CatEnd { word, text, .. } => failed_after(text, b"cat", &word, reply),
            TextCommand::EchoOpen { word, text } => echo_opened(alloc, word, text, reply),
            TextCommand::EchoAppend {
                word,
                hold,
                file,
                bytes,
            } => { echo_appended(alloc, word, hold, file, bytes, reply) }
            TextCommand::EchoEnd { word, text, .. } => failed_after(text, b"echo", &word, reply),
        }
    }
}

// `w,creat,append`.
fn to_append() -> OpenFlags
    ensures { result ≡ to_append_flags }
{
    OpenFlags::from_bits_retain(2 + 4 + 32)
}

/// The command is finished with this text.
pub fn shown(text: Bytes) -> TextCommand
    ensures { text_talk result ≡ shows text }
{
    TextCommand::Shown { text }
}

// A command that has lost its text, and has this reference. The text that is handed in stands for what is
// lost.
fn given_up(text: Bytes, hold: Option<HoldId>) -> TextCommand
    ensures { (state : ShellState) → (text_talk result state []).own ≡ own_of hold }
{
    match hold {
        None => shown(text),
        Some(hold) => {
            let word = text.empty_like();
            TextCommand::CatEnd { word, hold, text }
        }
    }
}

/// One file after the other is read, behind the text so far.
pub fn cat_files(mut words: VecDeque<Bytes>, text: Bytes) -> TextCommand
    ensures { text_talk result ≡ cat_files_talk words.items text }
{
    match words.pop_front() {
        None => shown(text),
        Some(word) => TextCommand::CatOpen {
            word,
            others: words,
            text,
        },
    }
}

// The command is over: at an error behind the text so far, or with the text.
fn failed_after(
    mut text: Bytes,
    command: &[u8],
    subject: &Bytes,
    reply: &Reply,
) -> Result<TextCommand, NoMemory>
    ensures { IfOk result (λ next. text_talk next ≡ closed_talk command.now subject.now text shows reply.now) }
{
    if let Reply::Refused { errno } = reply {
        push_subject_error(&mut text, command, subject.as_slice(), *errno)?;
    }
    Ok(shown(text))
}

fn cat_closed(
    word: &Bytes,
    others: VecDeque<Bytes>,
    text: Bytes,
    reply: &Reply,
) -> Result<TextCommand, NoMemory>
    ensures { IfOk result (λ next. text_talk next ≡ closed_talk (codes "cat") word.now text (cat_files_talk others.items) reply.now) }
{
    match reply {
        Reply::Done => Ok(cat_files(others, text)),
        _ => failed_after(text, b"cat", word, reply),
    }
}

fn cat_opened(
    word: Bytes,
    others: VecDeque<Bytes>,
    text: Bytes,
    reply: &Reply,
) -> Result<TextCommand, NoMemory>
    ensures { IfOk result (λ next. text_talk next ≡ cat_opened_talk text word (cat_files_talk others.items) reply.now) }
{
    match reply {
        Reply::Opened { hold, file, kind } => Ok(TextCommand::CatRead {
            reading: CatReading {
                word,
                others,
                hold: *hold,
                file: *file,
                kind: *kind,
                offset: 0,
                text,
            },
        }),
        _ => failed_after(text, b"cat", &word, reply),
    }
}

// A file is read until nothing comes, and a character device once.
fn cat_got(reading: CatReading, bytes: &Bytes) -> Result<TextCommand, NoMemory>
    ensures { IfOk result (λ next. text_talk next ≡ cat_after reading
        (cat_got_round reading.word reading.hold reading.kind (cat_files_talk reading.others.items) (stage_of reading) bytes.now)) }
{
    let CatReading {
        word,
        others,
        hold,
        file,
        kind,
        offset,
        mut text,
    } = reading;
    text.extend_from_slice(bytes.as_slice())?;
    if matches!(kind, Kind::Chr) || bytes.is_empty() {
        return Ok(TextCommand::CatClose {
            word,
            others,
            hold,
            text,
        });
    }
    let offset = moved_offset(offset, bytes.len() as u64);
    Ok(TextCommand::CatRead {
        reading: CatReading {
            word,
            others,
            hold,
            file,
            kind,
            offset,
            text,
        },
    })
}

fn cat_read(reading: CatReading, reply: &Reply) -> Result<TextCommand, NoMemory>
    ensures { IfOk result (λ next. text_talk next ≡ cat_after reading
        (cat_round reading.word reading.hold reading.kind (cat_files_talk reading.others.items) (stage_of reading) reply.now)) }
{
    match reply {
        Reply::Got { bytes } => cat_got(reading, bytes),
        Reply::Refused { errno } => {
            let CatReading {
                word,
                hold,
                mut text,
                ..
            } = reading;
            push_subject_error(&mut text, b"cat", word.as_slice(), *errno)?;
            Ok(TextCommand::CatEnd { word, hold, text })
        }
        _ => {
            let CatReading { text, .. } = reading;
            Ok(shown(text))
        }
    }
}

// What is left of the text is appended.
fn echo_left(word: Bytes, hold: HoldId, file: FileId, bytes: Unwritten) -> TextCommand
    ensures { text_talk result ≡ echo_after word hold file (echo_left_round word hold bytes) }
{
    if bytes.is_empty() {
        let text = word.empty_like();
        return TextCommand::EchoEnd { word, hold, text };
    }
    TextCommand::EchoAppend {
        word,
        hold,
        file,
        bytes,
    }
}

#[tactic(auto, using(crate::proofs::TextKeeps::echo_begins))]
fn echo_opened(
    alloc: Global,
    word: Bytes,
    text: Bytes,
    reply: &Reply,
) -> Result<TextCommand, NoMemory>
    ensures { IfOk result (λ next. text_talk next ≡ echo_opened_talk text word reply.now) }
{
    match reply {
        Reply::Opened { hold, file, .. } => {
            let bytes = Unwritten::new(text);
            Ok(echo_left(word, *hold, *file, bytes))
        }
        Reply::Refused { errno } => {
            let text = subject_error_text(alloc, b"echo", word.as_slice(), *errno)?;
            Ok(shown(text))
        }
        _ => Ok(shown(Bytes::new(alloc))),
    }
}

fn echo_appended(
    alloc: Global,
    word: Bytes,
    hold: HoldId,
    file: FileId,
    mut bytes: Unwritten,
    reply: &Reply,
) -> Result<TextCommand, NoMemory>
    ensures { IfOk result (λ next. text_talk next ≡ echo_after word hold file (echo_round word hold bytes reply.now)) }
{
    match reply {
        Reply::Count { n, .. } => {
            bytes.advance(*n);
            Ok(echo_left(word, hold, file, bytes))
        }
        Reply::Refused { errno } => {
            let text = subject_error_text(alloc, b"echo", word.as_slice(), *errno)?;
            Ok(TextCommand::EchoEnd { word, hold, text })
        }
        _ => Ok(shown(Bytes::new(alloc))),
    }
}
