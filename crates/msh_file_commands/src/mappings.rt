//! The commands of mappings.

ghost use Rattle.std.specs.Prelude.{◌≡◌, ◌≤◌, ◌+◌, [], ◌∷◌, IfOk, OnOk, OnErr, List, slice_get};
ghost use Rattle.vfs_base.specs.declared.limits.TheConstants.{OFF_MAX};
ghost use Rattle.vfs_base.specs.declared.reply.Reply.{Reply as AnyReply};
ghost use Rattle.vfs_model.specs.CommandText.{fails};
ghost use Rattle.vfs_model.specs.FolderCommands.{done_or_fails as done_talk};
ghost use Rattle.vfs_model.specs.MappingCommands.{add_mapped as add_talk, load_replied as load_talk, map_replied as map_talk, store_replied as store_talk};
ghost use Rattle.vfs_model.specs.Talk.{shows};
ghost use Rattle.vfs_model.specs.declared.shell_state.ShellState.{ShellState};
ghost use Rattle.msh_file_commands.specs.FileTalks.{state_behind};
ghost use Rattle.msh_desk.specs.FitsReply.{TakesReply};
ghost use Rattle.msh_file_commands.specs.MappingTalks.{GoesOn, mapping_talk};
ghost use Rattle.msh_desk.specs.State.{state_of};

use crate::map_part::MapPart;
use msh_desk::{Desk, ask, copy_word, done_or_fails, finished};
use msh_forms::{bytes_text, mapping_text, number_text, subject_error_text};
use std::alloc::Global;
use std::mem;
use vfs_base::{Bytes, Errno, FileId, HoldId, NoMemory, Reply, Step};
use vfs_model::{Next, Window};

/// A command of mappings, where it stands: the step that it asks and what it needs behind it.
#[derive(Drop)]
pub enum MappingCommand {
    /// It is finished with this text.
    Shown {
        text: Bytes,
    },
    /// `mmap` asks Map.
    Map {
        word: Bytes,
        part: MapPart,
    },
    /// `mload` asks Load.
    Load {
        word: Bytes,
        file: FileId,
        offset: u64,
        len: u64,
    },
    /// `mstore` asks Store.
    Store {
        word: Bytes,
        file: FileId,
        offset: u64,
        bytes: Bytes,
    },
    /// `msync` asks Sync.
    Sync {
        word: Bytes,
        file: FileId,
    },
    /// `munmap` asks Unmap.
    Unmap {
        word: Bytes,
        hold: HoldId,
    },
}

impl MappingCommand {
    /// The step that is asked, or the whole text.
    pub fn next(&self, alloc: Global) -> Result<Next, NoMemory>
        ensures { IfOk result (λ next. (state : ShellState) → (mapping_talk self.now state []).next ≡ next) }
    {
        match self {
            MappingCommand::Shown { text } => finished(alloc, text),
            MappingCommand::Map { part, .. } => {
                let hold = part.file.hold;
                Ok(ask(Step::Map { hold }))
            }
            MappingCommand::Load {
                file,
                offset,
                len,
                ..
            } => {
                Ok(ask(Step::Load {
                    file: *file,
                    off: *offset,
                    len: *len,
                }))
            }
            MappingCommand::Store {
                file,
                offset,
                bytes,
                ..
            } => {
                let bytes = copy_word(alloc, bytes)?;
                Ok(ask(Step::Store {
                    file: *file,
                    off: *offset,
                    bytes,
                }))
            }
            MappingCommand::Sync { file, .. } => Ok(ask(Step::Sync { file: *file })),
            MappingCommand::Unmap { hold, .. } => Ok(ask(Step::Unmap { hold: *hold })),
        }
    }

    /// What gives back the reference at this place among those that the command has and no mapping has:
    /// that of a mapping that is given up.
    pub fn own(&self, place: usize) -> Option<Step>
        ensures { (state : ShellState) → result ≡ slice_get (mapping_talk self.now state []).own place }
    {
        match self {
            MappingCommand::Unmap { hold, .. } if place == 0 => Some(Step::Unmap { hold: *hold }),
            _ => None,
        }
    }

    /// Takes in the reply to the step that is asked. A reply of a form that the step doesn't have ends the
    /// command. Want of memory loses text alone: the desk has taken in the reply, and the command may only
    /// be given up.
    #[tactic(auto, using(crate::proofs::MappingKeeps::reply_owns))]
    pub fn feed(&mut self, alloc: Global, reply: &Reply, desk: &mut Desk) -> Result<(), NoMemory>
        requires { TakesReply (mapping_talk self.old (state_of desk.old) []).next reply.now }
        ensures ok { OnOk result ((later : List AnyReply) → mapping_talk self.new (state_of desk.new) later ≡ mapping_talk self.old (state_of desk.old) (reply.now ∷ later)) }
        ensures desk { state_of desk.new ≡ (mapping_talk self.old (state_of desk.old) (reply.now ∷ [])).state }
        ensures own { OnErr result ((state : ShellState) → (mapping_talk self.new state []).own ≡ (mapping_talk self.old (state_of desk.old) (reply.now ∷ [])).own) }
    {
        let text = Bytes::new(alloc);
        let command = mem::replace(self, MappingCommand::Shown { text });
        *self = command.fed(alloc, reply, desk)?;
        Ok(())
    }

    // Where the command stands behind the reply to the step that it asks.
    fn fed(self, alloc: Global, reply: &Reply, desk: &mut Desk) -> Result<MappingCommand, NoMemory>
        requires { TakesReply (mapping_talk self (state_of desk.old) []).next reply.now }
        ensures ok { IfOk result (λ command. (later : List AnyReply) → mapping_talk command (state_of desk.new) later ≡ mapping_talk self (state_of desk.old) (reply.now ∷ later)) }
        ensures desk { state_of desk.new ≡ (mapping_talk self (state_of desk.old) (reply.now ∷ [])).state }
    {
        match self {
            MappingCommand::Shown { text } => Ok(shown(text)),
            MappingCommand::Map { word, part } => map_replied(alloc, &word, &part, reply, desk),
            MappingCommand::Load { word, .. } => load_replied(alloc, &word, reply),
            MappingCommand::Store { word, .. } => store_replied(alloc, &word, reply),
            MappingCommand::Sync { word, .. } => done(alloc, b"msync", &word, reply),
            MappingCommand::Unmap { word, .. } => done(alloc, b"munmap", &word, reply),
        }
    }
}

/// The command is finished with this text.
pub fn shown(text: Bytes) -> MappingCommand
    ensures { mapping_talk result ≡ shows text }
{
    MappingCommand::Shown { text }
}

/// The command is finished with the line of an error.
pub fn failed(
    alloc: Global,
    command: &[u8],
    subject: &Bytes,
    errno: Errno,
) -> Result<MappingCommand, NoMemory>
    ensures { IfOk result (λ next. mapping_talk next ≡ fails command.now subject.now errno) }
{
    let text = subject_error_text(alloc, command, subject.as_slice(), errno)?;
    Ok(shown(text))
}

// The step had nothing to show.
fn done(
    alloc: Global,
    command: &[u8],
    subject: &Bytes,
    reply: &Reply,
) -> Result<MappingCommand, NoMemory>
    ensures { IfOk result (λ next. mapping_talk next ≡ done_talk command.now subject.now reply.now) }
{
    let text = done_or_fails(alloc, command, subject.as_slice(), reply)?;
    Ok(shown(text))
}

// The mapping is there from now on, with the least free number.
fn add_mapped(
    alloc: Global,
    word: &Bytes,
    window: Window,
    desk: &mut Desk,
) -> Result<MappingCommand, NoMemory>
    requires { window.off + window.len ≤ OFF_MAX }
    ensures ok { IfOk result (λ next. GoesOn (add_talk word.now window) (state_of desk.old) next (state_of desk.new)) }
    ensures desk { state_of desk.new ≡ state_behind (add_talk word.now window) (state_of desk.old) }
{
    match desk.windows.add(window) {
        Ok(number) => {
            let text = mapping_text(alloc, u64::from(number))?;
            Ok(shown(text))
        }
        Err(fault) => failed(alloc, b"mmap", word, fault.errno()),
    }
}

fn map_replied(
    alloc: Global,
    word: &Bytes,
    part: &MapPart,
    reply: &Reply,
    desk: &mut Desk,
) -> Result<MappingCommand, NoMemory>
    ensures ok { IfOk result (λ next. GoesOn (map_talk word.now part.now.file part.now.off part.now.len part.now.writes reply.now) (state_of desk.old) next (state_of desk.new)) }
    ensures desk { state_of desk.new ≡ state_behind (map_talk word.now part.now.file part.now.off part.now.len part.now.writes reply.now) (state_of desk.old) }
{
    match reply {
        Reply::Held { hold } => {
            let window = Window {
                hold: *hold,
                file: part.file.file,
                off: part.off,
                len: part.len,
                writes: part.writes,
            };
            add_mapped(alloc, word, window, desk)
        }
        Reply::Refused { errno } => failed(alloc, b"mmap", word, *errno),
        _ => Ok(shown(Bytes::new(alloc))),
    }
}

fn load_replied(alloc: Global, word: &Bytes, reply: &Reply) -> Result<MappingCommand, NoMemory>
    ensures { IfOk result (λ next. mapping_talk next ≡ load_talk word.now reply.now) }
{
    match reply {
        Reply::Got { bytes } => {
            let text = bytes_text(alloc, bytes.as_slice())?;
            Ok(shown(text))
        }
        Reply::Refused { errno } => failed(alloc, b"mload", word, *errno),
        _ => Ok(shown(Bytes::new(alloc))),
    }
}

fn store_replied(alloc: Global, word: &Bytes, reply: &Reply) -> Result<MappingCommand, NoMemory>
    ensures { IfOk result (λ next. mapping_talk next ≡ store_talk word.now reply.now) }
{
    match reply {
        Reply::Count { n, .. } => {
            let text = number_text(alloc, *n)?;
            Ok(shown(text))
        }
        Reply::Refused { errno } => failed(alloc, b"mstore", word, *errno),
        _ => Ok(shown(Bytes::new(alloc))),
    }
}
