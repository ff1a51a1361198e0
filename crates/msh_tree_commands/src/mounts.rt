//! The commands of mounts and devices.

ghost use Rattle.std.specs.Prelude.{◌≡◌, [], ◌∷◌, IfOk, OnOk, OnErr, List, slice_get};
ghost use Rattle.vfs_base.specs.declared.reply.Reply.{Reply as AnyReply};
ghost use Rattle.vfs_model.specs.FolderCommands.{done_or_fails as done_talk};
ghost use Rattle.vfs_model.specs.MountCommands.{cells_told as cells_talk, devices_told as devices_talk, holders_told as holders_talk, mounts_told as mounts_talk, sync_files as sync_talk, synced as synced_talk};
ghost use Rattle.vfs_model.specs.Talk.{shows};
ghost use Rattle.vfs_model.specs.declared.shell_state.ShellState.{ShellState};
ghost use Rattle.msh_desk.specs.FitsReply.{TakesReply};
ghost use Rattle.msh_tree_commands.specs.MountTalks.{mount_talk, IsAsking};

use msh_desk::{ask, copy_word, done_or_fails, finished, is_absent};
use msh_forms::{
    devices_text, error_text, holders_text, mounts_text, row_text, subject_error_text,
};
use std::alloc::Global;
use std::collections::VecDeque;
use std::mem;
use vfs_base::{Bytes, FileId, NoMemory, Reply, Step};
use vfs_model::Next;

/// A command of mounts and devices, where it stands: the step that it asks and what it needs behind it.
#[derive(Drop)]
pub enum MountCommand {
    /// It is finished with this text.
    Shown {
        text: Bytes,
    },
    /// `mount` asks Mount.
    Mount {
        source: Bytes,
        point: Bytes,
        fs: Bytes,
    },
    /// `umount` asks Umount.
    Umount {
        point: Bytes,
    },
    /// `mkfs` asks Mkfs.
    Mkfs {
        name: Bytes,
    },
    /// `df` asks Mounts.
    Df,
    /// `list_device` asks Devices.
    ListDevice,
    /// `dentries` asks Dentries.
    Dentries,
    /// `sync` asks Cells.
    Sync,
    /// `sync` asks the Sync of a file, and then goes on with the others.
    SyncFile {
        file: FileId,
        others: VecDeque<FileId>,
    },
}

impl MountCommand {
    /// The step that is asked, or the whole text.
    pub fn next(&self, alloc: Global) -> Result<Next, NoMemory>
        ensures { IfOk result (λ next. (state : ShellState) → (mount_talk self.now state []).next ≡ next) }
    {
        match self {
            MountCommand::Shown { text } => finished(alloc, text),
            MountCommand::Mount { source, point, fs } => {
                let source = copy_word(alloc, source)?;
                let point = copy_word(alloc, point)?;
                let fs = copy_word(alloc, fs)?;
                Ok(ask(Step::Mount { source, point, fs }))
            }
            MountCommand::Umount { point } => {
                let point = copy_word(alloc, point)?;
                Ok(ask(Step::Umount { point }))
            }
            MountCommand::Mkfs { name } => {
                let name = copy_word(alloc, name)?;
                Ok(ask(Step::Mkfs { name }))
            }
            MountCommand::Df => Ok(ask(Step::Mounts)),
            MountCommand::ListDevice => Ok(ask(Step::Devices)),
            MountCommand::Dentries => Ok(ask(Step::Dentries)),
            MountCommand::Sync => Ok(ask(Step::Cells)),
            MountCommand::SyncFile { file, .. } => Ok(ask(Step::Sync { file: *file })),
        }
    }

    /// What gives back a reference that the command has: none, since it has none.
    pub fn own(&self, place: usize) -> Option<Step>
        ensures { (state : ShellState) → result ≡ slice_get (mount_talk self.now state []).own place }
    {
        match self {
            MountCommand::Shown { .. }
            | MountCommand::Mount { .. }
            | MountCommand::Umount { .. }
            | MountCommand::Mkfs { .. }
            | MountCommand::Df
            | MountCommand::ListDevice
            | MountCommand::Dentries
            | MountCommand::Sync
            | MountCommand::SyncFile { .. } => None,
        }
    }

    /// Takes in the reply to the step that is asked. A reply of a form that the step doesn't have ends the
    /// command. Want of memory loses text alone, and the command may only be given up.
    #[tactic(auto, using(crate::proofs::MountKeeps::reply_leaves))]
    pub fn feed(&mut self, alloc: Global, reply: &Reply) -> Result<(), NoMemory>
        requires { IsAsking self.old }
        ensures ok { OnOk result ((state : ShellState) (later : List AnyReply) → mount_talk self.new state later ≡ mount_talk self.old state (reply.now ∷ later)) }
        ensures kept { (state : ShellState) → (mount_talk self.old state (reply.now ∷ [])).state ≡ state }
        ensures own { OnErr result ((state before : ShellState) → (mount_talk self.new state []).own ≡ (mount_talk self.old before (reply.now ∷ [])).own) }
    {
        let text = Bytes::new(alloc);
        let command = mem::replace(self, MountCommand::Shown { text });
        *self = command.fed(alloc, reply)?;
        Ok(())
    }

    // Where the command stands behind the reply to the step that it asks.
    fn fed(self, alloc: Global, reply: &Reply) -> Result<MountCommand, NoMemory>
        requires { IsAsking self }
        ensures { IfOk result (λ command. (state : ShellState) (later : List AnyReply) →
            mount_talk command state later ≡ mount_talk self state (reply.now ∷ later)) }
    {
        match self {
            MountCommand::Shown { text } => Ok(shown(text)),
            MountCommand::Mount { point, .. } => done(alloc, b"mount", &point, reply),
            MountCommand::Umount { point } => done(alloc, b"umount", &point, reply),
            MountCommand::Mkfs { name } => done(alloc, b"mkfs", &name, reply),
            MountCommand::Df => mounts_told(alloc, reply),
            MountCommand::ListDevice => devices_told(alloc, reply),
            MountCommand::Dentries => holders_told(alloc, reply),
            MountCommand::Sync => cells_told(alloc, reply),
            MountCommand::SyncFile { file, others } => synced(alloc, file, others, reply),
        }
    }
}

// The command is finished with this text.
fn shown(text: Bytes) -> MountCommand
    ensures { mount_talk result ≡ shows text }
{
    MountCommand::Shown { text }
}

// The step had nothing to show.
fn done(
    alloc: Global,
    command: &[u8],
    subject: &Bytes,
    reply: &Reply,
) -> Result<MountCommand, NoMemory>
    ensures { IfOk result (λ next. mount_talk next ≡ done_talk command.now subject.now reply.now) }
{
    let text = done_or_fails(alloc, command, subject.as_slice(), reply)?;
    Ok(shown(text))
}

fn mounts_told(alloc: Global, reply: &Reply) -> Result<MountCommand, NoMemory>
    ensures { IfOk result (λ next. mount_talk next ≡ mounts_talk reply.now) }
{
    let text = match reply {
        Reply::MountList { lines } => mounts_text(alloc, lines.as_slice())?,
        Reply::Refused { errno } => error_text(alloc, b"df", *errno)?,
        _ => Bytes::new(alloc),
    };
    Ok(shown(text))
}

fn devices_told(alloc: Global, reply: &Reply) -> Result<MountCommand, NoMemory>
    ensures { IfOk result (λ next. mount_talk next ≡ devices_talk reply.now) }
{
    let text = match reply {
        Reply::DeviceList { lines } => devices_text(alloc, lines.as_slice())?,
        Reply::Refused { errno } => error_text(alloc, b"list_device", *errno)?,
        _ => Bytes::new(alloc),
    };
    Ok(shown(text))
}

fn holders_told(alloc: Global, reply: &Reply) -> Result<MountCommand, NoMemory>
    ensures { IfOk result (λ next. mount_talk next ≡ holders_talk reply.now) }
{
    let text = match reply {
        Reply::Holders { lines } => holders_text(alloc, lines.as_slice())?,
        Reply::Refused { errno } => error_text(alloc, b"dentries", *errno)?,
        _ => Bytes::new(alloc),
    };
    Ok(shown(text))
}

// One file after the other is written back.
fn sync_files(mut files: VecDeque<FileId>) -> MountCommand
    ensures { mount_talk result ≡ sync_talk files.items }
{
    match files.pop_front() {
        None => shown(Bytes::new(*files.allocator())),
        Some(file) => MountCommand::SyncFile {
            file,
            others: files,
        },
    }
}

fn cells_told(alloc: Global, reply: &Reply) -> Result<MountCommand, NoMemory>
    ensures { IfOk result (λ next. mount_talk next ≡ cells_talk reply.now) }
{
    match reply {
        Reply::Files { files } => {
            let files = Vec::from_slice(alloc, files.as_slice())?;
            Ok(sync_files(VecDeque::from_vec(files)))
        }
        Reply::Refused { errno } => {
            let text = error_text(alloc, b"sync", *errno)?;
            Ok(shown(text))
        }
        _ => Ok(shown(Bytes::new(alloc))),
    }
}

fn synced(
    alloc: Global,
    file: FileId,
    others: VecDeque<FileId>,
    reply: &Reply,
) -> Result<MountCommand, NoMemory>
    ensures { IfOk result (λ next. mount_talk next ≡ synced_talk file (sync_talk others.items) reply.now) }
{
    match reply {
        Reply::Done => Ok(sync_files(others)),
        Reply::Refused { errno } if is_absent(*errno) => Ok(sync_files(others)),
        Reply::Refused { errno } => {
            let subject = row_text(alloc, file.row)?;
            let text = subject_error_text(alloc, b"sync", subject.as_slice(), *errno)?;
            Ok(shown(text))
        }
        _ => Ok(shown(Bytes::new(alloc))),
    }
}
