ghost use Rattle.std.specs.Prelude.{◌≡◌, [], ◌∷◌, IfOk, OnOk, OnErr, List, slice_get};
ghost use Rattle.std.specs.Option.{option_map};
ghost use Rattle.vfs_base.specs.declared.reply.Reply.{Reply as AnyReply};
ghost use Rattle.vfs_model.specs.Command.{command as command_of, talk_or};
ghost use Rattle.vfs_model.specs.CopyCommands.{copy_command as copy_command_talk};
ghost use Rattle.vfs_model.specs.FolderCommands.{folder_command as folder_command_talk};
ghost use Rattle.vfs_model.specs.MountCommands.{mount_command as mount_command_talk};
ghost use Rattle.vfs_model.specs.Talk.{Talk};
ghost use Rattle.vfs_model.specs.declared.shell_state.ShellState.{ShellState};
ghost use Rattle.msh_commands.specs.CommandTalks.{command_talk, family_talk};
ghost use Rattle.msh_desk.specs.FitsReply.{TakesReply};
ghost use Rattle.msh_desk.specs.State.{state_of};

use crate::plain_words::plain_text;
use msh_desk::{Desk, finished};
use msh_file_commands::{FileCommand, MappingCommand, file_command, mapping_command};
use msh_forms::is_word;
use msh_text_commands::{CopyCommand, TextCommand, cat, cp, echo};
use msh_tree_commands::{FolderCommand, MountCommand, folder_command, mount_command};
use msh_words::Words;
use std::alloc::Global;
use vfs_base::{Bytes, NoMemory, Reply, Step};
use vfs_model::Next;

/// A command of the shell, where it stands between two steps.
pub struct Command {
    family: Family,
}

// By hand, so that whoever lets a command go makes one call.
impl Drop for Command {
    fn drop(self) {
        let Command { family } = self;
        drop(family);
    }
}

// A command of each family, or one that is finished at once.
#[derive(Drop)]
enum Family {
    Shown { text: Bytes },
    Folders { command: FolderCommand },
    Mounts { command: MountCommand },
    Texts { command: TextCommand },
    Copies { command: CopyCommand },
    Files { command: FileCommand },
    Mappings { command: MappingCommand },
}

impl Command {
    /// The command of a line's words, before its first step. Where the words close a further descriptor,
    /// duplicate one or move its place, the desk is changed at once.
    ///
    /// At want of memory the desk is as before.
    pub fn start(alloc: Global, words: Words, desk: &mut Desk) -> Result<Command, NoMemory>
        ensures ok { IfOk result (λ command. (later : List AnyReply) →
            command_talk command (state_of desk.new) later ≡ command_of words (state_of desk.old) later) }
        ensures desk { OnOk result (state_of desk.new ≡ (command_of words (state_of desk.old) []).state) }
        ensures err { OnErr result (state_of desk.new ≡ state_of desk.old) }
    {
        let family = match words.as_slice() {
            [] => Family::Shown {
                text: Bytes::new(alloc),
            },
            [name, words @ ..] => named_command(alloc, name.as_slice(), words, desk)?,
        };
        Ok(Command { family })
    }

    /// The step that is asked, or the whole text.
    pub fn next(&self, alloc: Global) -> Result<Next, NoMemory>
        ensures { IfOk result (λ next. (state : ShellState) → (command_talk self.now state []).next ≡ next) }
    {
        match &self.family {
            Family::Shown { text } => finished(alloc, text),
            Family::Folders { command } => command.next(alloc),
            Family::Mounts { command } => command.next(alloc),
            Family::Texts { command } => command.next(alloc),
            Family::Copies { command } => command.next(alloc),
            Family::Files { command } => command.next(alloc),
            Family::Mappings { command } => command.next(alloc),
        }
    }

    /// What gives back the reference at this place among those that the command has and no descriptor or
    /// mapping has, in the order of opening. `None` exactly where there are not so many. It takes no memory.
    pub fn own(&self, place: usize) -> Option<Step>
        ensures { (state : ShellState) → result ≡ slice_get (command_talk self.now state []).own place }
    {
        match &self.family {
            Family::Shown { .. } => None,
            Family::Folders { command } => command.own(place),
            Family::Mounts { command } => command.own(place),
            Family::Texts { command } => command.own(place),
            Family::Copies { command } => command.own(place),
            Family::Files { command } => command.own(place),
            Family::Mappings { command } => command.own(place),
        }
    }

    /// Takes in the reply to the step that is asked. The desk is as the last call left it. A reply of a form
    /// that the step doesn't have ends the command.
    ///
    /// At want of memory the desk and `own` have taken in the reply all the same. Text or bytes that were
    /// read are lost, so that the command may only be given up.
    #[tactic(auto, using(msh_tree_commands::proofs::MountKeeps::takes_asking, msh_text_commands::proofs::TextKeeps::text_takes_asking, msh_text_commands::proofs::CopyKeeps::copy_takes_asking))]
    pub fn feed(&mut self, alloc: Global, reply: &Reply, desk: &mut Desk) -> Result<(), NoMemory>
        requires { TakesReply (command_talk self.old (state_of desk.old) []).next reply.now }
        ensures ok { OnOk result ((later : List AnyReply) →
            command_talk self.new (state_of desk.new) later ≡ command_talk self.old (state_of desk.old) (reply.now ∷ later)) }
        ensures desk { state_of desk.new ≡ (command_talk self.old (state_of desk.old) (reply.now ∷ [])).state }
        ensures own { OnErr result ((state : ShellState) →
            (command_talk self.new state []).own ≡ (command_talk self.old (state_of desk.old) (reply.now ∷ [])).own) }
    {
        match &mut self.family {
            Family::Shown { .. } => Ok(()),
            Family::Folders { command } => command.feed(alloc, reply, desk),
            Family::Mounts { command } => command.feed(alloc, reply),
            Family::Texts { command } => command.feed(alloc, reply),
            Family::Copies { command } => command.feed(alloc, reply),
            Family::Files { command } => command.feed(alloc, reply, desk),
            Family::Mappings { command } => command.feed(alloc, reply, desk),
        }
    }
}

// The command of this name with these words behind it; `None` where it copies or shows no whole file.
fn copy_command(alloc: Global, name: &[u8], words: &[Bytes]) -> Result<Option<Family>, NoMemory>
    ensures { IfOk result (λ found. option_map family_talk found ≡ copy_command_talk name.now words.now) }
{
    let family = if is_word(name, b"cat") {
        let command = cat(alloc, words)?;
        Family::Texts { command }
    } else if is_word(name, b"echo") {
        let command = echo(alloc, words)?;
        Family::Texts { command }
    } else if is_word(name, b"cp") {
        let command = cp(alloc, words)?;
        Family::Copies { command }
    } else {
        return Ok(None);
    };
    Ok(Some(family))
}

// The command of this name that leaves the desk as it is; `None` where it is of no folder, mount or whole file.
fn plain_command(alloc: Global, name: &[u8], words: &[Bytes]) -> Result<Option<Family>, NoMemory>
    ensures { IfOk result (λ found. (other : Talk) →
        talk_or (option_map family_talk found) other
        ≡ talk_or (folder_command_talk name.now words.now) (talk_or (copy_command_talk name.now words.now) (talk_or (mount_command_talk name.now words.now) other))) }
{
    if let Some(command) = folder_command(alloc, name, words)? {
        return Ok(Some(Family::Folders { command }));
    }
    if let Some(family) = copy_command(alloc, name, words)? {
        return Ok(Some(family));
    }
    if let Some(command) = mount_command(alloc, name, words)? {
        return Ok(Some(Family::Mounts { command }));
    }
    Ok(None)
}

// The command of this name with these words behind it. Those of open files may change the desk at once.
fn named_command(
    alloc: Global,
    name: &[u8],
    words: &[Bytes],
    desk: &mut Desk,
) -> Result<Family, NoMemory>
    ensures ok { IfOk result (λ family. (later : List AnyReply) →
        family_talk family (state_of desk.new) later ≡ command_of (name.now ∷ words.now) (state_of desk.old) later) }
    ensures desk { OnOk result (state_of desk.new ≡ (command_of (name.now ∷ words.now) (state_of desk.old) []).state) }
    ensures err { OnErr result (state_of desk.new ≡ state_of desk.old) }
{
    if let Some(family) = plain_command(alloc, name, words)? {
        return Ok(family);
    }
    if let Some(command) = file_command(alloc, name, words, desk)? {
        return Ok(Family::Files { command });
    }
    if let Some(command) = mapping_command(alloc, name, words, desk)? {
        return Ok(Family::Mappings { command });
    }
    let text = plain_text(alloc, name, words)?;
    Ok(Family::Shown { text })
}
