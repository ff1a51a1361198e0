//! How a command of mounts and devices begins: by its name and the words behind it.

ghost use Rattle.std.specs.Prelude.{◌≡◌, IfOk, Some, None};
ghost use Rattle.std.specs.Option.{option_map};
ghost use Rattle.vfs_model.specs.CommandText.{usage as usage_talk};
ghost use Rattle.vfs_model.specs.MountCommands.{dentries as dentries_talk, df as df_talk, list_device as list_device_talk, mkfs as mkfs_talk, mount as mount_words_talk, mount_command as mount_command_talk, sync as sync_words_talk, umount as umount_talk};
ghost use Rattle.msh_tree_commands.specs.MountTalks.{mount_talk};

use crate::mounts::MountCommand;
use msh_desk::{copy_word, three_words};
use msh_forms::{is_word, usage_text};
use std::alloc::Global;
use vfs_base::{Bytes, NoMemory};

// The words are not those of the form.
fn usage(alloc: Global, form: &[u8]) -> Result<MountCommand, NoMemory>
    ensures { IfOk result (λ command. mount_talk command ≡ usage_talk form.now) }
{
    let text = usage_text(alloc, form)?;
    Ok(MountCommand::Shown { text })
}

fn mount(alloc: Global, words: &[Bytes]) -> Result<MountCommand, NoMemory>
    ensures { IfOk result (λ command. mount_talk command ≡ mount_words_talk words.now) }
{
    let Some((source, point, fs)) = three_words(words) else {
        return usage(alloc, b"mount SOURCE POINT TYPE");
    };
    let source = copy_word(alloc, source)?;
    let point = copy_word(alloc, point)?;
    let fs = copy_word(alloc, fs)?;
    Ok(MountCommand::Mount { source, point, fs })
}

fn umount(alloc: Global, words: &[Bytes]) -> Result<MountCommand, NoMemory>
    ensures { IfOk result (λ command. mount_talk command ≡ umount_talk words.now) }
{
    match words {
        [point] => {
            let point = copy_word(alloc, point)?;
            Ok(MountCommand::Umount { point })
        }
        _ => usage(alloc, b"umount POINT"),
    }
}

fn mkfs(alloc: Global, words: &[Bytes]) -> Result<MountCommand, NoMemory>
    ensures { IfOk result (λ command. mount_talk command ≡ mkfs_talk words.now) }
{
    match words {
        [name] => {
            let name = copy_word(alloc, name)?;
            Ok(MountCommand::Mkfs { name })
        }
        _ => usage(alloc, b"mkfs VOLUME"),
    }
}

fn df(alloc: Global, words: &[Bytes]) -> Result<MountCommand, NoMemory>
    ensures { IfOk result (λ command. mount_talk command ≡ df_talk words.now) }
{
    match words {
        [] => Ok(MountCommand::Df),
        _ => usage(alloc, b"df"),
    }
}

fn list_device(alloc: Global, words: &[Bytes]) -> Result<MountCommand, NoMemory>
    ensures { IfOk result (λ command. mount_talk command ≡ list_device_talk words.now) }
{
    match words {
        [] => Ok(MountCommand::ListDevice),
        _ => usage(alloc, b"list_device"),
    }
}

fn dentries(alloc: Global, words: &[Bytes]) -> Result<MountCommand, NoMemory>
    ensures { IfOk result (λ command. mount_talk command ≡ dentries_talk words.now) }
{
    match words {
        [] => Ok(MountCommand::Dentries),
        _ => usage(alloc, b"dentries"),
    }
}

fn sync(alloc: Global, words: &[Bytes]) -> Result<MountCommand, NoMemory>
    ensures { IfOk result (λ command. mount_talk command ≡ sync_words_talk words.now) }
{
    match words {
        [] => Ok(MountCommand::Sync),
        _ => usage(alloc, b"sync"),
    }
}

/// The command of this name with these words behind it; `None` where it is of no mount or device.
pub fn mount_command(
    alloc: Global,
    name: &[u8],
    words: &[Bytes],
) -> Result<Option<MountCommand>, NoMemory>
    ensures { IfOk result (λ found. option_map mount_talk found ≡ mount_command_talk name.now words.now) }
{
    let command = if is_word(name, b"mount") {
        mount(alloc, words)?
    } else if is_word(name, b"umount") {
        umount(alloc, words)?
    } else if is_word(name, b"mkfs") {
        mkfs(alloc, words)?
    } else if is_word(name, b"df") {
        df(alloc, words)?
    } else if is_word(name, b"list_device") {
        list_device(alloc, words)?
    } else if is_word(name, b"dentries") {
        dentries(alloc, words)?
    } else if is_word(name, b"sync") {
        sync(alloc, words)?
    } else {
        return Ok(None);
    };
    Ok(Some(command))
}
