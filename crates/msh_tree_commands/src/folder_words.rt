//! How a command of folders and names begins: by its name and the words behind it.

ghost use Rattle.std.specs.Prelude.{◌≡◌, IfOk, Some, None};
ghost use Rattle.std.specs.Option.{option_map};
ghost use Rattle.vfs_model.specs.CommandText.{usage as usage_talk};
ghost use Rattle.vfs_model.specs.FolderCommands.{cd as cd_talk, folder_command as folder_command_talk, ls as ls_talk, mkdir as mkdir_talk, mv as mv_talk, pwd as pwd_talk, rm as rm_talk, rmdir as rmdir_talk, stat as stat_talk};
ghost use Rattle.msh_tree_commands.specs.FolderTalks.{folder_talk};

use crate::folders::{FolderCommand, remove_all};
use msh_desk::{copy_word, copy_words};
use msh_forms::{is_word, usage_text};
use std::alloc::Global;
use vfs_base::{Bytes, NoMemory, copy_bytes};

// The words are not those of the form.
fn usage(alloc: Global, form: &[u8]) -> Result<FolderCommand, NoMemory>
    ensures { IfOk result (λ command. folder_talk command ≡ usage_talk form.now) }
{
    let text = usage_text(alloc, form)?;
    Ok(FolderCommand::Shown { text })
}

fn pwd(alloc: Global, words: &[Bytes]) -> Result<FolderCommand, NoMemory>
    ensures { IfOk result (λ command. folder_talk command ≡ pwd_talk words.now) }
{
    match words {
        [] => Ok(FolderCommand::Pwd),
        _ => usage(alloc, b"pwd"),
    }
}

fn cd(alloc: Global, words: &[Bytes]) -> Result<FolderCommand, NoMemory>
    ensures { IfOk result (λ command. folder_talk command ≡ cd_talk words.now) }
{
    match words {
        [] => Ok(FolderCommand::Cd),
        [word] => {
            let word = copy_word(alloc, word)?;
            Ok(FolderCommand::CdTo { word })
        }
        _ => usage(alloc, b"cd [PATH]"),
    }
}

fn ls(alloc: Global, words: &[Bytes]) -> Result<FolderCommand, NoMemory>
    ensures { IfOk result (λ command. folder_talk command ≡ ls_talk words.now) }
{
    match words {
        [] => {
            let word = copy_bytes(alloc, b".")?;
            Ok(FolderCommand::Ls { word })
        }
        [word] => {
            let word = copy_word(alloc, word)?;
            Ok(FolderCommand::Ls { word })
        }
        _ => usage(alloc, b"ls [PATH]"),
    }
}

fn mkdir(alloc: Global, words: &[Bytes]) -> Result<FolderCommand, NoMemory>
    ensures { IfOk result (λ command. folder_talk command ≡ mkdir_talk words.now) }
{
    match words {
        [word] => {
            let word = copy_word(alloc, word)?;
            Ok(FolderCommand::Mkdir { word })
        }
        _ => usage(alloc, b"mkdir PATH"),
    }
}

fn rmdir(alloc: Global, words: &[Bytes]) -> Result<FolderCommand, NoMemory>
    ensures { IfOk result (λ command. folder_talk command ≡ rmdir_talk words.now) }
{
    match words {
        [word] => {
            let word = copy_word(alloc, word)?;
            Ok(FolderCommand::Rmdir { word })
        }
        _ => usage(alloc, b"rmdir PATH"),
    }
}

#[tactic(auto, using(crate::proofs::WordCounts::rm_words))]
fn rm(alloc: Global, words: &[Bytes]) -> Result<FolderCommand, NoMemory>
    ensures { IfOk result (λ command. folder_talk command ≡ rm_talk words.now) }
{
    match words {
        [] => usage(alloc, b"rm PATH.."),
        _ => {
            let words = copy_words(alloc, words)?;
            Ok(remove_all(words))
        }
    }
}

fn mv(alloc: Global, words: &[Bytes]) -> Result<FolderCommand, NoMemory>
    ensures { IfOk result (λ command. folder_talk command ≡ mv_talk words.now) }
{
    match words {
        [old, new] => {
            let old = copy_word(alloc, old)?;
            let new = copy_word(alloc, new)?;
            Ok(FolderCommand::Mv { old, new })
        }
        _ => usage(alloc, b"mv OLD NEW"),
    }
}

fn stat(alloc: Global, words: &[Bytes]) -> Result<FolderCommand, NoMemory>
    ensures { IfOk result (λ command. folder_talk command ≡ stat_talk words.now) }
{
    match words {
        [word] => {
            let word = copy_word(alloc, word)?;
            Ok(FolderCommand::Stat { word })
        }
        _ => usage(alloc, b"stat PATH"),
    }
}

/// The command of this name with these words behind it; `None` where it is of no folder or name.
pub fn folder_command(
    alloc: Global,
    name: &[u8],
    words: &[Bytes],
) -> Result<Option<FolderCommand>, NoMemory>
    ensures { IfOk result (λ found. option_map folder_talk found ≡ folder_command_talk name.now words.now) }
{
    let command = if is_word(name, b"pwd") {
        pwd(alloc, words)?
    } else if is_word(name, b"cd") {
        cd(alloc, words)?
    } else if is_word(name, b"ls") {
        ls(alloc, words)?
    } else if is_word(name, b"mkdir") {
        mkdir(alloc, words)?
    } else if is_word(name, b"rmdir") {
        rmdir(alloc, words)?
    } else if is_word(name, b"rm") {
        rm(alloc, words)?
    } else if is_word(name, b"mv") {
        mv(alloc, words)?
    } else if is_word(name, b"stat") {
        stat(alloc, words)?
    } else {
        return Ok(None);
    };
    Ok(Some(command))
}
