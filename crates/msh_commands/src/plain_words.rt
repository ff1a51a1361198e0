//! The commands that are finished at once: `help`, and a name that no command has.

ghost use Rattle.std.specs.Prelude.{◌≡◌, IfOk};
ghost use Rattle.vfs_model.specs.Command.{help as help_talk, help_command as help_command_talk, talk_or, unknown as unknown_talk};
ghost use Rattle.vfs_model.specs.Talk.{shows};

use msh_forms::{help_text, is_word, unknown_text, usage_text};
use std::alloc::Global;
use vfs_base::{Bytes, NoMemory};

fn help(alloc: Global, words: &[Bytes]) -> Result<Bytes, NoMemory>
    ensures { IfOk result (λ text. shows text ≡ help_talk words.now) }
{
    match words {
        [] => help_text(alloc),
        _ => usage_text(alloc, b"help"),
    }
}

/// The text of `help`, or that no command has this name.
pub fn plain_text(alloc: Global, name: &[u8], words: &[Bytes]) -> Result<Bytes, NoMemory>
    ensures { IfOk result (λ text. shows text ≡ talk_or (help_command_talk name.now words.now) (unknown_talk name.now)) }
{
    if is_word(name, b"help") {
        help(alloc, words)
    } else {
        unknown_text(alloc, name)
    }
}
