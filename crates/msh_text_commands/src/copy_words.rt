//! How `cp` begins: by its words.

ghost use Rattle.std.specs.Prelude.{◌≡◌, IfOk};
ghost use Rattle.vfs_model.specs.CopyCommands.{cp as cp_talk};
ghost use Rattle.msh_text_commands.specs.CopyTalks.{copy_talk};

use crate::copies::{CopyCommand, shown};
use msh_desk::copy_word;
use msh_forms::usage_text;
use std::alloc::Global;
use vfs_base::{Bytes, NoMemory};

/// `cp`, which copies a file.
pub fn cp(alloc: Global, words: &[Bytes]) -> Result<CopyCommand, NoMemory>
    ensures { IfOk result (λ command. copy_talk command ≡ cp_talk words.now) }
{
    match words {
        [word, other] => {
            let word = copy_word(alloc, word)?;
            let other = copy_word(alloc, other)?;
            Ok(CopyCommand::Open { word, other })
        }
        _ => {
            let text = usage_text(alloc, b"cp SRC DST")?;
            Ok(shown(text))
        }
    }
}
