//! How `cat` and `echo` begin: by their words.

ghost use Rattle.std.specs.Prelude.{◌≡◌, IfOk};
ghost use Rattle.vfs_model.specs.CommandText.{line, usage as usage_talk};
ghost use Rattle.vfs_model.specs.TextCommands.{cat as cat_talk, echo as echo_talk};
ghost use Rattle.vfs_model.specs.Talk.{shows};
ghost use Rattle.msh_text_commands.specs.TextTalks.{text_talk};

use crate::texts::{TextCommand, cat_files, shown};
use msh_desk::{copy_word, copy_words};
use msh_forms::{line_text, usage_text};
use std::alloc::Global;
use vfs_base::{Bytes, NoMemory};

// The words are not those of the form.
fn usage(alloc: Global, form: &[u8]) -> Result<TextCommand, NoMemory>
    ensures { IfOk result (λ command. text_talk command ≡ usage_talk form.now) }
{
    let text = usage_text(alloc, form)?;
    Ok(shown(text))
}

/// `cat`, which shows the texts of files.
#[tactic(auto, using(crate::proofs::WordCounts::cat_words))]
pub fn cat(alloc: Global, words: &[Bytes]) -> Result<TextCommand, NoMemory>
    ensures { IfOk result (λ command. text_talk command ≡ cat_talk words.now) }
{
    match words {
        [] => usage(alloc, b"cat PATH.."),
        _ => {
            let words = copy_words(alloc, words)?;
            Ok(cat_files(words, Bytes::new(alloc)))
        }
    }
}

// The command is finished with the text and a line feed.
fn told_line(alloc: Global, text: &[u8]) -> Result<TextCommand, NoMemory>
    ensures { IfOk result (λ command. text_talk command ≡ shows (line text.now)) }
{
    let text = line_text(alloc, text)?;
    Ok(shown(text))
}

/// `echo`, which shows a text or appends it to a file.
pub fn echo(alloc: Global, words: &[Bytes]) -> Result<TextCommand, NoMemory>
    ensures { IfOk result (λ command. text_talk command ≡ echo_talk words.now) }
{
    match words {
        [] => told_line(alloc, b""),
        [text] => told_line(alloc, text.as_slice()),
        [text, file] => {
            let word = copy_word(alloc, file)?;
            let text = copy_word(alloc, text)?;
            Ok(TextCommand::EchoOpen { word, text })
        }
        _ => usage(alloc, b"echo [TEXT [FILE]]"),
    }
}
