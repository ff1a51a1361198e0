//! The grammar of the words: one command with one argument.

ghost use Rattle.std.specs.Prelude.{◌≡◌, ◌↔◌, ◌∷◌, [], None, map, string_bytes, IfOk, IsErrOf};
ghost use Rattle.std.specs.List.{list_any};
ghost use Rattle.clap.specs.Words.{app_of, kind_of};
ghost use Rattle.dfs_words.specs.Grammar.{grammar, is_escape};
ghost use Rattle.dfs_words.specs.Words.{job_of};

use crate::mode::ModeFault;
use clap::error::ErrorKind;
use clap::{Arg, Command, Error};
use std::alloc::{AllocError, Global};

/// The mode's word, where it is the only one.
pub fn mode_word<'a>(alloc: Global, words: &'a [String]) -> Result<&'a str, ModeFault>
    ensures ok { IfOk result (λ word. map string_bytes words.now ≡ word.now ∷ []) }
    ensures usage { IsErrOf result ModeFault.Usage
        → job_of (map string_bytes words.now) ≡ None }
{
    // The parser takes a mode before it or behind it.
    if has_escape(words) {
        return Err(ModeFault::Usage);
    }
    match command(alloc)?.try_get_matches_from(words) {
        Ok(matches) => matches.get_str("MODE").ok_or(ModeFault::Usage),
        Err(error) => Err(mode_fault(&error)),
    }
}

// A word is `--`.
fn has_escape(words: &[String]) -> bool
    ensures { result ≡ list_any (λ word. is_escape (string_bytes word)) words.now }
{
    words.iter().any(|word| word.as_str() == "--")
}

// The command, without help and version.
fn command<'a>(alloc: Global) -> Result<Command<'a>, AllocError>
    ensures { IfOk result (λ command. app_of command ≡ grammar) }
{
    let mode = Arg::new(alloc, "MODE").required(true);
    Command::new(alloc, "dfs")
        .no_binary_name(true)
        .disable_help_flag(true)
        .arg(mode)
}

// Any kind of mistake in the words is one of their form.
fn mode_fault(error: &Error) -> ModeFault
    ensures { (result ≡ ModeFault.NoMemory) ↔ (kind_of error.now ≡ ErrorKind.OutOfMemory) }
{
    match error.kind() {
        ErrorKind::OutOfMemory => ModeFault::NoMemory,
        _ => ModeFault::Usage,
    }
}
