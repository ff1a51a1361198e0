//! The mode that the program's words name.

ghost use Rattle.std.specs.Prelude.{◌≡◌, None, true, is_some, IfOk, OnOk, IsErrOf, map, string_bytes};
ghost use Rattle.dfs_words.specs.Words.{job_named, job_of};

use crate::grammar::mode_word;
use std::alloc::{AllocError, Global};
use thiserror::Error;
use vfs_base::Bytes;

/// What the program is asked to do.
#[derive(Debug, Drop)]
pub struct Mode {
    pub job: Job,
    /// The file that the devices lie in, where one is named.
    pub image: Option<Bytes>,
}

/// The program's modes.
#[derive(Clone, Copy, Debug, PartialEq, Eq)]
pub enum Job {
    /// Runs the lines of the input, one after the other.
    Shell,
    /// Runs the script that the input is.
    Replay,
}

/// Why the words ask for nothing.
#[derive(Clone, Copy, Debug, PartialEq, Eq, Error)]
pub enum ModeFault {
    /// The words are outside the grammar.
    #[error("usage: dfs MODE [--seed N] [--steps N] [--image PATH]")]
    Usage,
    /// No memory to read the words.
    #[error("dfs: no memory")]
    NoMemory,
}

impl From<AllocError> for ModeFault {
    ghost use Rattle.dfs_words.specs.declared.mode.ModeFault.TheVariants.{NoMemory as WantsMemory};

    ghost from_gives = { λ _ fault. fault ≡ WantsMemory };

    fn from(_: AllocError) -> ModeFault {
        ModeFault::NoMemory
    }
}

/// The mode that the words name, those after the program's name: it is exactly one word, `shell` or
/// `replay`.
///
/// # Errors
/// `Usage` where the words are anything else, and `NoMemory`, which may come at any words.
pub fn mode_of(alloc: Global, words: &[String]) -> Result<Mode, ModeFault>
    ensures ok { IfOk result (λ mode. job_of (map string_bytes words.now) ≡ Some mode.job) }
    ensures image { IfOk result (λ mode. mode.image ≡ None) }
    ensures asked { OnOk result (is_some (job_of (map string_bytes words.now)) ≡ true) }
    ensures usage { IsErrOf result ModeFault.Usage
        → job_of (map string_bytes words.now) ≡ None }
{
    let Some(job) = job_named(mode_word(alloc, words)?) else {
        return Err(ModeFault::Usage);
    };
    Ok(Mode { job, image: None })
}

// The job of this name.
fn job_named(word: &str) -> Option<Job>
    ensures { result ≡ job_named word.now }
{
    if word == "shell" {
        Some(Job::Shell)
    } else if word == "replay" {
        Some(Job::Replay)
    } else {
        None
    }
}
