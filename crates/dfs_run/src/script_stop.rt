//! Why no script was read.

ghost use Rattle.std.specs.Prelude.{◌≡◌};
ghost use Rattle.dfs_run.specs.Replaying.{script_note};

use crate::report::FaultNote;

/// Why a replay has no script to run.
#[derive(Clone, Copy, Debug, PartialEq, Eq)]
pub enum ScriptStop {
    /// No memory.
    NoMemory,
    /// That line of the input, counted from 1, is the first outside the form.
    BadLine { line: u64 },
    /// The source failed.
    ReadFault,
}

impl ScriptStop {
    // The same in the report's words.
    pub fn note(self) -> FaultNote
        ensures { result ≡ script_note self }
    {
        match self {
            ScriptStop::NoMemory => FaultNote::NoMemory,
            ScriptStop::BadLine { line } => FaultNote::BadDeck { line },
            ScriptStop::ReadFault => FaultNote::ReadFault,
        }
    }
}
