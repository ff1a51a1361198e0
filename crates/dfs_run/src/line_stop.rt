//! Why no more lines are served.

ghost use Rattle.std.specs.Prelude.{◌≡◌};
ghost use Rattle.dfs_run.specs.Causes.{note_of};

use crate::report::FaultNote;

/// Why a shell serves no more lines, though more may come.
#[derive(Clone, Copy, Debug, PartialEq, Eq)]
pub enum LineStop {
    /// No memory.
    NoMemory,
    /// That line of the input, counted from 1, is outside the form.
    BadLine { line: u64 },
    /// The source failed.
    ReadFault,
    /// The sink failed.
    WriteFault,
}

impl LineStop {
    // The same in the report's words.
    pub fn note(self) -> FaultNote
        ensures { result ≡ note_of self }
    {
        match self {
            LineStop::NoMemory => FaultNote::NoMemory,
            LineStop::BadLine { line } => FaultNote::BadDeck { line },
            LineStop::ReadFault => FaultNote::ReadFault,
            LineStop::WriteFault => FaultNote::WriteFault,
        }
    }
}
