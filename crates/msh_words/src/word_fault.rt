ghost use Rattle.std.specs.Prelude.{◌≡◌};
ghost use Rattle.msh_words.specs.declared.word_fault.WordFault.TheVariants.{NoMemory as no_memory};

use thiserror::Error;
use vfs_base::NoMemory;

/// Why a line is not split into words. A line with several of the first three has the first of
/// BadByte, OpenQuote, TooManyWords.
#[derive(Clone, Copy, Debug, PartialEq, Eq, Error)]
pub enum WordFault {
    /// A quote is not closed.
    #[error("a quote is not closed")]
    OpenQuote = 1,
    /// There are more than ten words.
    #[error("more than ten words")]
    TooManyWords = 2,
    /// A byte of the line is zero.
    #[error("a zero byte")]
    BadByte = 3,
    /// Memory ran out, which tells nothing of the line.
    #[error("no memory")]
    NoMemory = 4,
}

impl From<NoMemory> for WordFault {
    ghost from_gives = { λ _ fault. fault ≡ no_memory };

    fn from(_error: NoMemory) -> WordFault {
        WordFault::NoMemory
    }
}
