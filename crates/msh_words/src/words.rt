ghost use Rattle.std.specs.Prelude.{◌≡◌, ◌≤◌, List, length, Ok, Err, IfOk, IfErr, IsErrOf};
ghost use Rattle.vfs_model.specs.Words.{line_words, max_words, BadByte, OpenQuote, TooManyWords};
ghost use Rattle.msh_words.specs.Reading.{words_in, Tells};

use crate::piece::{read_word, skip_blanks, starts_word};
use crate::word_fault::WordFault;
use std::alloc::Global;
use std::marker::Model;
use vfs_base::{Bytes, List};

const MAX_WORDS: usize = 10;

/// The words of a line in their order, at most ten. A word may be empty; none has a zero byte.
#[derive(Debug, Drop)]
pub struct Words {
    words: List<Bytes>,
}

impl Model for Words {
    ghost use Rattle.std.specs.Prelude.{ℕ, List, length, ◌≤◌};
    ghost use Rattle.vfs_model.specs.Words.{max_words};

    ghost Value = { List (List ℕ) };

    ghost view = { λ words. words.words };

    ghost invariant = { λ words. length words.words ≤ max_words };
}

impl Words {
    /// The words, for reading.
    pub fn as_slice(&self) -> &[Bytes]
        ensures value { result.now ≡ self.now }
        ensures few { length result.now ≤ max_words }
    {
        self.words.as_slice()
    }

    /// The words as a list of their own, without a copy.
    pub fn into_list(self) -> List<Bytes>
        ensures value { result ≡ self }
        ensures few { length result ≤ max_words }
    {
        let Words { words } = self;
        words
    }
}

// All words of a text, however many they are.
fn read_words(alloc: Global, text: &[u8]) -> Result<List<Bytes>, WordFault>
    ensures ok { IfOk result (λ words. words_in text.now ≡ Some words) }
    ensures fault { IfErr result (λ fault. Tells fault (words_in text.now)) }
{
    let mut words = List::new(alloc);
    let mut rest = skip_blanks(text);
    while starts_word(rest) {
        let (word, tail) = read_word(alloc, rest)?;
        words.push(word)?;
        rest = skip_blanks(tail);
    }
    Ok(words)
}

/// Splits a line into its words, at spaces and tabs. What stands between two quotes `"` belongs to
/// a word as it is, without the quotes, and joins what stands beside it; so `""` is an empty word.
///
/// A line with several faults has the first of these: BadByte for a zero byte, also inside quotes;
/// OpenQuote; TooManyWords. Only NoMemory may stand in the place of any other answer.
pub fn split(alloc: Global, line: &[u8]) -> Result<Words, WordFault>
    ensures ok { IfOk result (λ words. line_words line.now ≡ Ok words) }
    ensures bad_byte { IsErrOf result WordFault.BadByte → line_words line.now ≡ Err BadByte }
    ensures open_quote { IsErrOf result WordFault.OpenQuote → line_words line.now ≡ Err OpenQuote }
    ensures too_many { IsErrOf result WordFault.TooManyWords →
        line_words line.now ≡ Err TooManyWords }
{
    if line.contains(&0) {
        return Err(WordFault::BadByte);
    }
    let words = read_words(alloc, line)?;
    if MAX_WORDS < words.len() {
        return Err(WordFault::TooManyWords);
    }
    Ok(Words { words })
}
