ghost use Rattle.std.specs.Prelude.{◌≡◌, ◌≤◌, ◌<◌, [], false, IsTrue, IfOk, IfErr, length};
ghost use Rattle.std.specs.List.{position};
ghost use Rattle.vfs_model.specs.Words.{is_blank as is_blank_byte, is_quote};
ghost use Rattle.msh_words.specs.Reading.{words_in, words_from, words_quoted, word_before, starts_word as is_word_start, Tells};

use crate::word_fault::WordFault;
use std::alloc::Global;
use vfs_base::Bytes;

fn is_blank(byte: u8) -> bool
    ensures { result ≡ is_blank_byte byte }
{
    byte == b' ' || byte == b'\t'
}

// Whether the text begins with a piece of a word.
pub(crate) fn starts_word(text: &[u8]) -> bool
    ensures { result ≡ is_word_start text.now }
{
    text.first().is_some_and(|&byte| !is_blank(byte))
}

// The text from its first byte on that is no blank.
pub(crate) fn skip_blanks(mut text: &[u8]) -> &[u8]
    ensures words { words_in result.now ≡ words_in text.now }
    ensures start { is_word_start result.now ≡ false → result.now ≡ [] }
    ensures shorter { length result.now ≤ length text.now }
{
    while let [first, rest @ ..] = text
        && is_blank(*first)
    {
        text = rest;
    }
    text
}

fn next_quote(text: &[u8]) -> Option<usize>
    ensures { result ≡ position is_quote text.now }
{
    text.iter().position(|&byte| byte == b'"')
}

// Adds the bytes before the closing quote to the word, and gives what follows that quote.
#[tactic(auto, using(crate::proofs::Pieces::quoting))]
fn push_quoted<'a>(word: &mut Bytes, text: &'a [u8]) -> Result<&'a [u8], WordFault>
    ensures ok { IfOk result (λ rest.
        words_quoted word.old text.now ≡ words_from word.new rest.now) }
    ensures shorter { IfOk result (λ rest. length rest.now < length text.now) }
    ensures fault { IfErr result (λ fault. Tells fault (words_quoted word.old text.now)) }
{
    let Some(end) = next_quote(text) else {
        return Err(WordFault::OpenQuote);
    };
    word.extend_from_slice(&text[..end])?;
    Ok(&text[end + 1..])
}

// Adds the piece at the text's front to the word, and gives what follows the piece.
fn push_piece<'a>(word: &mut Bytes, text: &'a [u8]) -> Result<&'a [u8], WordFault>
    requires { IsTrue (is_word_start text.now) }
    ensures ok { IfOk result (λ rest. words_from word.old text.now ≡ words_from word.new rest.now) }
    ensures shorter { IfOk result (λ rest. length rest.now < length text.now) }
    ensures fault { IfErr result (λ fault. Tells fault (words_from word.old text.now)) }
{
    match text {
        [] => unreachable!(),
        [b'"', rest @ ..] => push_quoted(word, rest),
        [byte, rest @ ..] => {
            word.push(*byte)?;
            Ok(rest)
        }
    }
}

// The word at the text's front, and what follows the word.
#[tactic(auto, using(crate::proofs::Pieces::words_begun))]
pub(crate) fn read_word(alloc: Global, text: &[u8]) -> Result<(Bytes, &[u8]), WordFault>
    requires { IsTrue (is_word_start text.now) }
    ensures ok { IfOk result (λ (word, rest).
        words_in text.now ≡ word_before word (words_in rest.now)) }
    ensures shorter { IfOk result (λ (word, rest). length rest.now < length text.now) }
    ensures fault { IfErr result (λ fault. Tells fault (words_in text.now)) }
{
    let mut word = Bytes::new(alloc);
    let mut rest = push_piece(&mut word, text)?;
    while starts_word(rest) {
        rest = push_piece(&mut word, rest)?;
    }
    Ok((word, rest))
}
