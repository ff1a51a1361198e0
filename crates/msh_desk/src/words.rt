//! Words that a command keeps.

ghost use Rattle.std.specs.Prelude.{◌≡◌, ◌++◌, ℕ, List, IfOk, IfNone, IfSome};
ghost use Rattle.vfs_model.specs.CommandText.{usage};
ghost use Rattle.vfs_model.specs.CommandWords.{three_words as three_words_talk, four_words as four_words_talk};
ghost use Rattle.vfs_model.specs.Talk.{Talk};

use std::alloc::Global;
use std::collections::VecDeque;
use vfs_base::{Bytes, NoMemory, copy_bytes};

/// A word in memory of its own.
pub fn copy_word(alloc: Global, word: &Bytes) -> Result<Bytes, NoMemory>
    ensures { IfOk result (λ copy. copy ≡ word.now) }
{
    copy_bytes(alloc, word.as_slice())
}

/// The same words in memory of their own.
pub fn copy_words(alloc: Global, words: &[Bytes]) -> Result<VecDeque<Bytes>, NoMemory>
    ensures { IfOk result (λ copies. copies.items ≡ words.now) }
{
    let mut copies = VecDeque::new(alloc);
    for word in words {
        let copy = copy_word(alloc, word)?;
        copies.push_back(copy)?;
    }
    Ok(copies)
}

/// The words, where they are three.
#[tactic(auto, using(crate::proofs::WordCounts::three, crate::proofs::WordCounts::not_three))]
pub fn three_words(words: &[Bytes]) -> Option<(&Bytes, &Bytes, &Bytes)>
    ensures some { IfSome result (λ found. (form : List ℕ) (go : List ℕ → List ℕ → List ℕ → Talk) →
        three_words_talk form go words.now ≡ go found.0.now found.1.now found.2.now) }
    ensures none { IfNone result ((form : List ℕ) (go : List ℕ → List ℕ → List ℕ → Talk) →
        three_words_talk form go words.now ≡ usage form) }
{
    if words.len() != 3 {
        return None;
    }
    Some((&words[0], &words[1], &words[2]))
}

/// The words, where they are four.
#[tactic(auto, using(crate::proofs::WordCounts::four, crate::proofs::WordCounts::not_four))]
pub fn four_words(words: &[Bytes]) -> Option<(&Bytes, &Bytes, &Bytes, &Bytes)>
    ensures some { IfSome result (λ found. (form : List ℕ) (go : List ℕ → List ℕ → List ℕ → List ℕ → Talk) →
        four_words_talk form go words.now ≡ go found.0.now found.1.now found.2.now found.3.now) }
    ensures none { IfNone result ((form : List ℕ) (go : List ℕ → List ℕ → List ℕ → List ℕ → Talk) →
        four_words_talk form go words.now ≡ usage form) }
{
    if words.len() != 4 {
        return None;
    }
    Some((&words[0], &words[1], &words[2], &words[3]))
}
