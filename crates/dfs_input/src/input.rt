//! All bytes of an input are read, as far as a script may go.

ghost use Rattle.std.specs.Prelude.{◌≡◌, ◌<◌, ◌≤◌, length, Ok, IsTrue, IsFalse, IfSome, IfOk, OnOk};
ghost use Rattle.std.specs.Io.KnownBytes.{Consumes, IsAtEnd};
ghost use Rattle.vfs_base.specs.declared.deck.Deck.{Deck};
ghost use Rattle.vfs_outside.specs.Causes.{StillTells};
ghost use Rattle.vfs_model.specs.Deck.{deck_of};
ghost use Rattle.dfs_input.specs.Input.{ReadsMore, HasInputCause};

use crate::line_reader::CHUNK;
use std::alloc::Global;
use thiserror::Error;
use vfs_base::{Bytes, DECK_MAX, NoMemory};
use vfs_outside::{Failed, Source};

/// Why an input was not read.
#[derive(Clone, Copy, Debug, PartialEq, Eq, Error)]
pub enum InputFault {
    /// No memory for the bytes.
    #[error("no memory")]
    NoMemory,
    /// The source couldn't be read.
    #[error("the input couldn't be read")]
    Failed,
}

impl From<NoMemory> for InputFault {
    ghost use Rattle.dfs_input.specs.declared.input.InputFault.TheVariants.{NoMemory as WantsMemory};

    ghost from_gives = { λ _ fault. fault ≡ WantsMemory };

    fn from(_: NoMemory) -> InputFault {
        InputFault::NoMemory
    }
}

impl From<Failed> for InputFault {
    ghost use Rattle.dfs_input.specs.declared.input.InputFault.TheVariants.{Failed as SourceFailed};

    ghost from_gives = { λ _ fault. fault ≡ SourceFailed };

    fn from(_: Failed) -> InputFault {
        InputFault::Failed
    }
}

/// The bytes of the source to its end, or more of them than a script may have: then the rest is left
/// where it is, and says nothing more of the script.
///
/// # Errors
/// `Failed` where the source fails, and `NoMemory`. What was read is lost then.
#[tactic(auto, using(crate::proofs::InputLemmas::script_read, crate::proofs::InputLemmas::script_within))]
pub fn read_all<S: Source>(alloc: Global, source: &mut S) -> Result<Bytes, InputFault>
    ensures reads { IfOk result (λ bytes. Consumes (S.left source.old) (S.left source.new) bytes) }
    ensures end { IfOk result (λ bytes. length bytes ≤ 16777216 → IsAtEnd (S.left source.new)) }

    // What the bytes are is what the whole input is, and a script is never cut off.
    ensures script { IfOk result
        (λ bytes. IfSome (S.left source.old) (λ input. deck_of input ≡ deck_of bytes)) }
    ensures within { IfOk result
        (λ bytes. (deck : Deck) → deck_of bytes ≡ Ok deck → length bytes ≤ 16777216) }

    ensures tells { StillTells (S.left source.old) (S.left source.new) }
    ensures cause { HasInputCause (S.faults source.old) (S.faults source.new) result }
{
    let mut input = Bytes::new(alloc);
    let mut buffer = [0; CHUNK];
    while input.len() as u64 <= DECK_MAX {
        if !read_more(source, &mut buffer, &mut input)? {
            return Ok(input);
        }
    }
    Ok(input)
}

// Reads the next bytes behind those that were read, and answers whether there were any.
fn read_more<S: Source>(
    source: &mut S,
    buffer: &mut [u8; CHUNK],
    input: &mut Bytes,
) -> Result<bool, InputFault>
    ensures more { OnOk result
        (ReadsMore (S.left source.old) (S.left source.new) input.old input.new) }
    ensures some { IfOk result (λ some. IsTrue some → length input.old < length input.new) }
    ensures none { IfOk result
        (λ some. IsFalse some → (input.new ≡ input.old) × IsAtEnd (S.left source.new)) }
    ensures tells { StillTells (S.left source.old) (S.left source.new) }
    ensures cause { HasInputCause (S.faults source.old) (S.faults source.new) result }
{
    let count = source.read_some(buffer)?;
    input.extend_from_slice(&buffer[..count])?;
    Ok(count > 0)
}
