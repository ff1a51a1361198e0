//! Scripts, read from bytes.

ghost use Rattle.std.specs.Prelude.{◌≡◌, ◌≤◌, length, Ok, IfOk, IfErr, OnOk, not};
ghost use Rattle.vfs_model.specs.Deck.{deck_of};
ghost use Rattle.deck_form.specs.Draft.{AddsName, has_name};
ghost use Rattle.deck_form.specs.Reading.{StopsReadingDeck};

use crate::line::{DeckLine, deck_line};
use crate::lines::{Lines, line_text};
use crate::rom::read_rom;
use std::alloc::Global;
use std::collections::BTreeSet;
use thiserror::Error;
use vfs_base::{Deck, List, Name, NoMemory};

/// Why no script was read.
#[derive(Clone, Copy, Debug, PartialEq, Eq, Error)]
pub enum DeckFault {
    /// This line, counted from 1, is the first that is outside the form of a script. Where the `end` of a
    /// rom is missing, it is the number behind the last line.
    #[error("line {line} of the script is not in its form")]
    Line { line: u64 },
    /// No memory for the script.
    #[error("no memory")]
    NoMemory,
}

impl From<NoMemory> for DeckFault {
    ghost use Rattle.deck_form.specs.declared.deck.DeckFault.TheVariants.{NoMemory as WantsMemory};

    ghost from_gives = { λ _ fault. fault ≡ WantsMemory };

    fn from(_: NoMemory) -> DeckFault {
        DeckFault::NoMemory
    }
}

/// The script that the bytes are: at most 16,777,216 bytes, in lines of at most 1024.
///
/// # Errors
/// `Line` where the bytes are no script, with the first line at fault, and `NoMemory`.
#[tactic(auto, unfolding(vfs_model::specs::Deck::deck_of))]
pub fn read_deck(alloc: Global, bytes: &[u8]) -> Result<Deck, DeckFault>
    ensures deck { IfOk result (λ deck. deck_of bytes.now ≡ Ok deck) }
    ensures fault { IfErr result (StopsReadingDeck (deck_of bytes.now)) }
{
    let mut draft = DeckDraft::new(alloc);
    let mut lines = Lines::new(bytes);
    while let Some(raw) = lines.next_line()? {
        draft.take_line(alloc, line_text(raw), &mut lines)?;
    }
    Ok(draft.deck)
}

// What the lines so far mean, outside a rom, and the names of its roms in their order.
#[derive(Drop)]
struct DeckDraft {
    deck: Deck,
    names: BTreeSet<Name>,
}

impl DeckDraft {
    ghost use Rattle.vfs_model.specs.Deck.{empty_deck};
    ghost use Rattle.deck_form.specs.Draft.{KnowsRoms, TakesLine, StopsInLine, TakesRom, StopsInNewRom};

    fn new(alloc: Global) -> DeckDraft
        ensures deck { result.deck ≡ empty_deck }
        ensures known { KnowsRoms result.names.keys result.deck }
    {
        DeckDraft {
            deck: Deck {
                roms: List::new(alloc),
                acts: List::new(alloc),
            },
            names: BTreeSet::new(alloc),
        }
    }

    // Takes the line of this text, which was read last, and those of the rom that it opens.
    fn take_line(
        &mut self,
        alloc: Global,
        text: &[u8],
        lines: &mut Lines<'_>,
    ) -> Result<(), DeckFault>
        requires { KnowsRoms self.old.names.keys self.old.deck }
        ensures ok { OnOk result (TakesLine self.old.deck self.new.deck text.now lines.old lines.new) }
        ensures shorter { length lines.new.rest ≤ length lines.old.rest }
        ensures known { OnOk result (KnowsRoms self.new.names.keys self.new.deck) }
        ensures fault { IfErr result (StopsInLine self.old.deck text.now lines.old) }
    {
        match deck_line(alloc, text)? {
            Some(DeckLine::Blank) => Ok(()),
            Some(DeckLine::Asks { act }) => {
                self.deck.acts.push(act)?;
                Ok(())
            }
            Some(DeckLine::Opens { name }) => self.take_rom(alloc, name, lines),
            None => Err(DeckFault::Line {
                line: lines.number(),
            }),
        }
    }

    // Takes the lines of the rom of this name, unless another rom has it.
    fn take_rom(
        &mut self,
        alloc: Global,
        name: Name,
        lines: &mut Lines<'_>,
    ) -> Result<(), DeckFault>
        requires { KnowsRoms self.old.names.keys self.old.deck }
        ensures ok { OnOk result (TakesRom self.old.deck self.new.deck name lines.old lines.new) }
        ensures shorter { length lines.new.rest ≤ length lines.old.rest }
        ensures known { OnOk result (KnowsRoms self.new.names.keys self.new.deck) }
        ensures fault { IfErr result (StopsInNewRom self.old.deck name lines.old) }
    {
        if !insert_name(&mut self.names, &name)? {
            return Err(DeckFault::Line {
                line: lines.number(),
            });
        }
        let rom = read_rom(alloc, name, lines)?;
        self.deck.roms.push(rom)?;
        Ok(())
    }
}

// Puts a copy of the name at its place, and answers whether it is new.
fn insert_name(names: &mut BTreeSet<Name>, name: &Name) -> Result<bool, NoMemory>
    ensures added { IfOk result (λ added. added
        ≡ not (has_name names.old.keys name.now)) }
    ensures names { OnOk result (AddsName names.old.keys names.new.keys name.now) }
{
    Ok(names.insert(name.copy()?)?)
}
