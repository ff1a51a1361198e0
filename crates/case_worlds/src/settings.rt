//! What a world is opened with: sections of roms, devices and a script.

use case_forms::{CaseFault, Section, block_of, name_of};
use deck_form::read_deck;
use std::alloc::Global;
use vfs_base::{CharsShape, Deck, Describe, List, PageCount, RomText, VolumeShape};

/// A script and its roms, and the devices.
#[derive(Drop)]
pub struct Setting {
    pub deck: Deck,
    pub describe: Describe,
}

impl Setting {
    /// Nothing is told yet.
    pub fn new(alloc: Global) -> Setting {
        Setting {
            deck: Deck {
                roms: List::new(alloc),
                acts: List::new(alloc),
            },
            describe: Describe {
                volumes: List::new(alloc),
                chars: List::new(alloc),
            },
        }
    }

    /// Takes the section in; `false` where it is none of a setting.
    pub fn set(&mut self, alloc: Global, section: Section) -> Result<bool, CaseFault> {
        match section.word {
            "about" => {}
            "anew" => *self = Setting::new(alloc),
            "script" => self.deck = script_of(alloc, section)?,
            "rom" => self.deck.roms.push(rom_of(alloc, section)?)?,
            "volume" => self.describe.volumes.push(volume_of(alloc, section.rest)?)?,
            "device" => self.describe.chars.push(device_of(alloc, section)?)?,
            _ => return Ok(false),
        }
        Ok(true)
    }
}

fn script_of(alloc: Global, section: Section) -> Result<Deck, CaseFault> {
    let text = block_of(alloc, section)?;
    match read_deck(alloc, text.as_slice()) {
        Ok(deck) => Ok(deck),
        Err(_) => Err(CaseFault::Input),
    }
}

fn rom_of(alloc: Global, section: Section) -> Result<RomText, CaseFault> {
    let name = name_of(alloc, section.rest)?;
    let manifest = block_of(alloc, section)?;
    Ok(RomText { name, manifest })
}

// A volume's name, and the pages of each of its cells.
fn volume_of(alloc: Global, rest: &str) -> Result<VolumeShape, CaseFault> {
    let Some((name, counts)) = rest.split_once(" ") else {
        return Err(CaseFault::Name);
    };
    let name = name_of(alloc, name)?;
    let pages = pages_of(alloc, counts)?;
    Ok(VolumeShape { name, pages })
}

fn pages_of(alloc: Global, counts: &str) -> Result<List<PageCount>, CaseFault> {
    let mut pages = List::new(alloc);
    for word in counts.split_whitespace() {
        let count = PageCount::new(word.parse()?).ok_or(CaseFault::Number)?;
        pages.push(count)?;
    }
    Ok(pages)
}

// A character device, whose input is the block. One that is `untold` does not tell it.
fn device_of(alloc: Global, section: Section) -> Result<CharsShape, CaseFault> {
    if let Some((name, "untold")) = section.rest.split_once(" ") {
        return Ok(CharsShape {
            name: name_of(alloc, name)?,
            input: None,
        });
    }
    let name = name_of(alloc, section.rest)?;
    let input = Some(block_of(alloc, section)?);
    Ok(CharsShape { name, input })
}
