//! Tables of single calls: a head names a call and what it is given, and the block is its answer.

use crate::small_calls::{
    entries_text, map_text, path_text, seek_text, sorted_text, streams_text, upwards_text,
};
use case_forms::{
    CaseFault, Section, case_text, push_escaped, push_section, push_text, section_of, tell_block,
};
use deck_form::{read_deck, soak_deck};
use msh_words::{Words, split};
use romfs::{read_manifest, write_manifest};
use std::alloc::Global;
use vfs_base::{Act, Bytes, Deck, NoMemory, RomText, push_number, push_who};
use vfs_outside::Devices;

/// Makes the table of what its calls answer.
pub fn play_table(alloc: Global, text: &str, made: &mut Bytes) -> Result<(), CaseFault> {
    for part in case_text(text)?.split("\n== ") {
        play_section(alloc, section_of(part), made)?;
    }
    Ok(())
}

fn play_section(alloc: Global, section: Section, made: &mut Bytes) -> Result<(), CaseFault> {
    if section.word == "about" {
        return Ok(push_section(made, section)?);
    }
    let mut answer = Bytes::new(alloc);
    push_answer(&mut answer, alloc, section)?;
    tell_block(made, alloc, section, answer.as_slice())
}

fn push_answer(out: &mut Bytes, alloc: Global, section: Section) -> Result<(), CaseFault> {
    match section.word {
        "words" | "manifest" | "script" | "entries" => push_read(out, alloc, section),
        "path" => path_text(out, alloc, section.rest),
        "sorted" => sorted_text(out, alloc, section.rest),
        "upwards" => upwards_text(out, alloc, section.rest),
        "seek" => seek_text(out, alloc, section.rest),
        "map" => map_text(out, alloc, section.rest),
        "soak" => push_soak(out, alloc, section.rest),
        "streams" => streams_text(out, alloc, section.rest),
        "devices" => push_devices(out, alloc),
        "want" => push_fault(out, format!(in alloc; "{NoMemory}")?.as_str()),
        _ => Err(CaseFault::Call),
    }
}

// The answer of a call that reads bytes.
fn push_read(out: &mut Bytes, alloc: Global, section: Section) -> Result<(), CaseFault> {
    let mut given = Bytes::new(alloc);
    push_text(&mut given, section.rest)?;
    match section.word {
        "words" => push_words(out, alloc, given.as_slice()),
        "manifest" => push_manifest(out, alloc, given.as_slice()),
        "script" => push_script(out, alloc, given.as_slice()),
        _ => entries_text(out, alloc, given.as_slice()),
    }
}

fn push_fault(out: &mut Bytes, text: &str) -> Result<(), CaseFault> {
    out.extend_from_slice(text.as_bytes())?;
    Ok(out.push(b'\n')?)
}

fn push_words(out: &mut Bytes, alloc: Global, line: &[u8]) -> Result<(), CaseFault> {
    match split(alloc, line) {
        Ok(words) => push_each(out, &words),
        Err(fault) => push_fault(out, format!(in alloc; "{fault}")?.as_str()),
    }
}

// The words, each with a bar behind it.
fn push_each(out: &mut Bytes, words: &Words) -> Result<(), CaseFault> {
    for word in words.as_slice() {
        push_escaped(out, word.as_slice())?;
        out.push(b'|')?;
    }
    Ok(out.push(b'\n')?)
}

fn push_manifest(out: &mut Bytes, alloc: Global, text: &[u8]) -> Result<(), CaseFault> {
    match read_manifest(alloc, text) {
        Ok(tree) => {
            let canonical = write_manifest(alloc, &tree)?;
            Ok(out.extend_from_slice(canonical.as_slice())?)
        }
        Err(fault) => push_fault(out, format!(in alloc; "{fault}")?.as_str()),
    }
}

fn push_script(out: &mut Bytes, alloc: Global, text: &[u8]) -> Result<(), CaseFault> {
    match read_deck(alloc, text) {
        Ok(deck) => Ok(push_deck(out, &deck)?),
        Err(fault) => push_fault(out, format!(in alloc; "{fault}")?.as_str()),
    }
}

// The roms, and a line for each act.
fn push_deck(out: &mut Bytes, deck: &Deck) -> Result<(), NoMemory> {
    for rom in deck.roms.as_slice() {
        push_rom(out, rom)?;
    }
    for act in deck.acts.as_slice() {
        push_act(out, act)?;
    }
    Ok(())
}

fn push_rom(out: &mut Bytes, rom: &RomText) -> Result<(), NoMemory> {
    out.extend_from_slice(b"rom ")?;
    out.extend_from_slice(rom.name.as_bytes())?;
    out.push(b'\n')?;
    out.extend_from_slice(rom.manifest.as_slice())?;
    out.extend_from_slice(b"end\n")
}

// A line that asks for the act.
fn push_act(out: &mut Bytes, act: &Act) -> Result<(), NoMemory> {
    match act {
        Act::Post { k, text, go } => {
            out.extend_from_slice(if *go { b"" } else { b"@" })?;
            push_number(out, u64::from(k.number()))?;
            out.push(b' ')?;
            out.extend_from_slice(text.as_slice())?;
        }
        Act::Events { list } => {
            out.push(b'!')?;
            for asker in list.as_slice() {
                out.push(b' ')?;
                push_who(out, *asker)?;
            }
        }
    }
    out.push(b'\n')
}

// The script of a seed and a number of lines.
fn push_soak(out: &mut Bytes, alloc: Global, rest: &str) -> Result<(), CaseFault> {
    let (seed, lines) = rest.split_once(" ").ok_or(CaseFault::Number)?;
    let deck = soak_deck(alloc, seed.parse()?, lines.parse()?)?;
    Ok(push_deck(out, &deck)?)
}

// How many devices are shown where none was handed in.
fn push_devices(out: &mut Bytes, alloc: Global) -> Result<(), CaseFault> {
    let shown = Devices::new(alloc).describe()?;
    let (volumes, chars) = (shown.volumes.len(), shown.chars.len());
    push_fault(
        out,
        format!(in alloc; "{volumes} volumes, {chars} devices")?.as_str(),
    )
}
