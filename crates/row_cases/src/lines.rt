//! The lines of a case: a step of a row, and its answer.

use crate::answers::{push_answer, push_faults};
use crate::rows::{GENERATION, Row, answer_of, row_of};
use case_forms::{CaseFault, Section, case_text, push_section, section_of, step_of};
use std::alloc::Global;
use std::mem::size_of;
use vfs_base::{Bytes, FileId, Generation, RowId, Step, push_number};

/// Makes the case of what its lines ask and are answered.
pub fn play_case(alloc: Global, text: &str, made: &mut Bytes) -> Result<(), CaseFault> {
    let mut script = section_of("");
    for part in case_text(text)?.split("\n== ") {
        let section = section_of(part);
        if section.word == "fails" {
            play_again(alloc, script, section, made)?;
        } else {
            play_section(alloc, section, made)?;
            script = section;
        }
    }
    Ok(())
}

fn play_section(alloc: Global, section: Section, made: &mut Bytes) -> Result<(), CaseFault> {
    match section.word {
        "about" => Ok(push_section(made, section)?),
        "bytes" => push_size(made, section),
        _ => play_row(alloc, section, made),
    }
}

// `bytes AT MOST`: a row's own bytes are so many at most.
fn push_size(made: &mut Bytes, section: Section) -> Result<(), CaseFault> {
    let size = size_of::<Row>() as u64;
    let most: u64 = section.rest.parse()?;
    made.extend_from_slice(b"== bytes ")?;
    push_number(made, size.max(most))?;
    Ok(made.push(b'\n')?)
}

// A row of these words, and its steps.
fn play_row(alloc: Global, section: Section, made: &mut Bytes) -> Result<(), CaseFault> {
    push_head(made, section.head)?;
    let mut row = row_of(alloc, section.word, section.rest, Vec::new(alloc))?;
    for line in section.body.unwrap_or("").split("\n") {
        play_line(alloc, &mut row, line, made)?;
        made.push(b'\n')?;
    }
    Ok(())
}

// `fails NUMBER ..`: the row of the section before and its steps again, where the calls of the row's device with these
// numbers fail. A line is told that is another one than there.
fn play_again(
    alloc: Global,
    script: Section,
    section: Section,
    made: &mut Bytes,
) -> Result<(), CaseFault> {
    push_head(made, section.head)?;
    let fails = numbers_of(alloc, section.rest)?;
    let mut row = row_of(alloc, script.word, script.rest, fails)?;
    for line in script.body.unwrap_or("").split("\n") {
        play_changed(alloc, &mut row, line, made)?;
    }
    Ok(())
}

fn play_changed(
    alloc: Global,
    row: &mut Row,
    line: &str,
    made: &mut Bytes,
) -> Result<(), CaseFault> {
    let mut answered = Bytes::new(alloc);
    play_line(alloc, row, line, &mut answered)?;
    if answered.as_slice() == line.as_bytes() {
        return Ok(());
    }
    made.extend_from_slice(answered.as_slice())?;
    Ok(made.push(b'\n')?)
}

fn play_line(alloc: Global, row: &mut Row, line: &str, made: &mut Bytes) -> Result<(), CaseFault> {
    let (asked, _) = line.split_once(" = ").ok_or(CaseFault::Reply)?;
    made.extend_from_slice(asked.as_bytes())?;
    made.extend_from_slice(b" = ")?;
    let step = step_at(alloc, asked)?;
    take_step(alloc, row, &step, made)
}

fn take_step(alloc: Global, row: &mut Row, step: &Step, made: &mut Bytes) -> Result<(), CaseFault> {
    let before = row.faults();
    let (reply, mark) = answer_of(alloc, row, step);
    push_answer(made, &reply, mark)?;
    Ok(push_faults(made, before, row.faults())?)
}

fn step_at(alloc: Global, asked: &str) -> Result<Step, CaseFault> {
    let words: Vec<&str> = asked.split_whitespace().collect(alloc)?;
    let file = file_named(words.as_slice())?;
    step_of(alloc, file, words.as_slice())
}

// The first word says which file a step names: the row's, or that of an earlier or a later generation.
fn file_named(words: &[&str]) -> Result<FileId, CaseFault> {
    match *words {
        ["file", ..] | ["worker", ..] => file_of(GENERATION),
        ["earlier", ..] => file_of(GENERATION - 1),
        ["later", ..] => file_of(GENERATION + 1),
        _ => Err(CaseFault::Step),
    }
}

/// The file of a generation that is in the row.
pub fn file_of(generation: u64) -> Result<FileId, CaseFault> {
    Ok(FileId {
        row: RowId::new(1).ok_or(CaseFault::Step)?,
        generation: Generation::new(generation).ok_or(CaseFault::Step)?,
    })
}

fn push_head(made: &mut Bytes, head: &str) -> Result<(), CaseFault> {
    made.extend_from_slice(b"== ")?;
    made.extend_from_slice(head.as_bytes())?;
    Ok(made.push(b'\n')?)
}

fn numbers_of(alloc: Global, text: &str) -> Result<Vec<u64>, CaseFault> {
    let mut numbers = Vec::new(alloc);
    for word in text.split_whitespace() {
        numbers.push(word.parse()?)?;
    }
    Ok(numbers)
}
