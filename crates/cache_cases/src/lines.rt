//! The lines of a case: a call of the cache, the calls of the device that it makes, and its answer.

use crate::cell_file::CellFile;
use crate::ending::Ending;
use crate::logged_block::PageCall;
use crate::page_operation::{PageOperation, range_of};
use case_forms::{CaseFault, Section, case_text, push_section, push_text, section_of};
use std::alloc::Global;
use vfs_base::{Bytes, push_number};

/// Makes the case of what its lines call and answer.
pub fn play_case(alloc: Global, text: &str, made: &mut Bytes) -> Result<(), CaseFault> {
    for part in case_text(text)?.split("\n== ") {
        play_section(alloc, section_of(part), made)?;
    }
    Ok(())
}

fn play_section(alloc: Global, section: Section, made: &mut Bytes) -> Result<(), CaseFault> {
    match section.word {
        "about" => Ok(push_section(made, section)?),
        "cell" => play_cell(alloc, section, made),
        _ => Err(CaseFault::Section),
    }
}

// `cell PAGES fails NUMBER ..`: another cell, and the numbers of the calls of its device that fail.
fn play_cell(alloc: Global, section: Section, made: &mut Bytes) -> Result<(), CaseFault> {
    push_head(made, section.head)?;
    let (pages, fails) = section
        .rest
        .split_once(" fails ")
        .unwrap_or((section.rest, ""));
    let fails = numbers_of(alloc, fails)?;
    let mut file = CellFile::new(alloc, pages.parse()?, fails)?;
    play_lines(alloc, &mut file, section.body, made)
}

fn push_head(made: &mut Bytes, head: &str) -> Result<(), CaseFault> {
    made.extend_from_slice(b"== ")?;
    made.extend_from_slice(head.as_bytes())?;
    Ok(made.push(b'\n')?)
}

fn numbers_of(alloc: Global, text: &str) -> Result<Vec<u64>, CaseFault> {
    let mut numbers = Vec::new(alloc);
    for word in text.split_whitespace() {
        numbers.push(word.parse()?)?;
    }
    Ok(numbers)
}

fn play_lines(
    alloc: Global,
    file: &mut CellFile,
    body: Option<&str>,
    made: &mut Bytes,
) -> Result<(), CaseFault> {
    let Some(body) = body else {
        return Ok(());
    };
    for line in body.split("\n") {
        play_line(alloc, file, line, made)?;
    }
    Ok(())
}

fn play_line(
    alloc: Global,
    file: &mut CellFile,
    line: &str,
    made: &mut Bytes,
) -> Result<(), CaseFault> {
    let (asked, _) = line.split_once(" = ").ok_or(CaseFault::Reply)?;
    made.extend_from_slice(asked.as_bytes())?;
    made.extend_from_slice(b" =")?;
    file.forget_calls();
    let mut text = Bytes::new(alloc);
    let ending = run_line(alloc, file, asked, &mut text)?;
    push_calls(made, file.calls())?;
    push_ending(made, ending, text.as_slice())
}

// Carries the line out. What it shows comes to the end of the text.
fn run_line(
    alloc: Global,
    file: &mut CellFile,
    asked: &str,
    text: &mut Bytes,
) -> Result<Ending, CaseFault> {
    let words: Vec<&str> = asked.split_whitespace().collect(alloc)?;
    match *words.as_slice() {
        [word] => run_whole(alloc, file, word, text),
        ["touch", pages] => PageOperation::Touch.run(file, range_of(pages)?, text),
        ["cut", keep] => {
            file.cut(keep.parse()?);
            Ok(Ending::Done)
        }
        [word, pages, at, last] => run_part(alloc, file, word, pages, at, last, text),
        _ => Err(CaseFault::Call),
    }
}

// The calls of the whole file, and what is told of it.
fn run_whole(
    alloc: Global,
    file: &mut CellFile,
    word: &str,
    text: &mut Bytes,
) -> Result<Ending, CaseFault> {
    match word {
        "back" => return file.write_back(),
        "shrink" => return file.shrink(),
        "anew" => file.reopen(alloc)?,
        "stored" => push_stored(text, &file.stored())?,
        "counts" => push_counts(text, file)?,
        _ => return Err(CaseFault::Call),
    }
    Ok(Ending::Done)
}

// The calls of a part of each page.
fn run_part(
    alloc: Global,
    file: &mut CellFile,
    word: &str,
    pages: &str,
    at: &str,
    last: &str,
    text: &mut Bytes,
) -> Result<Ending, CaseFault> {
    let pages = range_of(pages)?;
    let at = at.parse()?;
    match word {
        "edit" => {
            let mut piece = Bytes::new(alloc);
            push_text(&mut piece, last)?;
            let piece = piece.as_slice();
            PageOperation::Edit { at, piece }.run(file, pages, text)
        }
        "out" => {
            let count = last.parse()?;
            PageOperation::Show { at, count }.run(file, pages, text)
        }
        "device" => {
            let count = last.parse()?;
            let ending = PageOperation::ShowDevice { at, count }.run(file, pages, text)?;
            file.forget_calls();
            Ok(ending)
        }
        _ => Err(CaseFault::Call),
    }
}

fn push_stored(text: &mut Bytes, words: &[u64; 16]) -> Result<(), CaseFault> {
    let mut first = 0u64;
    for word in words {
        push_word(text, first, *word)?;
        first = first.saturating_add(64);
    }
    if text.is_empty() {
        text.extend_from_slice(b"none")?;
    }
    Ok(())
}

// The pages of a word of the set, which has those from the first one on.
fn push_word(text: &mut Bytes, first: u64, word: u64) -> Result<(), CaseFault> {
    for bit in 0..64u32 {
        if (word >> bit) & 1 == 1 {
            push_page(text, first.saturating_add(u64::from(bit)))?;
        }
    }
    Ok(())
}

fn push_page(text: &mut Bytes, page: u64) -> Result<(), CaseFault> {
    if !text.is_empty() {
        text.push(b' ')?;
    }
    Ok(push_number(text, page)?)
}

fn push_counts(text: &mut Bytes, file: &CellFile) -> Result<(), CaseFault> {
    let counts = file.counts();
    push_number(text, counts.reads)?;
    text.extend_from_slice(b" reads ")?;
    push_number(text, counts.writes)?;
    text.extend_from_slice(b" writes ")?;
    push_number(text, counts.faults)?;
    Ok(text.extend_from_slice(b" faults")?)
}

fn push_calls(made: &mut Bytes, calls: &[PageCall]) -> Result<(), CaseFault> {
    for call in calls {
        push_call(made, *call)?;
    }
    Ok(())
}

// `r3`, `w7`, and `w7!` where it failed.
fn push_call(made: &mut Bytes, call: PageCall) -> Result<(), CaseFault> {
    made.extend_from_slice(if call.is_write { b" w" } else { b" r" })?;
    push_number(made, u64::from(call.page))?;
    if call.is_failed {
        made.push(b'!')?;
    }
    Ok(())
}

// What was shown, or `ok` where that is nothing; `fault` where a call of the device failed.
fn push_ending(made: &mut Bytes, ending: Ending, text: &[u8]) -> Result<(), CaseFault> {
    made.push(b' ')?;
    match ending {
        Ending::Fault => made.extend_from_slice(b"fault")?,
        Ending::Done if text.is_empty() => made.extend_from_slice(b"ok")?,
        Ending::Done => made.extend_from_slice(text)?,
    }
    Ok(made.push(b'\n')?)
}
