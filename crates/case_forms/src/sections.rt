//! Sections of a case file: a head `== WORD REST`, and the lines of a block behind it.

use crate::case_fault::CaseFault;
use crate::escapes::{push_line, push_shown};
use std::alloc::Global;
use vfs_base::{Bytes, NoMemory};

/// A section as it stands in its file.
#[derive(Clone, Copy)]
pub struct Section<'a> {
    /// What stands behind `== `.
    pub head: &'a str,
    /// The head's first word.
    pub word: &'a str,
    /// What stands behind that and a space.
    pub rest: &'a str,
    /// The block's lines, the last without its line feed; `None` where there are none.
    pub body: Option<&'a str>,
}

/// The file's text from its first head on, without the last line feed: its parts at each `\n== ` are sections.
pub fn case_text(text: &str) -> Result<&str, CaseFault> {
    let Some(text) = text.strip_prefix("== ") else {
        return Err(CaseFault::Section);
    };
    let Some(text) = text.strip_suffix("\n") else {
        return Err(CaseFault::LastLine);
    };
    Ok(text)
}

/// The section of a part of a case's text.
pub fn section_of(part: &str) -> Section<'_> {
    match part.split_once("\n") {
        Some((head, body)) => headed(head, Some(body)),
        None => headed(part, None),
    }
}

fn headed<'a>(head: &'a str, body: Option<&'a str>) -> Section<'a> {
    match head.split_once(" ") {
        Some((word, rest)) => Section {
            head,
            word,
            rest,
            body,
        },
        None => Section {
            head,
            word: head,
            rest: "",
            body,
        },
    }
}

/// Puts the section at the end as it stands.
pub fn push_section(made: &mut Bytes, section: Section) -> Result<(), NoMemory> {
    push_head(made, section.head)?;
    push_body(made, section.body)
}

fn push_head(made: &mut Bytes, head: &str) -> Result<(), NoMemory> {
    made.extend_from_slice(b"== ")?;
    made.extend_from_slice(head.as_bytes())?;
    made.push(b'\n')
}

fn push_body(made: &mut Bytes, body: Option<&str>) -> Result<(), NoMemory> {
    let Some(body) = body else {
        return Ok(());
    };
    made.extend_from_slice(body.as_bytes())?;
    made.push(b'\n')
}

/// The bytes that the section's block stands for.
pub fn block_of(alloc: Global, section: Section) -> Result<Bytes, CaseFault> {
    let mut block = Bytes::new(alloc);
    push_lines(&mut block, section.body)?;
    Ok(block)
}

fn push_lines(block: &mut Bytes, body: Option<&str>) -> Result<(), CaseFault> {
    let Some(body) = body else {
        return Ok(());
    };
    for line in body.split("\n") {
        push_line(block, line)?;
    }
    Ok(())
}

/// Puts the section at the end with this text as its block. A block that stands for the text stays as it is.
pub fn tell_block(
    made: &mut Bytes,
    alloc: Global,
    section: Section,
    text: &[u8],
) -> Result<(), CaseFault> {
    let wanted = block_of(alloc, section)?;
    push_head(made, section.head)?;
    if wanted.as_slice() == text {
        push_body(made, section.body)?;
    } else {
        push_shown(made, text)?;
    }
    Ok(())
}

/// Puts a section of this word at the end, whose head tells the text.
pub fn tell_word(made: &mut Bytes, word: &str, text: &[u8]) -> Result<(), NoMemory> {
    made.extend_from_slice(b"== ")?;
    made.extend_from_slice(word.as_bytes())?;
    made.push(b' ')?;
    made.extend_from_slice(text)?;
    made.push(b'\n')
}
