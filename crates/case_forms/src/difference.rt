//! The first line at which a case's file is not what was made of it.

use crate::case_fault::CaseFault;
use crate::escapes::push_escaped;
use vfs_base::{Bytes, NoMemory, push_number};

/// Puts the first difference at the end; nothing where there is none and the case was played to its end.
pub fn push_difference(
    out: &mut Bytes,
    text: &[u8],
    made: &[u8],
    played: Result<(), CaseFault>,
) -> Result<(), NoMemory> {
    match played {
        Ok(()) if text == made => Ok(()),
        Ok(()) => push_first(out, text, made),
        Err(fault) => push_fault(out, text, made, fault),
    }
}

// A fault comes behind all that was made, so a line that differs comes first.
fn push_fault(out: &mut Bytes, text: &[u8], made: &[u8], fault: CaseFault) -> Result<(), NoMemory> {
    if !text.starts_with(made) {
        return push_first(out, text, made);
    }
    push_place(out, lines_in(made).saturating_add(1))?;
    out.extend_from_slice(fault.why().as_bytes())
}

fn push_first(out: &mut Bytes, text: &[u8], made: &[u8]) -> Result<(), NoMemory> {
    let start = start_of_difference(text, made);
    let same = text.get(..start).unwrap_or(&[]);
    push_place(out, lines_in(same).saturating_add(1))?;
    out.extend_from_slice(b"the case has `")?;
    push_escaped(out, line_at(text, start))?;
    out.extend_from_slice(b"`, and it is `")?;
    push_escaped(out, line_at(made, start))?;
    out.push(b'`')
}

fn push_place(out: &mut Bytes, line: u64) -> Result<(), NoMemory> {
    out.extend_from_slice(b"line ")?;
    push_number(out, line)?;
    out.extend_from_slice(b": ")
}

fn lines_in(text: &[u8]) -> u64 {
    let mut lines = 0u64;
    for byte in text {
        if *byte == b'\n' {
            lines = lines.saturating_add(1);
        }
    }
    lines
}

// Where the first line that differs begins.
fn start_of_difference(text: &[u8], made: &[u8]) -> usize {
    let mut start = 0usize;
    let mut at = 0usize;
    for (one, other) in text.iter().zip(made.iter()) {
        if *one != *other {
            return start;
        }
        at = at.saturating_add(1);
        if *one == b'\n' {
            start = at;
        }
    }
    start
}

fn line_at(text: &[u8], start: usize) -> &[u8] {
    let rest = text.get(start..).unwrap_or(&[]);
    match rest.iter().position(|byte| *byte == b'\n') {
        Some(end) => rest.get(..end).unwrap_or(rest),
        None => rest,
    }
}
