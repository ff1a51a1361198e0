//! Rows of each kind, over devices in memory.

use case_forms::{CaseFault, bytes_of};
use cell_file::CellFile;
use file_row::{RowBody, RowState};
use page_cache::AddressSpace;
use std::alloc::Global;
use vfs_base::{Bytes, CELL_PAGES_MAX, Mark, Reply, Step};
use vfs_outside::{MemBlock, MemChars};

/// A row over devices in memory.
pub type Row = RowState<MemBlock, MemChars>;

/// What is in such a row.
pub type Body = RowBody<MemBlock, MemChars>;

/// The generation of the file that is in each row, or was.
pub const GENERATION: u64 = 2;

/// A row by its words: `unbound`, `tmp`, `rom TEXT`, `cell PAGES` with no page stored, or `chr INPUT`. The calls of its
/// device with these numbers fail.
pub fn row_of(alloc: Global, word: &str, rest: &str, fails: Vec<u64>) -> Result<Row, CaseFault> {
    let body = body_of(alloc, word, rest, fails)?;
    let mut row = RowState::new();
    let _none = row.bind(GENERATION, body);
    if word == "unbound" {
        let _file = row.unbind();
    }
    Ok(row)
}

/// What the row answers to a step.
pub fn answer_of(alloc: Global, row: &mut Row, step: &Step) -> (Reply, Mark) {
    row.row_step(alloc, step)
}

fn body_of(alloc: Global, word: &str, rest: &str, fails: Vec<u64>) -> Result<Body, CaseFault> {
    match word {
        "unbound" | "tmp" => Ok(RowBody::Tmp {
            bytes: Bytes::new(alloc),
        }),
        "rom" => Ok(RowBody::Rom {
            bytes: bytes_of(alloc, rest)?,
        }),
        "cell" => cell_body(alloc, rest.parse()?, fails),
        "chr" => chars_body(alloc, rest, fails),
        _ => Err(CaseFault::Section),
    }
}

// A file of no byte on a cell of so many pages, 1024 at most.
fn cell_body(alloc: Global, pages: u16, fails: Vec<u64>) -> Result<Body, CaseFault> {
    if pages > CELL_PAGES_MAX {
        return Err(CaseFault::Number);
    }
    let space = AddressSpace::new(alloc, pages, [0; 16])?;
    let device = MemBlock::new(alloc, pages, fails)?;
    Ok(RowBody::Cell {
        file: Box::new(alloc, CellFile::empty(space, device))?,
    })
}

// A character device that has this input.
fn chars_body(alloc: Global, input: &str, fails: Vec<u64>) -> Result<Body, CaseFault> {
    let input = bytes_of(alloc, input)?;
    Ok(RowBody::Char {
        device: Box::new(alloc, MemChars::new(alloc, input, fails))?,
    })
}
