//! Bytes that are written or read one piece after the other: bench/rows.sh counts the instructions.

use crate::lines::file_of;
use crate::rows::{GENERATION, Row, answer_of, row_of};
use case_forms::CaseFault;
use std::alloc::Global;
use vfs_base::{Bytes, Reply, Step};

// The bytes of a piece.
const PIECE: u64 = 4096;

// The pages of the cell. All of them stay in memory.
const CELL_PAGES: u64 = 32;

// The bytes of a file in memory that is read.
const TMP_BYTES: u64 = 4_194_304;

/// So many bytes to write, or to read, of a file in memory or on a cell.
#[derive(Clone, Copy)]
pub struct Task {
    is_cell: bool,
    is_read: bool,
    count: u64,
}

/// The task that two words name: `tmp-write`, `tmp-read`, `cell-write` or `cell-read`, and the number of bytes.
pub fn task_of(words: &[String]) -> Option<Task> {
    match words {
        [word, count] => {
            let (kind, way) = word.split_once('-')?;
            Some(Task {
                is_cell: kind == "cell",
                is_read: way == "read",
                count: count.parse::<u64>().ok()?,
            })
        }
        _ => None,
    }
}

/// Moves the bytes, and answers whether each step moved a whole piece. What is read is a file of full length, which is
/// written before.
pub fn run_task(alloc: Global, task: Task) -> Result<bool, CaseFault> {
    let (word, full) = if task.is_cell {
        ("cell", PIECE * CELL_PAGES)
    } else {
        ("tmp", TMP_BYTES)
    };
    let mut row = row_of(alloc, word, "32", Vec::new(alloc))?;
    let count = if task.is_read { full } else { task.count };
    let is_written = move_pieces(alloc, &mut row, write_of(alloc)?, count);
    if task.is_read {
        return Ok(is_written && move_pieces(alloc, &mut row, read_of()?, task.count));
    }
    Ok(is_written)
}

// The write of a piece.
fn write_of(alloc: Global) -> Result<Step, CaseFault> {
    let mut bytes = Bytes::new(alloc);
    bytes.resize(PIECE as usize, b'x')?;
    Ok(Step::Write {
        file: file_of(GENERATION)?,
        off: 0,
        bytes,
    })
}

// The read of a piece.
fn read_of() -> Result<Step, CaseFault> {
    Ok(Step::Read {
        file: file_of(GENERATION)?,
        off: 0,
        len: PIECE,
    })
}

// Takes the step for each piece of so many bytes, at the end of the piece before, and answers whether all were moved.
fn move_pieces(alloc: Global, row: &mut Row, step: Step, count: u64) -> bool {
    let mut step = step;
    for piece in 0..count / PIECE {
        move_to(&mut step, piece.saturating_mul(PIECE));
        if !moves_piece(alloc, row, &step) {
            return false;
        }
    }
    true
}

// A read or a write goes on at this offset.
fn move_to(step: &mut Step, at: u64) {
    if let Step::Write { off, .. } | Step::Read { off, .. } = step {
        *off = at;
    }
}

// Takes the step, and answers whether it moved a whole piece.
fn moves_piece(alloc: Global, row: &mut Row, step: &Step) -> bool {
    let (reply, _) = answer_of(alloc, row, step);
    match &reply {
        Reply::Count { n, .. } => *n == PIECE,
        Reply::Got { bytes } => bytes.len() as u64 == PIECE,
        _ => false,
    }
}
