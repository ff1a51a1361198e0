//! Devices over parts of a real file.

use crate::wrong::Wrong;
use std::fs::File;
use std::{fs, io};
use vfs_base::{Counts, PAGE_SIZE};
use vfs_outside::{Block, FileBlock};

const PAGE: usize = 4096;

// Where the device's pages begin in the file.
const START: u64 = 512;

/// Two devices over one part of a file see each other's pages, and a page that was never written has zeros.
pub fn pages_of_a_file_come_back(rt: &HostRuntime) -> Result<(), Wrong> {
    let path = "pages_come_back.img";
    let file = new_file(rt, path)?;
    let mut first = FileBlock::new(file.try_clone()?, START, 4);
    let mut second = FileBlock::new(file, START, 4);
    write(&mut first, 3, 3)?;
    write(&mut first, 0, 10)?;
    write(&mut second, 2, 12)?;
    write(&mut first, 3, 13)?;
    check_pages(&mut first)?;
    check_pages(&mut second)?;
    fs::remove_file(rt, path)?;
    Ok(())
}

// A file of four pages of zeros behind the start.
fn new_file(rt: &HostRuntime, path: &str) -> io::Result<File> {
    let file = File::options()
        .read(true)
        .write(true)
        .create(true)
        .truncate(true)
        .open(rt, path)?;
    file.set_len(START + 4 * PAGE_SIZE)?;
    Ok(file)
}

fn check_pages<B: Block>(block: &mut B) -> Result<(), Wrong> {
    check(block, 0, 10)?;
    check(block, 1, 0)?;
    check(block, 2, 12)?;
    check(block, 3, 13)
}

// Writes the page, each byte as this one.
fn write<B: Block>(block: &mut B, page: u16, byte: u8) -> Result<(), Wrong> {
    if block.pages() <= page {
        return Err(Wrong::Page { page });
    }
    block.write_page(page, &[byte; PAGE])?;
    Ok(())
}

// Reads the page, and compares each of its bytes with this one.
fn check<B: Block>(block: &mut B, page: u16, byte: u8) -> Result<(), Wrong> {
    if block.pages() <= page {
        return Err(Wrong::Page { page });
    }
    let mut out = [0; PAGE];
    block.read_page(page, &mut out)?;
    if out != [byte; PAGE] {
        return Err(Wrong::Page { page });
    }
    Ok(())
}

/// A page behind the end of a file that was cut short can be neither read nor written: each such call is a fault, and the file stays
/// as short. A page before the end is still there.
pub fn a_file_that_is_cut_short_is_a_fault(rt: &HostRuntime) -> Result<(), Wrong> {
    let path = "cut_short.img";
    let file = new_file(rt, path)?;
    let mut block = FileBlock::new(file.try_clone()?, START, 4);
    write(&mut block, 1, 11)?;
    let cut = START + 2 * PAGE_SIZE + 1;
    file.set_len(cut)?;
    fails(check(&mut block, 2, 0))?;
    fails(write(&mut block, 3, 13))?;
    check(&mut block, 1, 11)?;
    check_counts(block.counts())?;
    let size = file.metadata()?.len();
    fs::remove_file(rt, path)?;
    if size != cut {
        return Err(Wrong::Size { size });
    }
    Ok(())
}

// The call failed at its device.
fn fails(outcome: Result<(), Wrong>) -> Result<(), Wrong> {
    match outcome {
        Err(Wrong::Failed) => Ok(()),
        Err(wrong) => Err(wrong),
        Ok(()) => Err(Wrong::Passed),
    }
}

// Two reads and two writes were made, of which one each failed.
fn check_counts(counts: Counts) -> Result<(), Wrong> {
    let expected = Counts {
        reads: 2,
        writes: 2,
        faults: 2,
    };
    if counts != expected {
        return Err(Wrong::Counts {
            counts: Some(counts),
        });
    }
    Ok(())
}
