//! What a line does with pages.

use crate::cell_file::CellFile;
use crate::ending::Ending;
use case_forms::{CaseFault, push_escaped};
use vfs_base::Bytes;

// The greatest number of bytes that a line shows of a page.
const SHOWN: usize = 64;

/// Pages one after the other, from the first one on and below the end.
#[derive(Clone, Copy)]
pub struct PageRange {
    pub first: u16,
    pub end: u16,
}

/// `3`, or `3-7` with the last page.
pub fn range_of(text: &str) -> Result<PageRange, CaseFault> {
    let (first, last) = text.split_once("-").unwrap_or((text, text));
    let last: u16 = last.parse()?;
    Ok(PageRange {
        first: first.parse()?,
        end: last.saturating_add(1),
    })
}

/// What is done with a page.
#[derive(Clone, Copy)]
pub enum PageOperation<'a> {
    Touch,
    /// It is touched, and the piece put into it from a place on.
    Edit { at: u16, piece: &'a [u8] },
    /// It is touched, and bytes of it are shown from a place on.
    Show { at: u16, count: usize },
    /// Bytes of it are shown as they lie on the device.
    ShowDevice { at: u16, count: usize },
}

impl PageOperation<'_> {
    /// Does it with each of the pages, up to the first where a call of the device fails. What is shown comes to the end of
    /// the text.
    pub fn run(
        self,
        file: &mut CellFile,
        pages: PageRange,
        text: &mut Bytes,
    ) -> Result<Ending, CaseFault> {
        for page in pages.first..pages.end {
            if let Ending::Fault = self.run_one(file, page, text)? {
                return Ok(Ending::Fault);
            }
        }
        Ok(Ending::Done)
    }

    fn run_one(
        self,
        file: &mut CellFile,
        page: u16,
        text: &mut Bytes,
    ) -> Result<Ending, CaseFault> {
        match self {
            PageOperation::Touch => file.touch(page),
            PageOperation::Edit { at, piece } => file.edit(page, at, piece),
            PageOperation::Show { at, count } => show(file, page, at, count, text),
            PageOperation::ShowDevice { at, count } => show_device(file, page, at, count, text),
        }
    }
}

fn show(
    file: &mut CellFile,
    page: u16,
    at: u16,
    count: usize,
    text: &mut Bytes,
) -> Result<Ending, CaseFault> {
    let mut bytes = [0u8; SHOWN];
    let shown = bytes.get_mut(..count).ok_or(CaseFault::Number)?;
    let ending = file.copy_out(page, at, shown)?;
    if let Ending::Done = ending {
        push_escaped(text, shown)?;
    }
    Ok(ending)
}

fn show_device(
    file: &mut CellFile,
    page: u16,
    at: u16,
    count: usize,
    text: &mut Bytes,
) -> Result<Ending, CaseFault> {
    let mut bytes = [0u8; SHOWN];
    let shown = bytes.get_mut(..count).ok_or(CaseFault::Number)?;
    let ending = file.copy_device(page, at, shown)?;
    if let Ending::Done = ending {
        push_escaped(text, shown)?;
    }
    Ok(ending)
}
