//! The files of cases, and what is told of each.

use crate::lines::play_case;
use case_forms::{CaseFault, push_difference};
use std::fs;
use std::rt::Files;
use vfs_base::Bytes;

// The folder that has the cases.
const FOLDER: &str = "cases";

/// How many cases were as they should be, and how many not.
pub struct Tally {
    pub good: u64,
    pub wrong: u64,
}

/// Plays the cases of the folder, in the order of their names. No case is a fault.
pub fn play_all<R: Files + AllocGlobal + Eprint + Clone + Drop>(
    rt: &R,
    tally: &mut Tally,
) -> Result<(), CaseFault> {
    let files = case_files(rt)?;
    if files.is_empty() {
        return Err(CaseFault::Unread);
    }
    for file in files.iter() {
        play_file(rt, file.as_str(), tally)?;
    }
    Ok(())
}

fn case_files<R: Files + AllocGlobal + Clone + Drop>(rt: &R) -> Result<Vec<String>, CaseFault> {
    let mut files = Vec::new(rt.alloc());
    for entry in fs::read_dir(rt, FOLDER)? {
        let entry = entry?;
        let name = entry.file_name();
        if name.ends_with(".case") {
            files.push(format!(in rt.alloc(); "{FOLDER}/{name}")?)?;
        }
    }
    files.sort()?;
    Ok(files)
}

fn play_file(
    rt: &(impl Files + AllocGlobal + Eprint),
    file: &str,
    tally: &mut Tally,
) -> Result<(), CaseFault> {
    let text = fs::read_to_string(rt, file)?;
    let mut made = Bytes::new(rt.alloc());
    let played = play_case(rt.alloc(), text.as_str(), &mut made);
    tell(rt, file, text.as_str(), &made, played, tally)
}

// Prints whether the case is as it should be, and counts it.
fn tell(
    rt: &(impl AllocGlobal + Eprint),
    file: &str,
    text: &str,
    made: &Bytes,
    played: Result<(), CaseFault>,
    tally: &mut Tally,
) -> Result<(), CaseFault> {
    let mut difference = Bytes::new(rt.alloc());
    push_difference(&mut difference, text.as_bytes(), made.as_slice(), played)?;
    count(rt, file, difference.as_slice(), tally)
}

fn count(
    rt: &impl Eprint,
    file: &str,
    difference: &[u8],
    tally: &mut Tally,
) -> Result<(), CaseFault> {
    if difference.is_empty() {
        tally.good = tally.good.saturating_add(1);
        return Ok(rt.eprintln(format_args!("{file}"))?);
    }
    tally.wrong = tally.wrong.saturating_add(1);
    let difference = str::from_utf8(difference)?;
    Ok(rt.eprintln(format_args!("WRONG {file}: {difference}"))?)
}
