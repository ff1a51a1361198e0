//! The folders of cases, one for each form, and what is told of each case.

use crate::examples::play_example;
use crate::runs::play_runs;
use crate::schedules::play_schedules;
use case_forms::{CaseFault, push_difference};
use case_tables::{play_dialogue, play_table};
use case_worlds::play_tables_of_steps;
use std::fs;
use std::rt::Files;
use vfs_base::Bytes;

/// How many cases were as they should be, and how many not.
pub struct Tally {
    pub good: u64,
    pub wrong: u64,
}

// What the cases of a folder are.
#[derive(Clone, Copy)]
enum Form {
    Runs,
    Schedules,
    Steps,
    Dialogues,
    Tables,
}

/// Plays the cases of each folder. A folder without a case is a fault.
pub fn play_all<R: Files + AllocGlobal + Eprint + Clone + Drop>(
    rt: &R,
    tally: &mut Tally,
) -> Result<(), CaseFault> {
    play_folder(rt, "runs", Form::Runs, tally)?;
    play_folder(rt, "schedules", Form::Schedules, tally)?;
    play_folder(rt, "steps", Form::Steps, tally)?;
    play_folder(rt, "dialogues", Form::Dialogues, tally)?;
    play_folder(rt, "tables", Form::Tables, tally)?;
    play_examples(rt, ".msh", "shell", tally)?;
    play_examples(rt, ".dfs", "replay", tally)
}

// The files of the folder with this ending, sorted.
fn files_of<R: Files + AllocGlobal + Clone + Drop>(
    rt: &R,
    folder: &str,
    ending: &str,
) -> Result<Vec<String>, CaseFault> {
    let mut files = Vec::new(rt.alloc());
    for entry in fs::read_dir(rt, folder)? {
        let entry = entry?;
        let name = entry.file_name();
        if name.ends_with(ending) {
            files.push(format!(in rt.alloc(); "{folder}/{name}")?)?;
        }
    }
    files.sort()?;
    Ok(files)
}

fn play_folder<R: Files + AllocGlobal + Eprint + Clone + Drop>(
    rt: &R,
    folder: &str,
    form: Form,
    tally: &mut Tally,
) -> Result<(), CaseFault> {
    let files = files_of(rt, folder, ".case")?;
    if files.is_empty() {
        return Err(CaseFault::Unread);
    }
    for file in files.iter() {
        play_file(rt, file.as_str(), form, tally)?;
    }
    Ok(())
}

fn play_file(
    rt: &(impl Files + AllocGlobal + Eprint),
    file: &str,
    form: Form,
    tally: &mut Tally,
) -> Result<(), CaseFault> {
    let text = fs::read_to_string(rt, file)?;
    let mut made = Bytes::new(rt.alloc());
    let played = play(rt, form, text.as_str(), &mut made);
    tell(rt, file, text.as_str(), &made, played, tally)
}

fn play(rt: &impl AllocGlobal, form: Form, text: &str, made: &mut Bytes) -> Result<(), CaseFault> {
    match form {
        Form::Runs => play_runs(rt.alloc(), text, made),
        Form::Schedules => play_schedules(rt.alloc(), text, made),
        Form::Steps => play_tables_of_steps(rt.alloc(), text, made),
        Form::Dialogues => play_dialogue(rt.alloc(), text, made),
        Form::Tables => play_table(rt.alloc(), text, made),
    }
}

// Plays the examples with this ending in this mode. No example is a fault.
fn play_examples<R: Files + AllocGlobal + Eprint + Clone + Drop>(
    rt: &R,
    ending: &str,
    mode: &str,
    tally: &mut Tally,
) -> Result<(), CaseFault> {
    let files = files_of(rt, "examples", ending)?;
    if files.is_empty() {
        return Err(CaseFault::Unread);
    }
    for file in files.iter() {
        play_pair(rt, file.as_str(), mode, tally)?;
    }
    Ok(())
}

// A script, and what it shows in the file of the same name that ends with `.out`.
fn play_pair(
    rt: &(impl Files + AllocGlobal + Eprint),
    file: &str,
    mode: &str,
    tally: &mut Tally,
) -> Result<(), CaseFault> {
    let Some((front, _)) = file.rsplit_once(".") else {
        return Err(CaseFault::Name);
    };
    let out = format!(in rt.alloc(); "{front}.out")?;
    let script = fs::read_to_string(rt, file)?;
    play_script(rt, mode, script.as_str(), out.as_str(), tally)
}

fn play_script(
    rt: &(impl Files + AllocGlobal + Eprint),
    mode: &str,
    script: &str,
    out: &str,
    tally: &mut Tally,
) -> Result<(), CaseFault> {
    let text = fs::read_to_string(rt, out)?;
    let mut made = Bytes::new(rt.alloc());
    let played = play_example(rt.alloc(), mode, script, &mut made);
    tell(rt, out, text.as_str(), &made, played, tally)
}

// Prints whether the case is as it should be, and counts it.
fn tell(
    rt: &(impl AllocGlobal + Eprint),
    file: &str,
    text: &str,
    made: &Bytes,
    played: Result<(), CaseFault>,
    tally: &mut Tally,
) -> Result<(), CaseFault> {
    let mut difference = Bytes::new(rt.alloc());
    push_difference(&mut difference, text.as_bytes(), made.as_slice(), played)?;
    count(rt, file, difference.as_slice(), tally)
}

fn count(
    rt: &impl Eprint,
    file: &str,
    difference: &[u8],
    tally: &mut Tally,
) -> Result<(), CaseFault> {
    if difference.is_empty() {
        tally.good = tally.good.saturating_add(1);
        return Ok(rt.eprintln(format_args!("{file}"))?);
    }
    tally.wrong = tally.wrong.saturating_add(1);
    let difference = str::from_utf8(difference)?;
    Ok(rt.eprintln(format_args!("WRONG {file}: {difference}"))?)
}
