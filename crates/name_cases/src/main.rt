//! Large trees of names: full folders, deep chains, and wide trees that are moved at once.
//!
//! Without words the program prints what finds and listings show of each before and after. Nothing is promised but safety: the gate
//! compares what is printed, which was worked out by hand. With the four words of a task it does that one silently, for
//! bench/names.sh, and ends with status 1 where an operation did not do what it should.
#![tactic(auto)]

mod cases;
mod growth;
mod paths;
mod shelf;

use crate::cases::show_all;
use crate::growth::{run_task, task_of};
use std::env::{self, Env};
use std::process::ExitCode;
use vfs_base::NoMemory;

fn main(rt: HostRuntime) -> ExitCode {
    let done = match words(&rt) {
        Ok(words) => serve(&rt, words.as_slice()),
        Err(NoMemory) => false,
    };
    ExitCode::from(if done { 0 } else { 1 })
}

// The program's words, those after its name. Words that are no text are none.
fn words(rt: &(impl Env + AllocGlobal)) -> Result<Vec<String>, NoMemory> {
    match env::args(rt) {
        Ok(args) => Ok(args.skip(1).collect(rt.alloc())?),
        Err(_) => Err(NoMemory),
    }
}

// Shows the cases, or does the task that the words name. Answers whether all went well.
fn serve(rt: &HostRuntime, words: &[String]) -> bool {
    if words.is_empty() {
        return show_all(rt).is_ok();
    }
    match task_of(words) {
        Some(task) => matches!(run_task(rt.alloc(), task), Ok(true)),
        None => false,
    }
}
