//! Cases of one row: the program plays each case file of its folder, and says which are as they should be.
//!
//! A case is played by public calls of `file_row` over devices in memory whose failing calls are given, and the reply, the mark
//! and the faults of each step are compared with its file. With the two words of a task the program moves so many bytes and
//! prints nothing, for bench/rows.sh, and ends with status 1 where a step did not move what it should. Nothing is promised
//! but safety.
#![tactic(auto)]

mod answers;
mod bytes_moved;
mod lines;
mod rows;
mod tally;

use crate::bytes_moved::{run_task, task_of};
use crate::tally::{Tally, play_all};
use std::env::{self, Env};
use std::process::ExitCode;
use vfs_base::NoMemory;

fn main(rt: HostRuntime) -> ExitCode {
    match words(&rt) {
        Ok(words) if words.is_empty() => play(&rt),
        Ok(words) => move_bytes(&rt, words.as_slice()),
        Err(NoMemory) => ExitCode::from(2),
    }
}

// The program's words, those after its name. Words that are no text are none.
fn words(rt: &(impl Env + AllocGlobal)) -> Result<Vec<String>, NoMemory> {
    match env::args(rt) {
        Ok(args) => Ok(args.skip(1).collect(rt.alloc())?),
        Err(_) => Err(NoMemory),
    }
}

// Moves the bytes of the task that the words name.
fn move_bytes(rt: &HostRuntime, words: &[String]) -> ExitCode {
    let is_done = match task_of(words) {
        Some(task) => matches!(run_task(rt.alloc(), task), Ok(true)),
        None => false,
    };
    ExitCode::from(if is_done { 0 } else { 1 })
}

// Plays the cases.
fn play(rt: &HostRuntime) -> ExitCode {
    let mut tally = Tally { good: 0, wrong: 0 };
    let played = play_all(rt, &mut tally);
    let Tally { good, wrong } = tally;
    // Where standard error is closed, the status tells.
    let _ = eprintln!(rt; "{good} cases are as they should be, {wrong} are not");
    match played {
        Ok(()) if wrong == 0 => ended_well(rt),
        Ok(()) => ExitCode::from(1),
        Err(fault) => {
            let why = fault.why();
            let _ = eprintln!(rt; "the cases were not all played: {why}");
            ExitCode::from(2)
        }
    }
}

fn ended_well(rt: &impl Print) -> ExitCode {
    match rt.println("every case is as it should be") {
        Ok(()) => ExitCode::from(0),
        Err(_) => ExitCode::from(3),
    }
}
