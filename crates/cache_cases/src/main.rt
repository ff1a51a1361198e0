//! Cases of the page cache: the program plays each case file of its folder, and says which are as they should be.
//!
//! A case is played by public calls of `page_cache` over a block device in memory whose failing calls are given, and what each
//! line makes of the device and answers is compared with its file. docs/DEVELOPING.md tells the form. Nothing is promised but safety.
#![tactic(auto)]

mod cell_file;
mod ending;
mod lines;
mod logged_block;
mod page_operation;
mod tally;

use crate::tally::{Tally, play_all};
use std::process::ExitCode;

fn main(rt: HostRuntime) -> ExitCode {
    let mut tally = Tally { good: 0, wrong: 0 };
    let played = play_all(&rt, &mut tally);
    let Tally { good, wrong } = tally;
    // Where standard error is closed, the status tells.
    let _ = eprintln!(rt; "{good} cases are as they should be, {wrong} are not");
    match played {
        Ok(()) if wrong == 0 => ended_well(&rt),
        Ok(()) => ExitCode::from(1),
        Err(fault) => {
            let why = fault.why();
            let _ = eprintln!(rt; "the cases were not all played: {why}");
            ExitCode::from(2)
        }
    }
}

fn ended_well(rt: &impl Print) -> ExitCode {
    match rt.println("every case is as it should be") {
        Ok(()) => ExitCode::from(0),
        Err(_) => ExitCode::from(3),
    }
}
