//! The program `dfs`: the top call on the process's words, standard input and standard output.
//!
//! It ends with the report's status, and prints one line on standard error for a status other than 0.
//! It knows no mode, line or step.
#![tactic(auto)]

use dfs_run::{FaultNote, Report, top_alone};
use std::env::{self, Env};
use std::io::{self, ErrorKind};
use std::process::ExitCode;
use vfs_base::List;
use vfs_outside::{Devices, StdSink, StdSource};

fn main(rt: HostRuntime) -> ExitCode {
    let report = match words(&rt) {
        Ok(words) => run(&rt, words.as_slice()),
        Err(fault) => Report::new(List::new(rt.alloc()), Some(fault)),
    };
    if let Some(fault) = &report.fault {
        // Where standard error is closed, the status alone tells.
        let _ = eprintln!(rt; "{fault}");
    }
    ExitCode::from(report.status)
}

// The program's words, those after its name. Words that are no text are outside the grammar.
fn words(rt: &(impl Env + AllocGlobal)) -> Result<Vec<String>, FaultNote> {
    match env::args(rt) {
        Ok(args) => args
            .skip(1)
            .collect(rt.alloc())
            .map_err(|_| FaultNote::NoMemory),
        Err(error) if error.kind() == ErrorKind::OutOfMemory => Err(FaultNote::NoMemory),
        Err(_) => Err(FaultNote::Usage),
    }
}

// Runs the program on its words, over the standard streams.
fn run(rt: &(impl AllocGlobal + Input + Print), words: &[String]) -> Report {
    let mut source = StdSource::new(rt.reader());
    let mut sink = StdSink::new(io::writer(rt));
    let mut devices = Devices::new(rt.alloc());
    top_alone(rt.alloc(), words, &mut source, &mut sink, &mut devices)
}
