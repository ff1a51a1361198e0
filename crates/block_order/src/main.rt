//! The order of reading and writing: a shell writes the block of each line before it reads the next one.
//!
//! A source and a sink share a count of reads. The sink keeps it at each of its writes, and the program prints what it kept: behind
//! one read comes the block of the first line, behind two that of the second, and so on; behind the read that finds the end comes
//! the schedule's line. Nothing is promised but safety: the gate compares what is printed.
#![tactic(auto)]

mod logged;

use crate::logged::{LoggedSink, LoggedSource};
use dfs_run::top_alone;
use std::cell::Cell;
use std::process::ExitCode;
use vfs_base::NoMemory;
use vfs_outside::Devices;

fn main(rt: HostRuntime) -> ExitCode {
    let reads = Cell::new(0);
    let mut source = LoggedSource::new(&reads);
    let mut sink = LoggedSink::new(&reads);
    if serve(&rt, &mut source, &mut sink).is_err() {
        return ExitCode::from(1);
    }
    for count in sink.order() {
        // A line that is not printed is missed by the comparison.
        let _ = println!(rt; "{count}");
    }
    ExitCode::from(0)
}

// Runs a shell over the source and the sink.
fn serve(
    rt: &impl AllocGlobal,
    source: &mut LoggedSource<'_>,
    sink: &mut LoggedSink<'_>,
) -> Result<(), NoMemory> {
    let alloc = rt.alloc();
    let words = vec![in alloc; "shell".to_string(alloc)?]?;
    let mut devices = Devices::new(alloc);
    let _report = top_alone(alloc, words.as_slice(), source, sink, &mut devices);
    Ok(())
}
