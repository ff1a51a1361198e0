//! Examples: a script, and all that it shows.

use crate::runs::Run;
use case_forms::CaseFault;
use std::alloc::Global;
use vfs_base::Bytes;

/// Makes the text that the script shows in this mode.
pub fn play_example(
    alloc: Global,
    mode: &str,
    script: &str,
    made: &mut Bytes,
) -> Result<(), CaseFault> {
    let mut run = Run::new(alloc);
    play_in(alloc, mode, script, made, &mut run)
}

fn play_in(
    alloc: Global,
    mode: &str,
    script: &str,
    made: &mut Bytes,
    run: &mut Run,
) -> Result<(), CaseFault> {
    run.begin_with(alloc, mode, script)?;
    run.play(alloc, made)?;
    run.push_output(made)
}
