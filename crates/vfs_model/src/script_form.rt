//! How a script is run.

/// How a script is run, and what its text has.
#[derive(Clone, Copy, Debug)]
pub enum ScriptForm {
    /// By one session: each line of the input is run to its end before the next one is read.
    Shell,
    /// By one thread, in the order that the script's lines ask for.
    Replay,
    /// By a thread for each session, in any order.
    Run,
}
