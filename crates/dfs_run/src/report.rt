//! What a top call reports.

ghost use Rattle.std.specs.Prelude.{◌≡◌};
ghost use Rattle.dfs_run.specs.Report.{status_of};

use script_stage::Ended;
use std::fmt;
use std::fmt::Write;
use step_world::StepWorld;
use thiserror::Error;
use vfs_base::{Entry, List, Name};

/// How a run of the program ended.
#[derive(Debug, Drop)]
pub struct Report {
    /// The status that the program ends with.
    pub status: u8,
    /// The steps that were taken, in their order.
    pub schedule: List<Entry>,
    /// Why it ended so; `None` exactly at status 0.
    pub fault: Option<FaultNote>,
}

// A name as text: its bytes, each as a character.
#[derive(Clone, Copy)]
struct NameText<'a>(&'a Name);

impl fmt::Display for NameText<'_> {
    ghost use Rattle.std.specs.Prelude.{Some};
    ghost use Rattle.dfs_run.specs.Report.{name_text};

    ghost output = { λ text. Some (name_text text.0.now) };

    fn fmt<W: fmt::Write>(&self, f: &mut fmt::Formatter<W>) -> fmt::Result {
        let bytes = self.0.as_bytes();
        for byte in bytes {
            f.write_char(char::from(*byte))?;
        }
        Ok(())
    }
}

/// Why a run ended early. It is shown as the line that the program prints for it.
#[derive(Debug, Drop, PartialEq, Eq, Error)]
pub enum FaultNote {
    /// No memory; status 1.
    #[error("dfs: no memory")]
    NoMemory,
    /// The program's words are outside the grammar; status 2.
    #[error("usage: dfs MODE [--seed N] [--steps N] [--image PATH]")]
    Usage,
    /// That line of the input, counted from 1, is outside the form; status 3.
    #[error("dfs: line {line}: bad deck")]
    BadDeck { line: u64 },
    /// The source failed; status 4.
    #[error("dfs: read fault")]
    ReadFault,
    /// The sink failed; status 5.
    #[error("dfs: write fault")]
    WriteFault,
    /// That volume failed in the end, when what it had not yet was written to it; status 6.
    #[error("dfs: device fault: {name}", name = NameText(.device))]
    DeviceFault { device: Name },
}

impl Report {
    // The report of a script that is over; its world is let go.
    pub fn of<W: StepWorld>(ended: Ended<W>, fault: Option<FaultNote>) -> Report
        ensures status { result.status ≡ status_of fault }
        ensures schedule { result.schedule ≡ ended.schedule }
        ensures fault { result.fault ≡ fault }
    {
        let Ended { world, schedule } = ended;
        drop(world);
        Report::new(schedule, fault)
    }

    // The report of these steps, with the status of its note.
    pub fn new(schedule: List<Entry>, fault: Option<FaultNote>) -> Report
        ensures status { result.status ≡ status_of fault }
        ensures schedule { result.schedule ≡ schedule }
        ensures fault { result.fault ≡ fault }
    {
        let status = match &fault {
            None => 0,
            Some(FaultNote::NoMemory) => 1,
            Some(FaultNote::Usage) => 2,
            Some(FaultNote::BadDeck { line: _ }) => 3,
            Some(FaultNote::ReadFault) => 4,
            Some(FaultNote::WriteFault) => 5,
            Some(FaultNote::DeviceFault { device: _ }) => 6,
        };
        Report {
            status,
            schedule,
            fault,
        }
    }
}
