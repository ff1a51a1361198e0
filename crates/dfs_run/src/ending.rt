//! How a run ends, whatever it ran: what is written last, and what is told after want of memory.

ghost use Rattle.std.specs.Prelude.{◌≡◌, Some};
ghost use Rattle.vfs_model.specs.FaultCounts.{NoneFalls};
ghost use Rattle.script_stage.specs.Scenes.{told_entries};
ghost use Rattle.dfs_run.specs.Causes.{HasCause};
ghost use Rattle.dfs_run.specs.Ending.{WritesText};
ghost use Rattle.dfs_run.specs.declared.report.FaultNote.TheVariants.{NoMemory as WantsMemory};

use crate::report::FaultNote;
use crate::writing::write_all;
use script_stage::{Ended, Stage};
use std::alloc::Global;
use step_world::StepWorld;
use vfs_outside::Sink;

/// Writes the text, and answers why it was not written whole.
pub fn write_text<K: Sink>(sink: &mut K, text: &[u8]) -> Option<FaultNote>
    ensures written { WritesText result (K.written sink.old) (K.written sink.new) text.now }
    ensures cause { HasCause 0 0 (K.faults sink.old) (K.faults sink.new) result }
{
    match write_all(sink, text) {
        Ok(()) => None,
        Err(_) => Some(FaultNote::WriteFault),
    }
}

/// After want of memory: the sessions leave and the end is taken, as far as memory goes, and the schedule is told
/// without these steps.
pub fn give_up<W: StepWorld>(alloc: Global, stage: Stage<W>) -> (Ended<W>, Option<FaultNote>)
    ensures schedule { result.0.schedule ≡ told_entries stage }
    ensures rising { NoneFalls stage.view.faults (W.seen result.0.world).faults }
    ensures fault { result.1 ≡ Some WantsMemory }
{
    let (ended, _) = stage.give_up(alloc);
    (ended, Some(FaultNote::NoMemory))
}
