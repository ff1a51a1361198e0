//! The plain world takes steps as any world does: it picks their marks itself.

ghost use Rattle.std.specs.Prelude.{◌≡◌, false, true, IfOk, OnErr};
ghost use Rattle.plain_steps.specs.Needs.{may_need};
ghost use Rattle.step_world.specs.Taking.{Takes};
ghost use Rattle.step_world.specs.WorldView.{view_of};
ghost use Rattle.vfs_model.specs.Leaving.{is_starved};
ghost use Rattle.vfs_model.specs.StepForms.{MayTake};
ghost use Rattle.vfs_model.specs.Tally.{is_fault, needs_no_memory};
ghost use Rattle.vfs_model.specs.World.{FitsStep, session_of};

use crate::world::PlainWorld;
use std::alloc::Global;
use step_world::StepWorld;
use vfs_base::{Mark, NoMemory, Reply, Step, Who};

impl StepWorld for PlainWorld {
    ghost seen = { λ world. view_of world };

    /// Takes a step. Where memory is wanting, a step that needs some is refused by ENOMEM, and its mark says so;
    /// one that needs none is not taken.
    #[tactic(auto, using(crate::proofs::Marks::clear_fits, crate::proofs::Marks::starved_fits, crate::proofs::Marks::may_need_some))]
    fn take(&mut self, alloc: Global, who: Who, step: &Step) -> Result<(Reply, Mark), NoMemory> {
        if let Ok(taken) = self.take_under(alloc, &who, step, &Mark::Clear) {
            return Ok(taken);
        }
        if !may_need(step) {
            return Err(NoMemory);
        }
        self.take_under(alloc, &who, step, &Mark::NoMem { n: 0 })
    }
}

impl PlainWorld {
    // Takes a step under this mark.
    #[tactic(auto, using(step_world::proofs::Told::told_takes))]
    fn take_under(
        &mut self,
        alloc: Global,
        who: &Who,
        step: &Step,
        mark: &Mark,
    ) -> Result<(Reply, Mark), NoMemory>
        requires asks { MayTake who.now step.now }
        requires fits { FitsStep self.old who.now step.now mark.now }
        requires device { is_fault mark.now ≡ false }
        requires sure { needs_no_memory self.old.namespace (session_of who.now) step.now ≡ true → is_starved mark.now ≡ false }
        ensures ok { IfOk result (Takes (view_of self.old) (view_of self.new) who.now step.now) }
        ensures err { OnErr result (self.new ≡ self.old) }
    {
        let reply = self.step(alloc, *who, step, *mark)?;
        Ok((reply, *mark))
    }
}

// Whether the step may need memory, whoever asks it.
fn may_need(step: &Step) -> bool
    ensures { result ≡ may_need step.now }
{
    match step {
        Step::Close { .. }
        | Step::Unmap { .. }
        | Step::Home
        | Step::Size { .. }
        | Step::Sync { .. }
        | Step::Flush { .. }
        | Step::Reclaim { .. }
        | Step::Shutdown => false,
        Step::Trunc { len, .. } => *len > 0,
        _ => true,
    }
}
