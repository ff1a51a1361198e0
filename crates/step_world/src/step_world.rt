ghost use Rattle.std.specs.Prelude.{◌≡◌, IfOk, OnErr};
ghost use Rattle.vfs_model.specs.StepForms.{MayTake};
ghost use Rattle.step_world.specs.WorldView.{WorldView};
ghost use Rattle.step_world.specs.Taking.{Takes};

use std::alloc::Global;
use vfs_base::{Mark, NoMemory, Reply, Step, Who};

/// A world that takes steps.
///
/// A session may ask any step, of whatever file, and each is answered as its definition answers it: a step of a
/// file that is gone is refused by ENOENT, and so nobody has to know what a session has.
pub trait StepWorld: Drop {
    // What is seen of it.
    ghost seen: { Self → WorldView };

    /// Takes a step, and answers the reply and the mark under which it came: that a device failed, or that memory
    /// was wanting, in the midst of it. A device's fault comes only where a device of the step failed in this very
    /// call, and want of memory never where the step needs none.
    ///
    /// # Errors
    /// `NoMemory`, and then nothing has changed.
    fn take(&mut self, alloc: Global, who: Who, step: &Step) -> Result<(Reply, Mark), NoMemory>
        requires { MayTake who step.now }
        ensures ok { IfOk result (Takes (seen self.old) (seen self.new) who step.now) }
        ensures err { OnErr result (seen self.new ≡ seen self.old) };
}
