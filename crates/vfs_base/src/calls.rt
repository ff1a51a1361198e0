//! Whoever takes steps, as a session sees it.

ghost use Rattle.std.specs.Prelude.{◌≡◌, Option, List, OnOk, OnErr, is_some};
ghost use Rattle.vfs_base.specs.declared.step.Step.{Step};
ghost use Rattle.vfs_base.specs.Calls.{AddsCall};

use crate::entry::Mark;
use crate::no_memory::NoMemory;
use crate::reply::Reply;
use crate::step::Step;

/// Whoever takes steps for one caller. The worker of the threads will call its session's steps through it.
pub trait Calls {
    /// The steps that were asked and answered so far, where the object tells them.
    ghost asked: { Self → Option (List Step) };

    /// Takes one step. An `Err` is want of memory, and then nothing happened.
    fn ask(&mut self, step: &Step) -> Result<(Reply, Mark), NoMemory>
        ensures ok { OnOk result (AddsCall (asked self.old) (asked self.new) step.now) }
        ensures err { OnErr result (asked self.new ≡ asked self.old) };
}
