//! How a script at work ends: its sessions leave, and the end is taken.

ghost use Rattle.std.specs.Prelude.{◌≡◌, ◌≢◌, ◌+◌, ◌<◌, ℕ, None, Some, [], ◌∷◌, List, length, map, IfOk, IfNone, IfSome, OnOk, OnErr};
ghost use Rattle.std.specs.Bool.{OnFalse, OnTrue};
ghost use Rattle.vfs_model.specs.FaultCounts.{NoneFalls};
ghost use Rattle.vfs_model.specs.ScriptRun.{sessions};
ghost use Rattle.vfs_model.specs.Turns.{Leaves, RunOut, Steps};
ghost use Rattle.msh_session.specs.SessionTalks.{exits_left};
ghost use Rattle.script_stage.specs.Scenes.{GoesOn, Halts, IsNumber, Script, TellsMore, told_entries};
ghost use Rattle.script_stage.specs.SessionTurns.{StaysThrough, TakesExit};
ghost use Rattle.script_stage.specs.Standing.{Breaks, ClosesAt, Does, EachUpTo, Grows, IsIdle, IsThrough, Leads, LeavesAt, OthersStay, StandsAt, Stops, StopsAt, TookEnd, closing_tasks, leaving_tasks};

use crate::phase::Phase;
use crate::stage::Stage;
use crate::stage_session::StageSession;
use std::alloc::Global;
use step_world::StepWorld;
use vfs_base::{Entry, List, Mark, NoMemory, SESSIONS, SessionId, Step, Who};

/// A script that is over: its world, and what is told of its schedule.
#[derive(Drop)]
pub struct Ended<W: StepWorld> {
    pub world: W,
    pub schedule: List<Entry>,
}

impl<W: StepWorld> Stage<W> {
    /// Runs all pending commands to their ends, has each session leave, by number, and takes the end. The answer
    /// is the end's mark: `Fault` where a device failed on the way home.
    ///
    /// # Errors
    /// `NoMemory`, as of `run_line`; the end is then not taken.
    pub fn close(&mut self, alloc: Global) -> Result<Mark, NoMemory>
        ensures ok { OnOk result ((script : Script) (handed : List ℕ) →
            StandsAt self.old script closing_tasks handed → ClosesAt self.new script handed) }
        ensures took { IfOk result (TookEnd self.new.view) }
        ensures err { OnErr result ((script : Script) (handed : List ℕ) →
            StandsAt self.old script closing_tasks handed → StopsAt self.new script handed) }
        ensures goes_on { self.old.leaves_at ≡ None → TellsMore self.old self.new }
    {
        self.run_all(alloc)?;
        self.begin_leaving();
        self.leave_all(alloc)?;
        self.end(alloc)
    }

    /// The world and the whole schedule.
    pub fn finish(self) -> Ended<W>
        ensures world { W.seen result.world ≡ self.view }
        ensures schedule { result.schedule ≡ self.schedule }
    {
        Ended {
            world: self.world,
            schedule: List::from_vec(self.schedule),
        }
    }

    /// The world, and the schedule without the entries by which the sessions left and the end was taken.
    pub fn cut_off(self) -> Ended<W>
        ensures world { W.seen result.world ≡ self.view }
        ensures schedule { result.schedule ≡ told_entries self }
    {
        let mut schedule = List::from_vec(self.schedule);
        if let Some(count) = self.leaves_at {
            schedule.truncate(count);
        }
        Ended {
            world: self.world,
            schedule,
        }
    }

    /// After want of memory: gives up the pending commands, has the sessions leave, and takes the end, on
    /// the world alone and as far as memory goes. The schedule is without these steps; beside it stands the end's
    /// mark, `None` where there was no memory for it.
    pub fn give_up(mut self, alloc: Global) -> (Ended<W>, Option<Mark>)
        ensures schedule { result.0.schedule ≡ told_entries self }
        ensures rising { NoneFalls self.view.faults (W.seen result.0.world).faults }
        ensures took { IfSome result.1 (TookEnd (W.seen result.0.world)) }
    {
        for place in 0..SESSIONS {
            self.give_up_session(alloc, session_at(place));
        }
        let end = take_end(alloc, &mut self.world);
        (self.cut_off(), end)
    }

    // Runs all pending commands to their ends, by session.
    fn run_all(&mut self, alloc: Global) -> Result<(), NoMemory>
        ensures ok { OnOk result (Does self.old self.new (map RunOut sessions)) }
        ensures idle { OnOk result (EachUpTo 8 (IsIdle self.new.sessions)) }
        ensures err { OnErr result (Breaks self.old self.new (map RunOut sessions)) }
        ensures goes_on { GoesOn self.old self.new }
    {
        for place in 0..SESSIONS {
            self.run_out(alloc, session_at(place))?;
        }
        Ok(())
    }

    // From here on the entries are those by which the sessions leave.
    fn begin_leaving(&mut self)
        requires { EachUpTo 8 (IsIdle self.old.sessions) }
        ensures leaves { (script : Script) (handed : List ℕ) →
            StandsAt self.old script leaving_tasks handed → LeavesAt self.new script leaving_tasks handed }
        ensures sessions { self.new.sessions ≡ self.old.sessions }
        ensures schedule { self.new.schedule ≡ self.old.schedule }
        ensures leaves_at { self.new.leaves_at ≡ Some (length self.old.schedule) }
    {
        self.leaves_at = Some(self.schedule.len());
    }

    // Each session makes its exit steps, by number.
    fn leave_all(&mut self, alloc: Global) -> Result<(), NoMemory>
        requires { EachUpTo 8 (IsIdle self.old.sessions) }
        ensures ok { OnOk result (Leads LeavesAt self.old self.new (map Leaves sessions) []) }
        ensures through { OnOk result (EachUpTo 8 (IsThrough self.new.sessions)) }
        ensures err { OnErr result (Stops LeavesAt self.old self.new (map Leaves sessions)) }
        ensures goes_on { GoesOn self.old self.new }
    {
        for place in 0..SESSIONS {
            self.leave(alloc, session_at(place))?;
        }
        Ok(())
    }

    // The session makes its exit steps.
    #[tactic(auto, using(crate::proofs::Calls::goes_then))]
    fn leave(&mut self, alloc: Global, k: SessionId) -> Result<(), NoMemory>
        requires { IsIdle self.old.sessions k }
        ensures ok { OnOk result (Leads LeavesAt self.old self.new (Leaves k ∷ []) []) }
        ensures through { OnOk result (IsThrough self.new.sessions k) }
        ensures idle { IsIdle self.new.sessions k }
        ensures others { OthersStay self.old.sessions self.new.sessions k }
        ensures err { OnErr result (Stops LeavesAt self.old self.new (Leaves k ∷ [])) }
        ensures goes_on { GoesOn self.old self.new }
    {
        while self.exit(alloc, k)? {}
        Ok(())
    }

    // The session makes its next exit step; false where none is left.
    fn exit(&mut self, alloc: Global, k: SessionId) -> Result<bool, NoMemory>
        requires { IsIdle self.old.sessions k }
        ensures took { IfOk result (λ took. OnTrue took (Leads LeavesAt self.old self.new (Leaves k ∷ []) (Leaves k ∷ []))) }
        ensures grows { IfOk result (λ took. OnTrue took (Grows self.old self.new)) }
        ensures through { IfOk result (λ took. OnFalse took ((self.new ≡ self.old) × IsThrough self.old.sessions k)) }
        ensures number { IsNumber k }
        ensures idle { IsIdle self.new.sessions k }
        ensures others { OthersStay self.old.sessions self.new.sessions k }
        ensures err { OnErr result (Halts self.old self.new) }
        ensures goes_on { GoesOn self.old self.new }
    {
        let session = &mut self.sessions[k.place()];
        let Some(mark) = take_exit(alloc, &mut self.world, session, k)? else {
            return Ok(false);
        };
        self.enter(Who::Session { k }, mark)?;
        Ok(true)
    }

    // The end is taken. The room for its entry comes first, so that nothing fails behind it.
    fn end(&mut self, alloc: Global) -> Result<Mark, NoMemory>
        requires { EachUpTo 8 (IsThrough self.old.sessions) }
        ensures ok { OnOk result ((script : Script) (handed : List ℕ) →
            LeavesAt self.old script (Steps Who.End ∷ []) handed → ClosesAt self.new script handed) }
        ensures took { IfOk result (TookEnd self.new.view) }
        ensures goes_on { GoesOn self.old self.new }
        ensures err { OnErr result (self.new ≡ self.old) }
    {
        self.schedule.reserve(1)?;
        let taken = self.world.take(alloc, Who::End, &Step::Shutdown)?;
        self.schedule.push_reserved(Entry {
            who: Who::End,
            mark: taken.1,
        });
        Ok(taken.1)
    }

    // Gives up the session's pending command, and has it leave without entries.
    fn give_up_session(&mut self, alloc: Global, k: SessionId)
        ensures { Halts self.old self.new }
    {
        let session = &mut self.sessions[k.place()];
        session.abandon();
        leave_unseen(alloc, &mut self.world, session, k);
    }
}

// Takes the session's next exit step, and answers its mark; `None` where none is left.
fn take_exit<W: StepWorld>(
    alloc: Global,
    world: &mut W,
    session: &mut StageSession,
    k: SessionId,
) -> Result<Option<Mark>, NoMemory>
    requires { session.old.phase ≢ Phase.Asking }
    ensures took { IfOk result (λ took. IfSome took (TakesExit session.old session.new (W.seen world.old) (W.seen world.new) k)) }
    ensures through { IfOk result (λ took. IfNone took (StaysThrough session.old session.new (W.seen world.old) (W.seen world.new))) }
    ensures phase { session.new.phase ≡ session.old.phase }
    ensures err { OnErr result (W.seen world.new ≡ W.seen world.old) }
{
    let Some(step) = session.exit_step() else {
        return Ok(None);
    };
    let taken = world.take(alloc, Who::Session { k }, &step)?;
    session.exited();
    Ok(Some(taken.1))
}

// Takes the end, if memory allows, and answers its mark.
fn take_end<W: StepWorld>(alloc: Global, world: &mut W) -> Option<Mark>
    ensures took { IfSome result (TookEnd (W.seen world.new)) }
    ensures rising { NoneFalls (W.seen world.old).faults (W.seen world.new).faults }
{
    match world.take(alloc, Who::End, &Step::Shutdown) {
        Ok(taken) => Some(taken.1),
        Err(_) => None,
    }
}

// The session makes its exit steps, as far as memory goes, without entries.
fn leave_unseen<W: StepWorld>(
    alloc: Global,
    world: &mut W,
    session: &mut StageSession,
    k: SessionId,
)
    requires { session.old.phase ≢ Phase.Asking }
    ensures rising { NoneFalls (W.seen world.old).faults (W.seen world.new).faults }
{
    'exits: while exit_unseen(alloc, world, session, k) {}
}

// The session makes its next exit step, if memory allows, without an entry; false where none is left.
fn exit_unseen<W: StepWorld>(
    alloc: Global,
    world: &mut W,
    session: &mut StageSession,
    k: SessionId,
) -> bool
    requires { session.old.phase ≢ Phase.Asking }
    ensures phase { session.new.phase ≡ session.old.phase }
    ensures fewer { OnTrue result (length (exits_left session.new.session) < length (exits_left session.old.session)) }
    ensures rising { NoneFalls (W.seen world.old).faults (W.seen world.new).faults }
{
    let Some(step) = session.exit_step() else {
        return false;
    };
    take_unseen(alloc, world, k, &step);
    session.exited();
    true
}

// Takes the step, if memory allows.
fn take_unseen<W: StepWorld>(alloc: Global, world: &mut W, k: SessionId, step: &Step)
    ensures rising { NoneFalls (W.seen world.old).faults (W.seen world.new).faults }
{
    let _ = world.take(alloc, Who::Session { k }, step);
}

// The session at a place among all.
pub(crate) fn session_at(place: u8) -> SessionId
    requires { place < 8 }
    ensures { result ≡ place + 1 }
{
    match SessionId::new(place + 1) {
        Some(k) => k,
        None => unreachable!(),
    }
}
