ghost use Rattle.std.specs.Prelude.{◌≡◌, ◌-◌, ◌+◌, ◌<◌, ◌≤◌, ◌^◌, ◌++◌, ◌∷◌, ℕ, [], List, true, map, All, IfOk, OnOk, OnErr, length};
ghost use Rattle.std.specs.Bool.{OnFalse, OnTrue};
ghost use Rattle.vfs_model.specs.DeckLaws.{IsAct, IsEvent};
ghost use Rattle.vfs_model.specs.FaultCounts.{NoneFalls};
ghost use Rattle.vfs_model.specs.Turns.{Posts, RunOut, Steps, Task, act_tasks, script_tasks};
ghost use Rattle.msh_session.specs.SessionTalks.{session_rest};
ghost use Rattle.script_stage.specs.Scenes.{GoesOn, Halts, IsNumber, Script, with_entry};
ghost use Rattle.script_stage.specs.Sessions.{AtWork};
ghost use Rattle.script_stage.specs.SessionTurns.{TakesWanted};
ghost use Rattle.script_stage.specs.Standing.{AreFresh, Breaks, Does, Grows, IsAsking, IsFresh, IsIdle, IsWork, Opens, OthersStay, SessionAt, StandsAt, TakesTurn};

use crate::phase::Phase;
use crate::stage_session::StageSession;
use std::alloc::Global;
use std::marker::Model;
use step_world::StepWorld;
use vfs_base::{Act, Bytes, Entry, List, Mark, NoMemory, SESSIONS, SessionId, Step, Who};

/// A world, its eight sessions and the schedule so far: a script at work.
#[derive(Drop)]
pub struct Stage<W: StepWorld> {
    pub(crate) world: W,
    // By number.
    pub(crate) sessions: Vec<StageSession>,
    pub(crate) schedule: Vec<Entry>,
    // How many entries there were when the sessions began to leave.
    pub(crate) leaves_at: Option<usize>,
}

impl<W: StepWorld> Model for Stage<W> {
    ghost use Rattle.std.specs.Prelude.{◌≡◌, length};
    ghost use Rattle.script_stage.specs.Scenes.{Scene};

    ghost Value = { Scene };

    ghost view = { λ stage. record {
      view = W.seen stage.world;
      sessions = stage.sessions.items;
      schedule = stage.schedule.items;
      leaves_at = stage.leaves_at;
    } };

    ghost invariant = { λ stage. length stage.sessions.items ≡ 8 };
}

impl<W: StepWorld> Stage<W> {
    /// A script at the start.
    pub fn new(alloc: Global, world: W) -> Result<Stage<W>, NoMemory>
        ensures stands { IfOk result (λ stage. (script : Script) →
            Opens script (W.seen world) → StandsAt stage script (script_tasks script.deck) []) }
        ensures fresh { IfOk result IsFresh }
    {
        let sessions = new_sessions(alloc)?;
        Ok(Stage {
            world,
            sessions,
            schedule: Vec::new(alloc),
            leaves_at: None,
        })
    }

    /// Runs the session's pending command to its end, posts the line, and runs its command to its end.
    ///
    /// # Errors
    /// `NoMemory`; the schedule is then that of an earlier moment, and nothing but `give_up` is of use.
    pub fn run_line(&mut self, alloc: Global, k: SessionId, line: &[u8]) -> Result<(), NoMemory>
        ensures ok { OnOk result (Does self.old self.new (RunOut k ∷ Posts k line.now ∷ RunOut k ∷ [])) }
        ensures idle { OnOk result (IsIdle self.new.sessions k) }
        ensures err { OnErr result (Breaks self.old self.new (RunOut k ∷ Posts k line.now ∷ RunOut k ∷ [])) }
        ensures goes_on { GoesOn self.old self.new }
    {
        self.begin_line(alloc, k, line)?;
        self.run_out(alloc, k)
    }

    /// Plays a line of a script: a posted line waits for the session's pending command, and an event of
    /// a session with nothing pending is passed over, without an entry.
    ///
    /// # Errors
    /// `NoMemory`, as of `run_line`.
    pub fn play(&mut self, alloc: Global, act: &Act) -> Result<(), NoMemory>
        requires { IsAct act.now }
        ensures ok { OnOk result (Does self.old self.new (act_tasks act.now)) }
        ensures err { OnErr result (Breaks self.old self.new (act_tasks act.now)) }
    {
        match act {
            Act::Post { k, text, go: true } => self.run_line(alloc, *k, text.as_slice()),
            Act::Post { k, text, go: false } => self.begin_line(alloc, *k, text.as_slice()),
            Act::Events { list } => self.play_events(alloc, list.as_slice()),
        }
    }

    /// Hands out what the first session was shown and nobody was handed yet. It takes no memory.
    pub fn hand_out(&mut self) -> Bytes
        ensures work { (script : Script) (tasks : List Task) (handed : List ℕ) →
            StandsAt self.old script tasks handed → StandsAt self.new script tasks (handed ++ result) }
        ensures fresh { IsIdle self.old.sessions 1 → IsFresh self.new }
        ensures halts { Halts self.old self.new }
    {
        let alloc = *self.sessions.allocator();
        self.sessions[0].hand_out(alloc)
    }

    /// The schedule so far.
    pub fn schedule(&self) -> &[Entry]
        ensures { result.now ≡ self.now.schedule }
    {
        self.schedule.as_slice()
    }

    // Runs the session's pending command to its end, and posts the line.
    fn begin_line(&mut self, alloc: Global, k: SessionId, line: &[u8]) -> Result<(), NoMemory>
        ensures ok { OnOk result (Does self.old self.new (RunOut k ∷ Posts k line.now ∷ [])) }
        ensures err { OnErr result (Breaks self.old self.new (RunOut k ∷ Posts k line.now ∷ [])) }
        ensures goes_on { GoesOn self.old self.new }
    {
        self.run_out(alloc, k)?;
        self.post(alloc, k, line)
    }

    // Runs the session's pending command to its end.
    #[tactic(auto, using(crate::proofs::Calls::goes_then))]
    pub(crate) fn run_out(&mut self, alloc: Global, k: SessionId) -> Result<(), NoMemory>
        ensures ok { OnOk result (Does self.old self.new (RunOut k ∷ [])) }
        ensures idle { OnOk result (IsIdle self.new.sessions k) }
        ensures others { OthersStay self.old.sessions self.new.sessions k }
        ensures err { OnErr result (Breaks self.old self.new (RunOut k ∷ [])) }
        ensures goes_on { GoesOn self.old self.new }
    {
        while self.step(alloc, k)? {}
        Ok(())
    }

    // Posts the line; its command may be left pending.
    fn post(&mut self, alloc: Global, k: SessionId, line: &[u8]) -> Result<(), NoMemory>
        requires { IsIdle self.old.sessions k }
        ensures ok { OnOk result (Does self.old self.new (Posts k line.now ∷ [])) }
        ensures err { OnErr result (Breaks self.old self.new (Posts k line.now ∷ [])) }
        ensures goes_on { GoesOn self.old self.new }
    {
        self.sessions[k.place()].post(alloc, line)
    }

    // Takes a step of the session's pending command; false where nothing is pending.
    fn step(&mut self, alloc: Global, k: SessionId) -> Result<bool, NoMemory>
        ensures took { IfOk result (λ took. OnTrue took (TakesTurn self.old self.new k)) }
        ensures grows { IfOk result (λ took. OnTrue took (Grows self.old self.new)) }
        ensures idle { IfOk result (λ took. OnFalse took ((self.new ≡ self.old) × IsIdle self.old.sessions k)) }
        ensures number { IsNumber k }
        ensures others { OthersStay self.old.sessions self.new.sessions k }
        ensures err { OnErr result (Halts self.old self.new) }
        ensures goes_on { GoesOn self.old self.new }
    {
        match self.sessions[k.place()].phase() {
            Phase::Idle => Ok(false),
            Phase::Lost => Err(NoMemory),
            Phase::Asking => {
                self.take_step(alloc, k)?;
                Ok(true)
            }
        }
    }

    // Takes the step that the session's pending command asks.
    fn take_step(&mut self, alloc: Global, k: SessionId) -> Result<(), NoMemory>
        requires { IsAsking self.old.sessions k }
        ensures took { OnOk result (TakesTurn self.old self.new k) }
        ensures grows { OnOk result (Grows self.old self.new) }
        ensures others { OthersStay self.old.sessions self.new.sessions k }
        ensures err { OnErr result (Halts self.old self.new) }
        ensures goes_on { GoesOn self.old self.new }
    {
        let session = &mut self.sessions[k.place()];
        let mark = take_wanted(alloc, &mut self.world, session, k)?;
        self.enter(Who::Session { k }, mark)
    }

    // Puts an entry behind the schedule.
    pub(crate) fn enter(&mut self, who: Who, mark: Mark) -> Result<(), NoMemory>
        ensures ok { OnOk result (self.new ≡ with_entry self.old self.old.view self.old.sessions (record { who = who; mark = mark })) }
        ensures room { length self.new.schedule ≤ 2 ^ 64 }
        ensures same { self.new.sessions ≡ self.old.sessions }
        ensures err { OnErr result (self.new ≡ self.old) }
        ensures goes_on { GoesOn self.old self.new }
    {
        self.schedule.push(Entry { who, mark })?;
        Ok(())
    }

    // Takes a step for each event, in their order.
    fn play_events(&mut self, alloc: Global, events: &[Who]) -> Result<(), NoMemory>
        requires { All IsEvent events.now }
        ensures ok { OnOk result (Does self.old self.new (map Steps events.now)) }
        ensures err { OnErr result (Breaks self.old self.new (map Steps events.now)) }
    {
        for who in events {
            self.play_event(alloc, who)?;
        }
        Ok(())
    }

    // Takes a step for an event.
    fn play_event(&mut self, alloc: Global, who: &Who) -> Result<(), NoMemory>
        requires { IsEvent who.now }
        ensures ok { OnOk result (Does self.old self.new (Steps who.now ∷ [])) }
        ensures err { OnErr result (Breaks self.old self.new (Steps who.now ∷ [])) }
    {
        match who {
            Who::Session { k } => self.play_session(alloc, *k),
            Who::Flush { row } => self.work(alloc, who, &Step::Flush { row: *row }),
            Who::Reclaim { row } => self.work(alloc, who, &Step::Reclaim { row: *row }),
            Who::End => unreachable!(),
        }
    }

    // Takes a step of the session's pending command, if it has one.
    fn play_session(&mut self, alloc: Global, k: SessionId) -> Result<(), NoMemory>
        ensures ok { OnOk result (Does self.old self.new (Steps (Who.Session k) ∷ [])) }
        ensures err { OnErr result (Breaks self.old self.new (Steps (Who.Session k) ∷ [])) }
    {
        self.step(alloc, k)?;
        Ok(())
    }

    // Takes a step of the worker.
    fn work(&mut self, alloc: Global, who: &Who, step: &Step) -> Result<(), NoMemory>
        requires { IsWork who.now step.now }
        ensures ok { OnOk result (Does self.old self.new (Steps who.now ∷ [])) }
        ensures err { OnErr result (Breaks self.old self.new (Steps who.now ∷ [])) }
    {
        let taken = self.world.take(alloc, *who, step)?;
        self.enter(*who, taken.1)
    }
}

// Takes the step that the session's pending command asks, and tells it the reply. The answer is the mark.
fn take_wanted<W: StepWorld>(
    alloc: Global,
    world: &mut W,
    session: &mut StageSession,
    k: SessionId,
) -> Result<Mark, NoMemory>
    requires { session.old.phase ≡ Phase.Asking }
    ensures ok { IfOk result (TakesWanted session.old session.new (W.seen world.old) (W.seen world.new) k) }
    ensures err { OnErr result (NoneFalls (W.seen world.old).faults (W.seen world.new).faults) }
{
    let step = session.wanted(alloc)?;
    take_asked(alloc, world, session, k, &step)
}

// Takes this step, which the session's pending command asks.
fn take_asked<W: StepWorld>(
    alloc: Global,
    world: &mut W,
    session: &mut StageSession,
    k: SessionId,
    step: &Step,
) -> Result<Mark, NoMemory>
    requires { (session_rest session.old.session [] []).wanted ≡ Some step.now }
    ensures ok { IfOk result (TakesWanted session.old session.new (W.seen world.old) (W.seen world.new) k) }
    ensures err { OnErr result (NoneFalls (W.seen world.old).faults (W.seen world.new).faults) }
{
    let taken = world.take(alloc, Who::Session { k }, step)?;
    session.hear(alloc, &taken.0)?;
    Ok(taken.1)
}

// The sessions at the start.
fn new_sessions(alloc: Global) -> Result<Vec<StageSession>, NoMemory>
    ensures count { IfOk result (λ all. length all.items ≡ 8) }
    ensures each { IfOk result (λ all. (k : ℕ) → IsNumber k → SessionAt AtWork all.items k [] [] []) }
    ensures fresh { IfOk result (λ all. AreFresh all.items) }
{
    let mut sessions = Vec::new(alloc);
    for _place in 0..SESSIONS {
        let session = StageSession::new(alloc)?;
        sessions.push(session)?;
    }
    Ok(sessions)
}
