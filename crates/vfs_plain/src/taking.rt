//! The entries of a schedule, taken one after the other.

ghost use Rattle.std.specs.Prelude.{◌≡◌, ◌-◌, ◌+◌, ◌<◌, [], IfOk, IfSome, OnOk, false, length, replicate};
ghost use Rattle.std.specs.List.{list_all};
ghost use Rattle.vfs_base.specs.declared.deck.Deck.{Deck as AnyDeck};
ghost use Rattle.vfs_model.specs.ScriptRun.{RunState, entry_step, take_entry, take_step};
ghost use Rattle.vfs_plain.specs.SessionSteps.{is_through};
ghost use Rattle.vfs_plain.specs.Stages.{AddsSession, AllStart, AsksStep, StandsAt, TakesReplyOf, TakesTo, told};

use crate::script_session::ScriptSession;
use crate::stage::Stage;
use plain_steps::PlainWorld;
use std::alloc::Global;
use vfs_base::{Deck, Entry, NoMemory, Reply, SESSIONS, SessionId, Step, Who};

impl Stage {
    /// The start: no entry is taken yet.
    pub fn new(alloc: Global, deck: &Deck, world: PlainWorld) -> Result<Stage, NoMemory>
        ensures { IfOk result (λ stage. StandsAt stage deck.now.acts
            (record { world = world; heard = replicate 8 []; is_over = false })) }
    {
        Ok(Stage {
            world,
            sessions: new_sessions(alloc, deck)?,
            is_over: false,
        })
    }

    /// Takes the entry, where it can be taken; else nothing has changed.
    pub fn take(&mut self, alloc: Global, deck: &Deck, entry: &Entry) -> Result<bool, NoMemory>
        ensures { IfOk result (λ taken. (s : RunState) → StandsAt self.old deck.now.acts s →
            TakesTo self.new deck.now.acts taken (take_entry deck.now s entry.now)) }
    {
        if self.is_over {
            return Ok(false);
        }
        match self.entry_step(alloc, entry.who)? {
            Some(step) => self.take_step(alloc, deck, entry, &step),
            None => Ok(false),
        }
    }

    // The step that the entry stands for: a session's next one, the worker's, or the end's.
    fn entry_step(&self, alloc: Global, who: Who) -> Result<Option<Step>, NoMemory>
        ensures step { IfOk result (λ step. (deck : AnyDeck) (s : RunState) → StandsAt self.now deck.acts s →
            step ≡ entry_step deck s who) }
        ensures asks { IfOk result (λ step. IfSome step (AsksStep self.now.sessions.items who)) }
    {
        match who {
            Who::Session { k } => self.sessions[k.place()].wanted(alloc),
            Who::Flush { row } => Ok(Some(Step::Flush { row })),
            Who::Reclaim { row } => Ok(Some(Step::Reclaim { row })),
            Who::End if self.are_through() => Ok(Some(Step::Shutdown)),
            Who::End => Ok(None),
        }
    }

    // Takes the step, where its mark fits.
    fn take_step(
        &mut self,
        alloc: Global,
        deck: &Deck,
        entry: &Entry,
        step: &Step,
    ) -> Result<bool, NoMemory>
        requires { AsksStep self.old.sessions.items entry.now.who step.now }
        ensures { IfOk result (λ taken. (s : RunState) → StandsAt self.old deck.now.acts s →
            TakesTo self.new deck.now.acts taken (take_step s entry.now (Some step.now))) }
    {
        if !self.world.fits(alloc, entry.who, step, entry.mark)? {
            return Ok(false);
        }
        let reply = self.world.step(alloc, entry.who, step, entry.mark)?;
        self.tell(alloc, deck, entry.who, &reply)?;
        Ok(true)
    }

    // Tells the one who took a step its reply.
    fn tell(&mut self, alloc: Global, deck: &Deck, who: Who, reply: &Reply) -> Result<(), NoMemory>
        requires { TakesReplyOf self.old.sessions.items who reply.now }
        ensures { OnOk result ((s : RunState) → StandsAt self.old deck.now.acts s → StandsAt self.new deck.now.acts (told s who reply.now)) }
    {
        self.is_over = matches!(who, Who::End);
        let Who::Session { k } = who else {
            return Ok(());
        };
        self.sessions[k.place()].hear(alloc, deck.acts.as_slice(), reply)
    }

    // Whether all sessions are through with their lines and their exits.
    fn are_through(&self) -> bool
        ensures { result ≡ list_all (λ session. is_through session.session) self.now.sessions.items }
    {
        self.sessions.iter().all(|session| session.is_through())
    }
}

// All sessions, by number.
fn new_sessions(alloc: Global, deck: &Deck) -> Result<Vec<ScriptSession>, NoMemory>
    ensures count { IfOk result (λ sessions. length sessions.items ≡ 8) }
    ensures each { IfOk result (λ sessions. AllStart sessions.items deck.now.acts) }
{
    let mut sessions = Vec::new(alloc);
    for place in 0..SESSIONS {
        add_session(&mut sessions, alloc, deck, place)?;
    }
    Ok(sessions)
}

// Adds the session at the place among all, with its lines posted up to the first that asks a step.
fn add_session(
    sessions: &mut Vec<ScriptSession>,
    alloc: Global,
    deck: &Deck,
    place: u8,
) -> Result<(), NoMemory>
    requires few { place < 8 }
    requires count { length sessions.old.items ≡ place }
    ensures { OnOk result (AddsSession sessions.old.items sessions.new.items deck.now.acts (place + 1)) }
{
    let session = ScriptSession::new(alloc, session_at(place))?;
    sessions.push(session)?;
    sessions[place as usize].post_lines(alloc, deck.acts.as_slice())
}

// The session at a place among all.
fn session_at(place: u8) -> SessionId
    requires { place < 8 }
    ensures { result ≡ place + 1 }
{
    match SessionId::new(place + 1) {
        Some(k) => k,
        None => SessionId::FIRST,
    }
}
