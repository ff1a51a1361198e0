ghost use Rattle.std.specs.Prelude.{◌≡◌, ◌≢◌, ℕ, [], List, Some, true, IfOk, OnOk, IsSome, drop, slice_get};
ghost use Rattle.vfs_base.specs.declared.reply.Reply.{Reply as AnyReply};
ghost use Rattle.msh_session.specs.SessionTalks.{FitsWanted, exits_left, session_rest};
ghost use Rattle.script_stage.specs.Phases.{fits_phase};

use crate::phase::Phase;
use msh_session::Session;
use std::alloc::Global;
use std::mem;
use vfs_base::{Bytes, NoMemory, Reply, Step};

/// A session of a script at work.
#[derive(Drop)]
pub struct StageSession {
    session: Session,
    phase: Phase,
    // What finished blocks showed and nobody was handed yet.
    text: Bytes,
    ghost fits: { fits_phase phase session ≡ true },
}

impl StageSession {
    ghost use Rattle.script_stage.specs.Sessions.{AtWork, FollowsExit, FollowsLine, FollowsReply};

    /// A session at the start.
    pub fn new(alloc: Global) -> Result<StageSession, NoMemory>
        ensures work { IfOk result (λ session. AtWork session [] [] []) }
        ensures fresh { IfOk result (λ session. (session.phase ≡ Phase.Idle) × (session.text ≡ [])) }
    {
        Ok(StageSession {
            session: Session::new(alloc)?,
            phase: Phase::Idle,
            text: Bytes::new(alloc),
        })
    }

    /// What the session is at.
    pub fn phase(&self) -> Phase
        ensures { result ≡ self.now.phase }
    {
        self.phase
    }

    /// Begins a line.
    pub fn post(&mut self, alloc: Global, line: &[u8]) -> Result<(), NoMemory>
        requires { self.old.phase ≡ Phase.Idle }
        ensures { OnOk result (FollowsLine self.old self.new line.now) }
    {
        match self.session.post(alloc, line) {
            Ok(Some(block)) => self.text.extend_from_slice(block.as_slice()),
            Ok(None) => {
                self.phase = Phase::Asking;
                Ok(())
            }
            Err(error) => {
                self.phase = Phase::Lost;
                Err(error)
            }
        }
    }

    /// The step that the pending command asks.
    pub fn wanted(&self, alloc: Global) -> Result<Step, NoMemory>
        requires { self.now.phase ≡ Phase.Asking }
        ensures { IfOk result (λ step. (session_rest self.now.session [] []).wanted ≡ Some step) }
    {
        match self.session.want(alloc)? {
            Some(step) => Ok(step),
            None => unreachable!(),
        }
    }

    /// Takes in the reply to the step that the pending command asks.
    pub fn hear(&mut self, alloc: Global, reply: &Reply) -> Result<(), NoMemory>
        requires { FitsWanted (session_rest self.old.session [] []).wanted reply.now }
        ensures { OnOk result (FollowsReply self.old self.new reply.now) }
    {
        match self.session.answer(alloc, reply) {
            Ok(Some(block)) => {
                self.phase = Phase::Idle;
                self.text.extend_from_slice(block.as_slice())
            }
            Ok(None) => {
                self.phase = Phase::Asking;
                Ok(())
            }
            Err(error) => {
                self.phase = Phase::Lost;
                Err(error)
            }
        }
    }

    /// The next exit step; `None` when all are made.
    pub fn exit_step(&self) -> Option<Step>
        requires { self.now.phase ≢ Phase.Asking }
        ensures { result ≡ slice_get (exits_left self.now.session) 0 }
    {
        self.session.exit_step()
    }

    /// The exit step that was named is made.
    pub fn exited(&mut self)
        requires named { IsSome (slice_get (exits_left self.old.session) 0) }
        requires done { self.old.phase ≢ Phase.Asking }
        ensures follows { FollowsExit self.old self.new }
        ensures exits { exits_left self.new.session ≡ drop 1 (exits_left self.old.session) }
        ensures phase { self.new.phase ≡ self.old.phase }
        ensures text { self.new.text ≡ self.old.text }
    {
        self.session.exited();
    }

    /// Gives up the pending command, if there is one.
    pub fn abandon(&mut self)
        ensures { self.new.phase ≢ Phase.Asking }
    {
        if let Phase::Asking = self.phase {
            self.session.abandon();
            self.phase = Phase::Lost;
        }
    }

    /// Hands out what finished blocks showed.
    pub fn hand_out(&mut self, alloc: Global) -> Bytes
        ensures text { self.old.text ≡ result }
        ensures rest { self.new ≡ record self.old { text = [] } }
    {
        mem::replace(&mut self.text, Bytes::new(alloc))
    }

    /// What finished blocks showed and nobody was handed yet.
    pub fn text(&self) -> &[u8]
        ensures { result.now ≡ self.now.text }
    {
        self.text.as_slice()
    }
}
