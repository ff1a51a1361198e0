ghost use Rattle.std.specs.Prelude.{◌≡◌, ℕ, ◌∷◌, [], List, true, false, is_some, is_none, drop, length, slice_get, IfOk, OnOk, OnErr, IsSome, if◌then◌else◌};
ghost use Rattle.std.specs.Option.{option_to_list};
ghost use Rattle.std.specs.List.{filter_map};
ghost use Rattle.vfs_base.specs.declared.reply.Reply.{Reply as AnyReply};
ghost use Rattle.vfs_base.specs.declared.limits.TheConstants.{WINDOWS};
ghost use Rattle.vfs_model.specs.DescriptorLaws.{IsSound};
ghost use Rattle.vfs_model.specs.Session.{close_step as close_of, files_to_close, home_steps, is_pending, lines_run, session_run, unmap_step as unmap_of};
ghost use Rattle.msh_commands.specs.CommandTalks.{command_talk};
ghost use Rattle.msh_desk.specs.State.{state_of};
ghost use Rattle.msh_session.specs.Blocks.{after_head};
ghost use Rattle.msh_session.specs.SessionTalks.{FitsWanted, HasTaken, LosesLine, LosesReply, blocks_before, exits_left, given_up, given_up_stage, has_command, is_given_up, is_ready, no_exits, session_rest};

use crate::exits::Exits;
use crate::prompt::{bad_line_block, block_head};
use crate::stage::Stage;
use crate::turn::{Turn, turn_of};
use msh_commands::{Command, Next};
use msh_desk::Desk;
use msh_words::{WordFault, split};
use std::alloc::Global;
use std::mem;
use vfs_base::{Bytes, NoMemory, Reply, Step};

/// A session of the shell: it runs lines one after the other, and then leaves.
///
/// It asks for steps and waits for their replies; it makes no step by itself.
pub struct Session {
    desk: Desk,
    stage: Stage,
    exits: Exits,
}

// By hand, so that whoever lets a session go makes one call.
impl Drop for Session {
    fn drop(self) {
        let Session {
            desk,
            stage,
            exits: _,
        } = self;
        drop(desk);
        drop(stage);
    }
}

impl Session {
    /// A session at the start: in `/`, with no open file and no mapping.
    pub fn new(alloc: Global) -> Result<Session, NoMemory>
        ensures rest { IfOk result (λ session. (lines : List (List ℕ)) (replies : List AnyReply) →
            session_rest session lines replies ≡ session_run lines replies) }
        ensures ready { IfOk result (λ session. is_ready session ≡ true) }
        ensures exits { IfOk result (λ session. session.exits ≡ no_exits) }
    {
        Ok(Session {
            desk: Desk::new(alloc)?,
            stage: Stage::Ready,
            exits: Exits::none(),
        })
    }

    /// Begins a line. The answer is its block, exactly where its command needs no step.
    ///
    /// At want of memory the line is lost: the session is as before, or the line's command is given up.
    pub fn post(&mut self, alloc: Global, line: &[u8]) -> Result<Option<Bytes>, NoMemory>
        requires { is_ready self.old ≡ true }
        ensures rest { IfOk result (λ block. (lines : List (List ℕ)) (replies : List AnyReply) →
            session_rest self.old (line.now ∷ lines) replies
            ≡ blocks_before (option_to_list block) (session_rest self.new lines replies)) }
        ensures finished { IfOk result (λ block. is_ready self.new ≡ is_some block) }
        ensures pending { IfOk result (λ block. is_pending (session_rest self.new [] []) ≡ is_none block) }
        ensures exits { self.new.exits ≡ self.old.exits }
        ensures lost { OnErr result (LosesLine self.old line.now self.new) }
    {
        let head = block_head(alloc, &self.desk.shown, line)?;
        match split(alloc, line) {
            Ok(words) => {
                let command = Command::start(alloc, words, &mut self.desk)?;
                self.settle(alloc, head, command)
            }
            Err(WordFault::NoMemory) => Err(NoMemory),
            Err(_) => {
                let block = bad_line_block(head)?;
                Ok(Some(block))
            }
        }
    }

    /// The step that the pending command asks; `None` exactly where nothing is pending.
    pub fn want(&self, alloc: Global) -> Result<Option<Step>, NoMemory>
        ensures { IfOk result (λ step. step ≡ (session_rest self.now [] []).wanted) }
    {
        let Stage::Pending { command, .. } = &self.stage else {
            return Ok(None);
        };
        match command.next(alloc)? {
            Next::Ask { step } => Ok(Some(step)),
            Next::Finished { .. } => Ok(None),
        }
    }

    /// Takes in the reply to the step that the pending command asks. The answer is the block, exactly
    /// where the command is finished with it.
    ///
    /// At want of memory the reply is taken in all the same, and the command is given up.
    pub fn answer(&mut self, alloc: Global, reply: &Reply) -> Result<Option<Bytes>, NoMemory>
        requires { FitsWanted (session_rest self.old [] []).wanted reply.now }
        ensures rest { IfOk result (λ block. (lines : List (List ℕ)) (replies : List AnyReply) →
            session_rest self.old lines (reply.now ∷ replies)
            ≡ blocks_before (option_to_list block) (session_rest self.new lines replies)) }
        ensures finished { IfOk result (λ block. is_ready self.new ≡ is_some block) }
        ensures pending { IfOk result (λ block. is_pending (session_rest self.new [] []) ≡ is_none block) }
        ensures exits { self.new.exits ≡ self.old.exits }
        ensures lost { OnErr result (LosesReply self.old reply.now self.new) }
    {
        match self.take_in(alloc, reply) {
            Ok(()) => self.go_on(alloc),
            Err(error) => {
                self.give_up();
                Err(error)
            }
        }
    }

    /// Gives up a pending command, without a block. Where nothing is pending, nothing changes. It takes
    /// no memory.
    pub fn abandon(&mut self)
        ensures pending { is_pending (session_rest self.old [] []) ≡ true →
            (lines : List (List ℕ)) (replies : List AnyReply) →
            session_rest self.new lines replies ≡ given_up (session_rest self.old [] []) replies }
        ensures ready { is_ready self.old ≡ true → self.new ≡ self.old }
        ensures given_up { is_given_up self.old ≡ true → self.new ≡ self.old }
        ensures exits { self.new.exits ≡ self.old.exits }
    {
        self.give_up();
    }

    /// The next step by which the session leaves; `None` when all are made.
    ///
    /// A command that was given up gives back its own references, in the order of opening. Then go the
    /// mappings by number and the open files by their greatest descriptors, and the working directory
    /// goes back to `/`. It takes no memory.
    pub fn exit_step(&self) -> Option<Step>
        requires { is_pending (session_rest self.now [] []) ≡ false }
        ensures { result ≡ slice_get (exits_left self.now) 0 }
    {
        if let Some(step) = self.own_step() {
            return Some(step);
        }
        if let Some(step) = self.unmap_step() {
            return Some(step);
        }
        if let Some(step) = self.close_step() {
            return Some(step);
        }
        self.home_step()
    }

    /// The exit step that was named is made, whatever the reply. It takes no memory.
    pub fn exited(&mut self)
        requires pending { is_pending (session_rest self.old [] []) ≡ false }
        requires named { IsSome (slice_get (exits_left self.old) 0) }
        ensures exits { exits_left self.new ≡ drop 1 (exits_left self.old) }
        ensures rest { (lines : List (List ℕ)) (replies : List AnyReply) →
            session_rest self.new lines replies ≡ session_rest self.old lines replies }
        ensures ready { is_ready self.new ≡ is_ready self.old }
    {
        if self.has_own() {
            self.exits.own += 1;
        } else if self.has_mapping() {
            self.exits.mappings += 1;
        } else if self.has_file() {
            self.exits.files += 1;
        } else {
            self.exits.is_home = true;
        }
    }

    // Goes on with a command that has taken in its replies so far.
    fn settle(
        &mut self,
        alloc: Global,
        head: Bytes,
        command: Command,
    ) -> Result<Option<Bytes>, NoMemory>
        ensures rest { IfOk result (λ block. (lines : List (List ℕ)) (replies : List AnyReply) →
            after_head head (command_talk command (state_of self.old.desk) replies) (lines_run lines)
            ≡ blocks_before (option_to_list block) (session_rest self.new lines replies)) }
        ensures finished { IfOk result (λ block. is_ready self.new ≡ is_some block) }
        ensures pending { IfOk result (λ block. is_pending (session_rest self.new [] []) ≡ is_none block) }
        ensures exits { self.new.exits ≡ self.old.exits }
        ensures desk { self.new.desk ≡ self.old.desk }
        ensures lost { OnErr result (self.new.stage ≡ Stage.GivenUp command) }
    {
        match turn_of(alloc, head, &command) {
            Ok(Turn::Asks { head }) => {
                self.stage = Stage::Pending { head, command };
                Ok(None)
            }
            Ok(Turn::Shows { block }) => {
                self.stage = Stage::Ready;
                Ok(Some(block))
            }
            Err(error) => {
                self.stage = Stage::GivenUp { command };
                Err(error)
            }
        }
    }

    // Goes on with the pending command, which has taken in its replies so far.
    fn go_on(&mut self, alloc: Global) -> Result<Option<Bytes>, NoMemory>
        requires { has_command self.old ≡ true }
        ensures rest { IfOk result (λ block. (lines : List (List ℕ)) (replies : List AnyReply) →
            session_rest self.old lines replies
            ≡ blocks_before (option_to_list block) (session_rest self.new lines replies)) }
        ensures finished { IfOk result (λ block. is_ready self.new ≡ is_some block) }
        ensures pending { IfOk result (λ block. is_pending (session_rest self.new [] []) ≡ is_none block) }
        ensures exits { self.new.exits ≡ self.old.exits }
        ensures desk { self.new.desk ≡ self.old.desk }
        ensures lost { OnErr result (self.new.stage ≡ given_up_stage self.old.stage) }
    {
        match mem::replace(&mut self.stage, Stage::Ready) {
            Stage::Pending { head, command } => self.settle(alloc, head, command),
            Stage::Ready | Stage::GivenUp { .. } => unreachable!(),
        }
    }

    // The pending command takes in a reply.
    fn take_in(&mut self, alloc: Global, reply: &Reply) -> Result<(), NoMemory>
        requires { FitsWanted (session_rest self.old [] []).wanted reply.now }
        ensures ok { OnOk result ((lines : List (List ℕ)) (replies : List AnyReply) →
            session_rest self.new lines replies ≡ session_rest self.old lines (reply.now ∷ replies)) }
        ensures taken { HasTaken self.old.stage (state_of self.old.desk) reply.now self.new.stage (state_of self.new.desk) }
        ensures exits { self.new.exits ≡ self.old.exits }
    {
        let Stage::Pending { command, .. } = &mut self.stage else {
            unreachable!();
        };
        command.feed(alloc, reply, &mut self.desk)
    }

    // A pending command is given up.
    fn give_up(&mut self)
        ensures { self.new ≡ record self.old { stage = given_up_stage self.old.stage } }
    {
        match mem::replace(&mut self.stage, Stage::Ready) {
            Stage::Ready => {}
            Stage::Pending { head, command } => {
                drop(head);
                self.keep_given_up(command);
            }
            Stage::GivenUp { command } => self.keep_given_up(command),
        }
    }

    // The command is one that was given up.
    fn keep_given_up(&mut self, command: Command)
        ensures { self.new ≡ record self.old { stage = Stage.GivenUp command } }
    {
        let stage = mem::replace(&mut self.stage, Stage::GivenUp { command });
        drop(stage);
    }

    // The next step that gives back a reference of the command that was given up.
    fn own_step(&self) -> Option<Step>
        requires { is_pending (session_rest self.now [] []) ≡ false }
        ensures { result ≡ slice_get (drop self.now.exits.own (session_rest self.now [] []).own) 0 }
    {
        match &self.stage {
            Stage::GivenUp { command } => command.own(self.exits.own),
            Stage::Ready | Stage::Pending { .. } => None,
        }
    }

    // Whether the command that was given up has a reference left.
    fn has_own(&self) -> bool
        requires { is_pending (session_rest self.now [] []) ≡ false }
        ensures { result ≡ is_some (slice_get (drop self.now.exits.own (session_rest self.now [] []).own) 0) }
    {
        self.own_step().is_some()
    }

    // Whether a mapping is left.
    fn has_mapping(&self) -> bool
        ensures count { length (state_of self.now.desk).mappings ≡ WINDOWS }
        ensures told { result ≡ is_some (slice_get (drop self.now.exits.mappings (filter_map unmap_of (state_of self.now.desk).mappings)) 0) }
    {
        self.unmap_step().is_some()
    }

    // Whether an open file is left.
    fn has_file(&self) -> bool
        ensures sound { IsSound (state_of self.now.desk).open_files }
        ensures told { result ≡ is_some (slice_get (drop self.now.exits.files (filter_map (close_of (state_of self.now.desk).open_files) (files_to_close (state_of self.now.desk).open_files.descriptors))) 0) }
    {
        self.close_step().is_some()
    }

    // The next step that gives up a mapping.
    fn unmap_step(&self) -> Option<Step>
        ensures count { length (state_of self.now.desk).mappings ≡ WINDOWS }
        ensures told { result ≡ slice_get (drop self.now.exits.mappings (filter_map unmap_of (state_of self.now.desk).mappings)) 0 }
    {
        let window = self.desk.windows.nth(self.exits.mappings)?;
        Some(Step::Unmap { hold: window.hold })
    }

    // The next step that closes an open file.
    fn close_step(&self) -> Option<Step>
        ensures sound { IsSound (state_of self.now.desk).open_files }
        ensures told { result ≡ slice_get (drop self.now.exits.files (filter_map (close_of (state_of self.now.desk).open_files) (files_to_close (state_of self.now.desk).open_files.descriptors))) 0 }
    {
        let hold = self.desk.fds.nth_to_close(self.exits.files)?;
        Some(Step::Close { hold })
    }

    // The way back to `/`, where it isn't made.
    fn home_step(&self) -> Option<Step>
        ensures { result ≡ slice_get (if self.now.exits.is_home then [] else home_steps (state_of self.now.desk).shown) 0 }
    {
        if self.exits.is_home || self.desk.shown.is_root() {
            return None;
        }
        Some(Step::Home)
    }
}
