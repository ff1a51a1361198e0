//! The progress of a script's session: its lines are posted one after the other, and its blocks are kept.

ghost use Rattle.std.specs.Prelude.{◌≡◌, ◌<◌, ◌≤◌, ◌++◌, ◌∷◌, [], List, IfOk, OnOk, is_some, length, true};
ghost use Rattle.std.specs.Bool.{OnFalse, OnTrue};
ghost use Rattle.std.specs.List.{concat};
ghost use Rattle.std.specs.Option.{option_to_list};
ghost use Rattle.vfs_base.specs.declared.deck.Act.{Act as AnyAct};
ghost use Rattle.vfs_base.specs.declared.reply.Reply.{Reply as AnyReply};
ghost use Rattle.msh_session.specs.SessionTalks.{FitsWanted, is_ready, session_rest};
ghost use Rattle.vfs_plain.specs.ScriptSessions.{Pauses, Plays, PostsLine, SameBesideText, TakesIn};
ghost use Rattle.vfs_plain.specs.SessionSteps.{TakesReply};

use crate::posted_lines::next_line;
use crate::script_session::ScriptSession;
use msh_session::Session;
use std::alloc::Global;
use vfs_base::{Act, Bytes, NoMemory, Reply, SessionId};

impl ScriptSession {
    /// The session before any line.
    pub fn new(alloc: Global, k: SessionId) -> Result<ScriptSession, NoMemory>
        ensures pauses { IfOk result (λ session. (acts : List AnyAct) → Pauses session acts []) }
        ensures ready { IfOk result (λ session. is_ready session.session ≡ true) }
        ensures number { IfOk result (λ session. session.k ≡ k) }
    {
        let session = Session::new(alloc)?;
        Ok(ScriptSession {
            k,
            session,
            has_pending: false,
            place: 0,
            text: Bytes::new(alloc),
        })
    }

    /// Hears the reply to the step that it wants.
    pub fn hear(&mut self, alloc: Global, acts: &[Act], reply: &Reply) -> Result<(), NoMemory>
        requires { TakesReply self.old.session reply.now }
        ensures plays { OnOk result ((heard : List AnyReply) → Plays self.old acts.now heard → Plays self.new acts.now (heard ++ reply.now ∷ [])) }
        ensures number { OnOk result (self.new.k ≡ self.old.k) }
    {
        if self.has_pending {
            self.hear_pending(alloc, acts, reply)
        } else {
            self.session.exited();
            Ok(())
        }
    }

    // Hears the reply to the pending step. Behind a finished command further lines are posted.
    fn hear_pending(&mut self, alloc: Global, acts: &[Act], reply: &Reply) -> Result<(), NoMemory>
        requires { FitsWanted (session_rest self.old.session [] []).wanted reply.now }
        ensures plays { OnOk result ((heard : List AnyReply) → Plays self.old acts.now heard → Plays self.new acts.now (heard ++ reply.now ∷ [])) }
        ensures number { OnOk result (self.new.k ≡ self.old.k) }
    {
        if self.take_in(alloc, reply)? {
            self.post_lines(alloc, acts)
        } else {
            Ok(())
        }
    }

    // Takes in the reply to the pending step; true where the command is finished with it.
    fn take_in(&mut self, alloc: Global, reply: &Reply) -> Result<bool, NoMemory>
        requires { FitsWanted (session_rest self.old.session [] []).wanted reply.now }
        ensures { IfOk result (TakesIn self.old self.new reply.now) }
    {
        let block = self.session.answer(alloc, reply);
        self.has_pending = matches!(block, Ok(None));
        self.keep(block?)
    }

    // Keeps the block of a finished command; false where there is none.
    fn keep(&mut self, block: Option<Bytes>) -> Result<bool, NoMemory>
        ensures finished { IfOk result (λ kept. is_some block ≡ kept) }
        ensures text { OnOk result (self.new.text ≡ self.old.text ++ concat (option_to_list block)) }
        ensures same { SameBesideText self.old self.new }
    {
        let Some(block) = block else {
            return Ok(false);
        };
        self.text.extend_from_slice(block.as_slice())?;
        Ok(true)
    }

    /// Posts lines up to the first that asks a step, if one is left.
    pub fn post_lines(&mut self, alloc: Global, acts: &[Act]) -> Result<(), NoMemory>
        requires { is_ready self.old.session ≡ true }
        ensures plays { OnOk result ((heard : List AnyReply) → Pauses self.old acts.now heard → Plays self.new acts.now heard) }
        ensures number { OnOk result (self.new.k ≡ self.old.k) }
    {
        while self.post_next(alloc, acts)? {}
        Ok(())
    }

    // Posts the next line; false where it asks a step, or no line is left.
    fn post_next(&mut self, alloc: Global, acts: &[Act]) -> Result<bool, NoMemory>
        requires { is_ready self.old.session ≡ true }
        ensures more { IfOk result (λ more. OnTrue more ((heard : List AnyReply) → Pauses self.old acts.now heard → Pauses self.new acts.now heard)) }
        ensures over { IfOk result (λ more. OnFalse more ((heard : List AnyReply) → Pauses self.old acts.now heard → Plays self.new acts.now heard)) }
        ensures ready { IfOk result (λ more. OnTrue more (is_ready self.new.session ≡ true)) }
        ensures grows { IfOk result (λ more. OnTrue more ((self.old.place < self.new.place) × (self.new.place ≤ length acts.now))) }
        ensures number { OnOk result (self.new.k ≡ self.old.k) }
    {
        match next_line(acts, &mut self.place, self.k) {
            Some(line) => self.post_line(alloc, line),
            None => Ok(false),
        }
    }

    // Posts a line; false where it asks a step.
    fn post_line(&mut self, alloc: Global, line: &[u8]) -> Result<bool, NoMemory>
        requires { is_ready self.old.session ≡ true }
        ensures { IfOk result (PostsLine self.old self.new line.now) }
    {
        let block = self.session.post(alloc, line);
        self.has_pending = matches!(block, Ok(None));
        self.keep(block?)
    }
}
