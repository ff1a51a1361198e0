//! A shell beside its steps, the replies and what it shows.
//!
//! `msh />LINE` begins the command of a line, `? STEP = REPLY` is the step that it asks and the reply that it gets,
//! `own STEP ..` are the steps that give back what it has, and each other line is a line that it shows.

use case_forms::{CaseFault, push_shown, push_step, push_text, reply_of};
use msh_commands::{Command, Desk, Next};
use msh_desk::fits_reply;
use msh_words::{Words, split};
use std::alloc::Global;
use vfs_base::{Bytes, NoMemory, Reply, Step};

/// Makes the dialogue of its lines, steps and replies.
pub fn play_dialogue(alloc: Global, text: &str, made: &mut Bytes) -> Result<(), CaseFault> {
    let mut dialogue = Dialogue::new(alloc)?;
    dialogue.play(alloc, text, made)
}

// A shell, and its command at hand.
#[derive(Drop)]
struct Dialogue {
    desk: Desk,
    command: Option<Command>,
}

impl Dialogue {
    fn new(alloc: Global) -> Result<Dialogue, NoMemory> {
        Ok(Dialogue {
            desk: Desk::new(alloc)?,
            command: None,
        })
    }

    fn play(&mut self, alloc: Global, text: &str, made: &mut Bytes) -> Result<(), CaseFault> {
        for line in text.lines() {
            self.play_line(alloc, line, made)?;
        }
        Ok(())
    }

    // A line that is shown was told with the line that it is shown for.
    fn play_line(&mut self, alloc: Global, line: &str, made: &mut Bytes) -> Result<(), CaseFault> {
        if let Some(prompt) = line.strip_prefix("msh /") {
            self.begin(alloc, prompt, made)
        } else if let Some(step) = line.strip_prefix("? ") {
            self.answer(alloc, step, made)
        } else if line == "own" || line.starts_with("own ") {
            self.push_own_steps(made)
        } else {
            Ok(())
        }
    }

    // The command of a line begins behind the prompt.
    fn begin(&mut self, alloc: Global, prompt: &str, made: &mut Bytes) -> Result<(), CaseFault> {
        let (_, text) = prompt.split_once(">").ok_or(CaseFault::Text)?;
        self.push_prompt(made)?;
        push_ended(made, text)?;
        self.start(alloc, text)?;
        self.push_end(alloc, made)
    }

    fn push_prompt(&self, made: &mut Bytes) -> Result<(), NoMemory> {
        made.extend_from_slice(b"msh ")?;
        self.desk.shown.push_to(made)?;
        made.push(b'>')
    }

    fn start(&mut self, alloc: Global, text: &str) -> Result<(), CaseFault> {
        let words = words_of(alloc, text)?;
        self.command = Some(Command::start(alloc, words, &mut self.desk)?);
        Ok(())
    }

    // Where the command stands.
    fn next(&self, alloc: Global) -> Result<Next, CaseFault> {
        match &self.command {
            Some(command) => Ok(command.next(alloc)?),
            None => Err(CaseFault::Order),
        }
    }

    // The text of a command that is finished.
    fn push_end(&self, alloc: Global, made: &mut Bytes) -> Result<(), CaseFault> {
        match self.next(alloc)? {
            Next::Ask { .. } => Ok(()),
            Next::Finished { text } => Ok(push_shown(made, text.as_slice())?),
        }
    }

    // The command gets the reply to the step that it asks.
    fn answer(&mut self, alloc: Global, line: &str, made: &mut Bytes) -> Result<(), CaseFault> {
        let (_, text) = line.split_once(" =").ok_or(CaseFault::Reply)?;
        self.push_asked(alloc, made)?;
        push_ended(made, text)?;
        self.reply(alloc, text)?;
        self.push_end(alloc, made)
    }

    fn push_asked(&self, alloc: Global, made: &mut Bytes) -> Result<(), CaseFault> {
        let Next::Ask { step } = self.next(alloc)? else {
            return Err(CaseFault::Order);
        };
        Ok(push_asked_step(made, &step)?)
    }

    fn reply(&mut self, alloc: Global, text: &str) -> Result<(), CaseFault> {
        let reply = reply_of(alloc, text)?;
        self.feed(alloc, &reply)
    }

    fn feed(&mut self, alloc: Global, reply: &Reply) -> Result<(), CaseFault> {
        let Some(command) = &mut self.command else {
            return Err(CaseFault::Order);
        };
        let Next::Ask { step: _ } = command.next(alloc)? else {
            return Err(CaseFault::Order);
        };
        if !fits_reply(reply) {
            return Err(CaseFault::Reply);
        }
        Ok(command.feed(alloc, reply, &mut self.desk)?)
    }

    // The steps that give back what the command has.
    fn push_own_steps(&self, made: &mut Bytes) -> Result<(), CaseFault> {
        let Some(command) = &self.command else {
            return Err(CaseFault::Order);
        };
        made.extend_from_slice(b"own")?;
        for place in 0..4 {
            push_own(made, command.own(place))?;
        }
        Ok(made.push(b'\n')?)
    }
}

fn words_of(alloc: Global, text: &str) -> Result<Words, CaseFault> {
    let mut line = Bytes::new(alloc);
    push_text(&mut line, text)?;
    match split(alloc, line.as_slice()) {
        Ok(words) => Ok(words),
        Err(_) => Err(CaseFault::Input),
    }
}

fn push_ended(made: &mut Bytes, text: &str) -> Result<(), NoMemory> {
    made.extend_from_slice(text.as_bytes())?;
    made.push(b'\n')
}

fn push_asked_step(made: &mut Bytes, step: &Step) -> Result<(), NoMemory> {
    made.extend_from_slice(b"? ")?;
    push_step(made, step)?;
    made.extend_from_slice(b" =")
}

fn push_own(made: &mut Bytes, step: Option<Step>) -> Result<(), NoMemory> {
    let Some(step) = step else {
        return Ok(());
    };
    made.push(b' ')?;
    push_step(made, &step)
}
