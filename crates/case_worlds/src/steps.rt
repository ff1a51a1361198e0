//! Tables of steps under marks beside their replies, on a plain world.

ghost use Rattle.std.specs.Prelude.{◌≡◌, ◌||◌, true, is_some};
ghost use Rattle.vfs_model.specs.NamespaceStep.{is_shutdown};
ghost use Rattle.vfs_model.specs.StepForms.{MayTake};
ghost use Rattle.vfs_model.specs.World.{step_row};

use crate::outcomes::{fault_text, have_few_cells};
use crate::settings::Setting;
use case_forms::{
    CaseFault, Section, asker, case_text, push_reply, push_section, section_of, step_of,
};
use plain_steps::PlainWorld;
use std::alloc::Global;
use vfs_base::{Bytes, FileId, Generation, Mark, Reply, RowId, Step, Who, push_number};

/// Makes the case of what its steps reply.
pub fn play_tables_of_steps(alloc: Global, text: &str, made: &mut Bytes) -> Result<(), CaseFault> {
    let mut setting = Setting::new(alloc);
    play_parts(alloc, text, made, &mut setting)
}

fn play_parts(
    alloc: Global,
    text: &str,
    made: &mut Bytes,
    setting: &mut Setting,
) -> Result<(), CaseFault> {
    for part in case_text(text)?.split("\n== ") {
        play_section(alloc, section_of(part), made, setting)?;
    }
    Ok(())
}

fn play_section(
    alloc: Global,
    section: Section,
    made: &mut Bytes,
    setting: &mut Setting,
) -> Result<(), CaseFault> {
    if setting.set(alloc, section)? {
        return Ok(push_section(made, section)?);
    }
    if section.word != "steps" {
        return Err(CaseFault::Section);
    }
    made.extend_from_slice(b"== steps\n")?;
    play_steps(alloc, section.body, made, setting)
}

// The steps in a world at its start; or why there is none.
fn play_steps(
    alloc: Global,
    body: Option<&str>,
    made: &mut Bytes,
    setting: &Setting,
) -> Result<(), CaseFault> {
    let file = first_file()?;
    if !have_few_cells(setting.describe.volumes.as_slice()) {
        return Err(CaseFault::Number);
    }
    match PlainWorld::open(alloc, &setting.deck, &setting.describe) {
        Ok(world) => {
            let mut trial = Trial { world, file };
            trial.play(alloc, body, made)
        }
        Err(fault) => {
            let text = fault_text(alloc, fault)?;
            Ok(made.extend_from_slice(text.as_slice())?)
        }
    }
}

fn first_file() -> Result<FileId, CaseFault> {
    Ok(FileId {
        row: RowId::new(1).ok_or(CaseFault::Number)?,
        generation: Generation::FIRST,
    })
}

// A world, and the file that was opened last.
#[derive(Drop)]
struct Trial {
    world: PlainWorld,
    file: FileId,
}

impl Trial {
    fn play(
        &mut self,
        alloc: Global,
        body: Option<&str>,
        made: &mut Bytes,
    ) -> Result<(), CaseFault> {
        let Some(body) = body else {
            return Ok(());
        };
        for line in body.split("\n") {
            self.play_line(alloc, line, made)?;
        }
        Ok(())
    }

    // `for N in 1..9: STEP = REPLY; STEP = REPLY` stands for its steps at each number.
    fn play_line(&mut self, alloc: Global, line: &str, made: &mut Bytes) -> Result<(), CaseFault> {
        if let Some(rest) = line.strip_prefix("for N in ") {
            push_verbatim(made, line)?;
            return self.play_rounds(alloc, rest, made);
        }
        if line.is_empty() || line.starts_with("#") {
            return push_verbatim(made, line);
        }
        self.play_step(alloc, line, made)
    }

    fn play_rounds(
        &mut self,
        alloc: Global,
        rest: &str,
        made: &mut Bytes,
    ) -> Result<(), CaseFault> {
        let (range, steps) = rest.split_once(": ").ok_or(CaseFault::Step)?;
        let (first, end) = range.split_once("..").ok_or(CaseFault::Number)?;
        let first: u32 = first.parse()?;
        let end: u32 = end.parse()?;
        for number in first..end {
            self.play_round(alloc, steps, number, made)?;
        }
        Ok(())
    }

    fn play_round(
        &mut self,
        alloc: Global,
        steps: &str,
        number: u32,
        made: &mut Bytes,
    ) -> Result<(), CaseFault> {
        for step in steps.split("; ") {
            let mut line = Bytes::new(alloc);
            push_numbered(&mut line, step, number)?;
            self.play_one_round(alloc, str::from_utf8(line.as_slice())?, made)?;
        }
        Ok(())
    }

    // A line of a round is told only where its reply is another.
    fn play_one_round(
        &mut self,
        alloc: Global,
        line: &str,
        made: &mut Bytes,
    ) -> Result<(), CaseFault> {
        let mut told = Bytes::new(alloc);
        self.play_step(alloc, line, &mut told)?;
        if told.as_slice().strip_suffix(b"\n") != Some(line.as_bytes()) {
            made.extend_from_slice(told.as_slice())?;
        }
        Ok(())
    }

    fn play_step(&mut self, alloc: Global, line: &str, made: &mut Bytes) -> Result<(), CaseFault> {
        let (asked, _) = line.split_once(" = ").ok_or(CaseFault::Reply)?;
        made.extend_from_slice(asked.as_bytes())?;
        made.extend_from_slice(b" = ")?;
        self.push_answer(alloc, asked, made)?;
        Ok(made.push(b'\n')?)
    }

    fn push_answer(
        &mut self,
        alloc: Global,
        asked: &str,
        made: &mut Bytes,
    ) -> Result<(), CaseFault> {
        let words: Vec<&str> = asked.split_whitespace().collect(alloc)?;
        let (who, mark) = asker(words.as_slice())?;
        let step = step_of(alloc, self.file, words.as_slice())?;
        self.push_taken(alloc, who, &step, mark, made)
    }

    // A step that such an asker may not take tells `unasked`, and a mark that it may not have `unfit`.
    fn push_taken(
        &mut self,
        alloc: Global,
        who: Who,
        step: &Step,
        mark: Mark,
        made: &mut Bytes,
    ) -> Result<(), CaseFault> {
        if !may_take(who, step) {
            return Ok(made.extend_from_slice(b"unasked")?);
        }
        if !self.world.fits(alloc, who, step, mark)? {
            return Ok(made.extend_from_slice(b"unfit")?);
        }
        let reply = self.world.step(alloc, who, step, mark)?;
        if let Reply::Opened { file, .. } = &reply {
            self.file = *file;
        }
        Ok(push_reply(made, &reply)?)
    }
}

fn push_verbatim(made: &mut Bytes, line: &str) -> Result<(), CaseFault> {
    made.extend_from_slice(line.as_bytes())?;
    Ok(made.push(b'\n')?)
}

// The text with the number for each `{N}`, and what is left of 9999 for each `{9999-N}`.
fn push_numbered(out: &mut Bytes, text: &str, number: u32) -> Result<(), CaseFault> {
    for part in text.split("{") {
        push_part(out, part, number)?;
    }
    Ok(())
}

fn push_part(out: &mut Bytes, part: &str, number: u32) -> Result<(), CaseFault> {
    let rest = match part.split_once("}") {
        Some(("N", rest)) => {
            push_number(out, u64::from(number))?;
            rest
        }
        Some(("9999-N", rest)) => {
            push_number(out, u64::from(9999u32.saturating_sub(number)))?;
            rest
        }
        _ => part,
    };
    Ok(out.extend_from_slice(rest.as_bytes())?)
}

// Whether such an asker takes a step of this form.
fn may_take(who: Who, step: &Step) -> bool
    ensures { result ≡ true → MayTake who step.now }
{
    match who {
        Who::Session { .. } => true,
        _ => is_for_others(step),
    }
}

// A file's step, the worker's or the end's.
fn is_for_others(step: &Step) -> bool
    ensures { result ≡ (is_some (step_row step.now) || is_shutdown step.now) }
{
    match step {
        Step::Size { .. }
        | Step::Read { .. }
        | Step::Write { .. }
        | Step::Append { .. }
        | Step::Trunc { .. }
        | Step::Sync { .. }
        | Step::Load { .. }
        | Step::Store { .. }
        | Step::Flush { .. }
        | Step::Reclaim { .. }
        | Step::Shutdown => true,
        _ => false,
    }
}
