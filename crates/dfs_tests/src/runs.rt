//! Whole runs of the program in memory: what goes in, and what comes out.

use crate::plainly::shown_alone;
use case_forms::{
    CaseFault, Section, block_of, case_text, push_section, push_shown, push_text, section_of,
    tell_block, tell_word,
};
use deck_form::{print_schedule, read_deck};
use dfs_run::{Report, top_alone};
use std::alloc::Global;
use std::mem;
use vfs_base::{Bytes, copy_bytes, push_number};
use vfs_outside::{Devices, MemSink, MemSource};

/// Makes the case of how its runs end and what they write.
pub fn play_runs(alloc: Global, text: &str, made: &mut Bytes) -> Result<(), CaseFault> {
    let mut run = Run::new(alloc);
    play_parts(alloc, text, made, &mut run)
}

fn play_parts(alloc: Global, text: &str, made: &mut Bytes, run: &mut Run) -> Result<(), CaseFault> {
    for part in case_text(text)?.split("\n== ") {
        run.take(alloc, section_of(part), made)?;
    }
    if run.is_played {
        return Ok(());
    }
    Err(CaseFault::Order)
}

/// A run: its words, its input in pieces and the calls that fail; and then how it ended.
#[derive(Drop)]
pub struct Run {
    words: Vec<String>,
    pieces: Vec<Bytes>,
    reads: Vec<u64>,
    writes: Vec<u64>,
    is_played: bool,
    told: Told,
}

// How a run ended, as texts.
#[derive(Drop)]
struct Told {
    status: Bytes,
    note: Bytes,
    steps: Bytes,
    schedule: Bytes,
    output: Bytes,
}

impl Told {
    fn new(alloc: Global) -> Told {
        Told {
            status: Bytes::new(alloc),
            note: Bytes::new(alloc),
            steps: Bytes::new(alloc),
            schedule: Bytes::new(alloc),
            output: Bytes::new(alloc),
        }
    }

    fn take(&mut self, alloc: Global, report: &Report, written: &[u8]) -> Result<(), CaseFault> {
        push_number(&mut self.status, u64::from(report.status))?;
        push_note(&mut self.note, alloc, report)?;
        push_number(&mut self.steps, report.schedule.len() as u64)?;
        self.schedule = print_schedule(alloc, report.schedule.as_slice())?;
        self.output = copy_bytes(alloc, written)?;
        Ok(())
    }
}

fn push_note(note: &mut Bytes, alloc: Global, report: &Report) -> Result<(), CaseFault> {
    match &report.fault {
        None => Ok(note.extend_from_slice(b"none")?),
        Some(fault) => {
            let line = format!(in alloc; "{fault}")?;
            Ok(note.extend_from_slice(line.as_bytes())?)
        }
    }
}

impl Run {
    /// A run before its words are told.
    pub fn new(alloc: Global) -> Run {
        Run {
            words: Vec::new(alloc),
            pieces: Vec::new(alloc),
            reads: Vec::new(alloc),
            writes: Vec::new(alloc),
            is_played: true,
            told: Told::new(alloc),
        }
    }

    // A section of what goes in stays as it stands, and another is what came out.
    fn take(&mut self, alloc: Global, section: Section, made: &mut Bytes) -> Result<(), CaseFault> {
        if self.set(alloc, section)? {
            return Ok(push_section(made, section)?);
        }
        if !self.is_played {
            self.play(alloc, made)?;
        }
        self.tell(alloc, section, made)
    }

    fn set(&mut self, alloc: Global, section: Section) -> Result<bool, CaseFault> {
        match section.word {
            "about" => return Ok(true),
            "words" => self.begin(alloc, section.rest)?,
            "source" => self.reads = calls_of(alloc, section.rest)?,
            "sink" => self.writes = calls_of(alloc, section.rest)?,
            "input" => self.add_input(alloc, section)?,
            "volume" | "device" => return Err(CaseFault::NoDevice),
            _ => return Ok(false),
        }
        if self.is_played {
            return Err(CaseFault::Order);
        }
        Ok(true)
    }

    // The run of these words begins; the one before it was played.
    fn begin(&mut self, alloc: Global, words: &str) -> Result<(), CaseFault> {
        if !self.is_played {
            return Err(CaseFault::Order);
        }
        *self = Run::new(alloc);
        self.is_played = false;
        for word in words.split_whitespace() {
            push_word(&mut self.words, alloc, word)?;
        }
        Ok(())
    }

    /// The run is to have this mode and this input.
    pub fn begin_with(&mut self, alloc: Global, mode: &str, input: &str) -> Result<(), CaseFault> {
        self.begin(alloc, mode)?;
        self.pieces.push(copy_bytes(alloc, input.as_bytes())?)?;
        Ok(())
    }

    // A piece of the input: the block, or the block so many times.
    fn add_input(&mut self, alloc: Global, section: Section) -> Result<(), CaseFault> {
        let times = times_of(section.rest)?;
        let block = block_of(alloc, section)?;
        let mut piece = Bytes::new(alloc);
        push_times(&mut piece, block.as_slice(), times)?;
        self.pieces.push(piece)?;
        Ok(())
    }

    /// Runs the program. A replay that ends well is played plainly under the schedule that it reports, and told where
    /// that shows something else.
    pub fn play(&mut self, alloc: Global, made: &mut Bytes) -> Result<(), CaseFault> {
        let script = self.script(alloc)?;
        self.run(alloc)?;
        self.is_played = true;
        if !self.is_good_replay() {
            return Ok(());
        }
        let plain = played_plainly(alloc, script.as_slice(), self.told.schedule.as_slice())?;
        self.tell_plain(plain.as_slice(), made)
    }

    fn tell_plain(&self, plain: &[u8], made: &mut Bytes) -> Result<(), CaseFault> {
        if plain == self.told.output.as_slice() {
            return Ok(());
        }
        made.extend_from_slice(b"the plain run shows\n")?;
        Ok(push_shown(made, plain)?)
    }

    fn run(&mut self, alloc: Global) -> Result<(), CaseFault> {
        let pieces = mem::replace(&mut self.pieces, Vec::new(alloc));
        let reads = mem::replace(&mut self.reads, Vec::new(alloc));
        let writes = mem::replace(&mut self.writes, Vec::new(alloc));
        let mut source = MemSource::new(alloc, pieces, reads);
        let mut sink = MemSink::new(alloc, writes);
        let mut devices = Devices::new(alloc);
        let words = self.words.as_slice();
        let report = top_alone(alloc, words, &mut source, &mut sink, &mut devices);
        self.told.take(alloc, &report, sink.written())
    }

    fn is_good_replay(&self) -> bool {
        self.told.status.as_slice() == b"0".as_slice()
            && self.words.iter().any(|word| word.as_str() == "replay")
    }

    // The whole input.
    fn script(&self, alloc: Global) -> Result<Bytes, CaseFault> {
        let mut script = Bytes::new(alloc);
        for piece in self.pieces.iter() {
            script.extend_from_slice(piece.as_slice())?;
        }
        Ok(script)
    }

    fn tell(&self, alloc: Global, section: Section, made: &mut Bytes) -> Result<(), CaseFault> {
        let told = &self.told;
        match section.word {
            "status" => Ok(tell_word(made, "status", told.status.as_slice())?),
            "note" => Ok(tell_word(made, "note", told.note.as_slice())?),
            "steps" => Ok(tell_word(made, "steps", told.steps.as_slice())?),
            "schedule" => {
                let line = told.schedule.as_slice();
                let line = line.strip_suffix(b"\n").unwrap_or(line);
                Ok(tell_word(made, "schedule", line)?)
            }
            "output" => tell_block(made, alloc, section, told.output.as_slice()),
            _ => Err(CaseFault::Section),
        }
    }

    /// What the run wrote, and behind it the note of one that did not end well.
    pub fn push_output(&self, made: &mut Bytes) -> Result<(), CaseFault> {
        made.extend_from_slice(self.told.output.as_slice())?;
        if self.told.status.as_slice() != b"0".as_slice() {
            made.extend_from_slice(self.told.note.as_slice())?;
        }
        Ok(())
    }
}

// A word with its escapes read; `""` is the empty word.
fn push_word(words: &mut Vec<String>, alloc: Global, word: &str) -> Result<(), CaseFault> {
    let mut bytes = Bytes::new(alloc);
    if word != "\"\"" {
        push_text(&mut bytes, word)?;
    }
    let text = str::from_utf8(bytes.as_slice())?;
    words.push(String::from_str(alloc, text)?)?;
    Ok(())
}

// The calls that fail: `fails 2 5`.
fn calls_of(alloc: Global, rest: &str) -> Result<Vec<u64>, CaseFault> {
    let Some(numbers) = rest.strip_prefix("fails ") else {
        return Err(CaseFault::Section);
    };
    let mut calls = Vec::new(alloc);
    for number in numbers.split_whitespace() {
        calls.push(number.parse()?)?;
    }
    Ok(calls)
}

fn times_of(rest: &str) -> Result<u32, CaseFault> {
    match rest.strip_suffix(" times") {
        Some(number) => Ok(number.parse()?),
        None if rest.is_empty() => Ok(1),
        None => Err(CaseFault::Section),
    }
}

fn push_times(out: &mut Bytes, block: &[u8], times: u32) -> Result<(), CaseFault> {
    for _ in 0..times {
        out.extend_from_slice(block)?;
    }
    Ok(())
}

fn played_plainly(alloc: Global, script: &[u8], schedule: &[u8]) -> Result<Bytes, CaseFault> {
    let Ok(deck) = read_deck(alloc, script) else {
        return Err(CaseFault::Input);
    };
    let Ok(entries) = deck_form::read_schedule(alloc, schedule) else {
        return Err(CaseFault::Input);
    };
    shown_alone(alloc, &deck, entries.as_slice())
}
