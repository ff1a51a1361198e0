//! Lines are read from a source, each as soon as its line feed came.

ghost use Rattle.std.specs.Prelude.{◌≡◌, ◌+◌, ◌++◌, ◌<◌, ◌≤◌, ◌↔◌, [], length, drop, true, false, IsTrue, IsFalse, IfNone, IfSome, IfOk, OnOk, IfErr, OnErr};
ghost use Rattle.std.specs.Io.KnownBytes.{Keeps, IsAtEnd};
ghost use Rattle.vfs_outside.specs.Causes.{HasCause, StillTells};
ghost use Rattle.vfs_model.specs.Script.{without_return};
ghost use Rattle.dfs_input.specs.LineReader.{is_past_form, StopsPastForm, HasNoFeed, SplitsAtFeed};

use memchr::memchr;
use std::alloc::Global;
use std::marker::Model;
use thiserror::Error;
use vfs_base::{Bytes, DECK_MAX, LINE_MAX, NoMemory};
use vfs_outside::{Failed, Source};

/// Why no line was given.
#[derive(Clone, Copy, Debug, PartialEq, Eq, Error)]
pub enum ReadStop {
    /// No memory for the line.
    #[error("no memory")]
    NoMemory,
    /// The line is longer than 1024 bytes, or has the byte after the greatest size of an input.
    #[error("the line, or the input, is too long")]
    BadLine,
    /// The source couldn't be read.
    #[error("the input couldn't be read")]
    Failed,
}

impl From<NoMemory> for ReadStop {
    ghost use Rattle.dfs_input.specs.declared.line_reader.ReadStop.TheVariants.{NoMemory as WantsMemory};

    ghost from_gives = { λ _ stop. stop ≡ WantsMemory };

    fn from(_: NoMemory) -> ReadStop {
        ReadStop::NoMemory
    }
}

impl From<Failed> for ReadStop {
    ghost use Rattle.dfs_input.specs.declared.line_reader.ReadStop.TheVariants.{Failed as SourceFailed};

    ghost from_gives = { λ _ stop. stop ≡ SourceFailed };

    fn from(_: Failed) -> ReadStop {
        ReadStop::Failed
    }
}

// As many bytes as one call of the source is asked for.
pub(crate) const CHUNK: usize = 4096;

/// Reads lines from a source. It asks the source for bytes only when it holds none that belong to
/// the next line, so a line is given as soon as its line feed was read, and it asks no more once it
/// saw the end.
///
/// A line's text is without its line feed, and without a carriage return before that. The last line
/// may have no line feed; then a carriage return at its end stays.
///
/// The lines of one input come from one source: each call of a reader is given the same.
#[derive(Debug, Drop)]
pub struct LineReader {
    buffer: [u8; CHUNK],
    start: usize,
    end: usize,
    number: u64,
    size: u64,
    at_end: bool,
}

impl Model for LineReader {
    ghost use Rattle.std.specs.Prelude.{◌≤◌, slice_range};
    ghost use Rattle.dfs_input.specs.LineReader.{ReaderState};

    ghost Value = { ReaderState };

    ghost view = { λ reader. record {
      number = reader.number;
      size = reader.size;
      buffered = slice_range reader.buffer reader.start reader.end;
      at_end = reader.at_end;
    } };

    ghost invariant = { λ reader. (reader.start ≤ reader.end) × (reader.end ≤ 4096) × (reader.number ≤ reader.size)
        × (reader.size ≤ 16777216) };
}

impl LineReader {
    ghost use Rattle.dfs_input.specs.LineReader.{ReadsLine, ReadsEnd, StopsReading, HasReadCause};
    ghost use Rattle.dfs_input.specs.LineReader.{Fills, HoldsAll, EndsLine, LastLine, StopsPastSize, StopsAtBadLine, StopsAtLastLine};

    /// A reader at the first line of an input.
    pub fn new() -> LineReader
        ensures { result ≡ record { number = 0; size = 0; buffered = []; at_end = false } }
    {
        LineReader {
            buffer: [0; CHUNK],
            start: 0,
            end: 0,
            number: 0,
            size: 0,
            at_end: false,
        }
    }

    /// How many lines were read whole.
    pub fn number(&self) -> u64
        ensures value { result ≡ self.now.number }
        ensures within { result ≤ self.now.size }
        ensures small { result ≤ 16777216 }
    {
        self.number
    }

    /// How many bytes the lines have that were read whole, with their ends.
    pub fn size(&self) -> u64
        ensures value { result ≡ self.now.size }
        ensures within { result ≤ 16777216 }
    {
        self.size
    }

    /// The text of the next line, or `None` where the input has no more.
    ///
    /// # Errors
    /// `BadLine` as soon as it is certain that the next line is longer than 1024 bytes or has the
    /// byte after the greatest size of an input, `Failed` where the source fails before the line
    /// came whole, and `NoMemory`. What came of the line is lost then, so that no more lines can be
    /// read.
    pub fn next_line<S: Source>(
        &mut self,
        alloc: Global,
        source: &mut S,
    ) -> Result<Option<Bytes>, ReadStop>
        ensures line { IfOk result (λ line. IfSome line
            (ReadsLine self.old self.new (S.left source.old) (S.left source.new))) }
        ensures end { IfOk result (λ line. IfNone line
            (ReadsEnd self.old self.new (S.left source.old))) }
        ensures stop { IfErr result
            (StopsReading self.old self.new (S.left source.old) (S.left source.new)) }
        ensures counts { OnErr result
            ((self.new.number ≡ self.old.number) × (self.new.size ≡ self.old.size)) }

        // Once the end was seen, the source is left alone.
        ensures at_end { self.old.at_end ≡ true → self.new.at_end ≡ true }
        ensures again { self.old.at_end ≡ true → source.new ≡ source.old }
        ensures sees { self.new.at_end ≡ true → self.old.at_end ≡ false
            → IsAtEnd (S.left source.new) }

        ensures tells { StillTells (S.left source.old) (S.left source.new) }
        ensures cause { HasReadCause (S.faults source.old) (S.faults source.new) result }
    {
        let mut held = Bytes::new(alloc);
        while self.fill(source)? {
            if self.take_part(&mut held)? {
                return Ok(Some(held));
            }
        }
        self.last_line(held)
    }

    // Reads where nothing is buffered, and answers whether something is.
    fn fill<S: Source>(&mut self, source: &mut S) -> Result<bool, Failed>
        ensures some { IfOk result (λ some. IsTrue some ↔ (0 < length self.new.buffered)) }
        ensures none { IfOk result (λ some. IsFalse some
            → (self.old.buffered ≡ []) × (self.new ≡ record self.old { at_end = true })) }
        ensures ok { OnOk result
            (Fills self.old self.new (S.left source.old) (S.left source.new)) }
        ensures within { self.new.size ≤ 16777216 }
        ensures err { OnErr result
            ((self.new ≡ self.old) × (self.old.buffered ≡ []) × (self.old.at_end ≡ false)) }
        ensures left { OnErr result (Keeps (S.left source.old) (S.left source.new)) }

        // Once the end was seen, the source is left alone.
        ensures at_end { self.old.at_end ≡ true → self.new.at_end ≡ true }
        ensures again { self.old.at_end ≡ true → source.new ≡ source.old }
        ensures sees { self.new.at_end ≡ true → self.old.at_end ≡ false
            → IsAtEnd (S.left source.new) }

        ensures tells { StillTells (S.left source.old) (S.left source.new) }
        ensures cause { HasCause (S.faults source.old) (S.faults source.new) result }
    {
        if self.start < self.end {
            return Ok(true);
        }
        if self.at_end {
            return Ok(false);
        }
        let count = source.read_some(&mut self.buffer)?;
        self.start = 0;
        self.end = count;
        self.at_end = count == 0;
        Ok(count > 0)
    }

    // Counts a line of that many bytes, its end among them, if the input may have as many.
    fn count_line(&mut self, length: usize) -> Result<(), ReadStop>
        requires some { 0 < length }
        requires small { length ≤ 1026 }
        ensures ok { OnOk result (self.new
            ≡ record self.old { number = self.old.number + 1; size = self.old.size + length }) }
        ensures within { self.new.size ≤ 16777216 }
        ensures stop { IfErr result (StopsPastSize (self.old.size + length)) }
        ensures err { OnErr result (self.new ≡ self.old) }
    {
        let size = self.size + length as u64;
        if size > DECK_MAX {
            return Err(ReadStop::BadLine);
        }
        self.number += 1;
        self.size = size;
        Ok(())
    }

    // The bytes that came and belong to no line yet.
    fn buffered(&self) -> &[u8]
        ensures { result.now ≡ self.now.buffered }
    {
        &self.buffer[self.start..self.end]
    }

    // Takes so many bytes from the front of the buffered ones.
    fn consume(&mut self, count: usize)
        requires { count ≤ length self.old.buffered }
        ensures { self.new ≡ record self.old { buffered = drop count self.old.buffered } }
    {
        self.start += count;
    }

    // Moves the buffered part of a line behind what is held of it, and answers whether a line feed
    // ended the line, which then is its text.
    fn take_part(&mut self, held: &mut Bytes) -> Result<bool, ReadStop>
        requires unended { HasNoFeed held.old }
        requires small { length held.old ≤ 1025 }
        ensures ended { IfOk result (λ ended. IsTrue ended
            → EndsLine self.old self.new held.old held.new) }
        ensures more { IfOk result (λ ended. IsFalse ended
            → HoldsAll self.old self.new held.old held.new) }
        ensures stop { IfErr result (StopsAtBadLine self.old.size (held.old ++ self.old.buffered)) }
        ensures counts { OnErr result
            ((self.new.number ≡ self.old.number) × (self.new.size ≡ self.old.size)) }
        ensures at_end { self.new.at_end ≡ self.old.at_end }
    {
        match first_feed(self.buffered()) {
            Some(at) => {
                hold(held, &self.buffered()[..at], self.size())?;
                self.count_line(held.len() + 1)?;
                self.consume(at + 1);
                strip_return(held);
                Ok(true)
            }
            None => {
                hold(held, self.buffered(), self.size())?;
                self.consume(self.buffered().len());
                Ok(false)
            }
        }
    }

    // Ends the input: what is held is its last line, if anything is.
    fn last_line(&mut self, held: Bytes) -> Result<Option<Bytes>, ReadStop>
        requires unended { HasNoFeed held }
        requires small { length held ≤ 1025 }
        ensures some { IfOk result (λ line. IfSome line (LastLine self.old self.new held)) }
        ensures none { IfOk result (λ line. IfNone line ((held ≡ []) × (self.new ≡ self.old))) }
        ensures stop { IfErr result (StopsAtLastLine self.old.size held) }
        ensures err { OnErr result (self.new ≡ self.old) }
    {
        if held.is_empty() {
            return Ok(None);
        }
        if held.len() > LINE_MAX {
            return Err(ReadStop::BadLine);
        }
        self.count_line(held.len())?;
        Ok(Some(held))
    }
}

// The place of the first line feed.
fn first_feed(bytes: &[u8]) -> Option<usize>
    ensures none { IfNone result (HasNoFeed bytes.now) }
    ensures some { IfSome result (SplitsAtFeed bytes.now) }
{
    memchr(b'\n', bytes)
}

// The line without a carriage return at its end.
fn without_return(line: &[u8]) -> &[u8]
    ensures { result.now ≡ without_return line.now }
{
    match line {
        [front @ .., b'\r'] => front,
        _ => line,
    }
}

// Takes a carriage return from the end.
fn strip_return(line: &mut Bytes)
    ensures { line.new ≡ without_return line.old }
{
    let len = without_return(line.as_slice()).len();
    line.truncate(len);
}

// These first bytes of a line, which come after `size` bytes, put it outside the form, whatever
// follows them.
fn is_past_form(size: u64, held: &[u8]) -> bool
    requires held { length held.now ≤ 1025 }
    requires size { size ≤ 16777216 }
    ensures { result ≡ is_past_form size held.now }
{
    without_return(held).len() > LINE_MAX || size + held.len() as u64 > DECK_MAX
}

// Puts the part behind what is held of a line, if that leaves the line in the form.
fn hold(held: &mut Bytes, part: &[u8], size: u64) -> Result<(), ReadStop>
    requires held { length held.old ≤ 1025 }
    requires size { size ≤ 16777216 }
    ensures ok { OnOk result (held.new ≡ held.old ++ part.now) }
    ensures form { OnOk result (is_past_form size held.new ≡ false) }
    ensures small { OnOk result (length held.new ≤ 1025) }
    ensures stop { IfErr result (StopsPastForm size (held.old ++ part.now)) }
{
    if part.len() > LINE_MAX + 1 - held.len() {
        return Err(ReadStop::BadLine);
    }
    held.extend_from_slice(part)?;
    if is_past_form(size, held.as_slice()) {
        return Err(ReadStop::BadLine);
    }
    Ok(())
}
