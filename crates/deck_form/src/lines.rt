//! The lines of a script, one after the other.

ghost use Rattle.std.specs.Prelude.{◌≡◌, ◌<◌, ◌≤◌, [], ◌∷◌, length, take, drop, IfOk, IfErr, IfNone, IfSome, OnErr};
ghost use Rattle.vfs_model.specs.Script.{is_bad_line as is_bad, line_text, raw_lines};

use crate::deck::DeckFault;
use memchr::memchr;
use std::marker::Model;
use vfs_base::{DECK_MAX, LINE_MAX};

/// The lines that are left of a script.
#[derive(Drop)]
pub(crate) struct Lines<'a> {
    number: u64,
    size: u64,
    rest: &'a [u8],
}

impl<'a> Model for Lines<'a> {
    ghost use Rattle.std.specs.Prelude.{◌≤◌};
    ghost use Rattle.deck_form.specs.Lines.{LinesState};

    ghost Value = { LinesState };

    ghost view = { λ lines. record {
      number = lines.number;
      size = lines.size;
      rest = lines.rest.now;
    } };

    ghost invariant = { λ lines. (lines.number ≤ lines.size) × (lines.size ≤ 16777216) };
}

impl<'a> Lines<'a> {
    ghost use Rattle.deck_form.specs.Lines.{IsNextLine, StopsAtLine};

    /// All lines of the bytes.
    pub(crate) fn new(bytes: &'a [u8]) -> Lines<'a>
        ensures { result ≡ record { number = 0; size = 0; rest = bytes.now } }
    {
        Lines {
            number: 0,
            size: 0,
            rest: bytes,
        }
    }

    /// How many lines were given.
    pub(crate) fn number(&self) -> u64
        ensures value { result ≡ self.now.number }
        ensures small { result ≤ 16777216 }
    {
        self.number
    }

    /// The bytes of the lines that are left.
    pub(crate) fn rest(&self) -> &'a [u8]
        ensures { result.now ≡ self.now.rest }
    {
        self.rest
    }

    /// The next line as it stands, with the line feed that ends it, or `None` where no byte is left.
    ///
    /// # Errors
    /// `Line` with its number where it is longer than 1024 bytes or has the byte after the greatest
    /// size of a script.
    pub(crate) fn next_line(&mut self) -> Result<Option<&'a [u8]>, DeckFault>
        ensures line { IfOk result (λ line. IfSome line
            (λ raw. IsNextLine self.old self.new raw.now)) }
        ensures end { IfOk result (λ line. IfNone line
            ((self.old.rest ≡ []) × (self.new ≡ self.old))) }
        ensures fault { IfErr result (StopsAtLine self.old) }
        ensures err { OnErr result (self.new ≡ self.old) }
    {
        if self.rest.is_empty() {
            return Ok(None);
        }
        let (raw, rest) = self.rest.split_at(first_line_len(self.rest));
        if is_bad_line(self.size, raw) {
            return Err(DeckFault::Line {
                line: self.number + 1,
            });
        }
        self.number += 1;
        self.size += raw.len() as u64;
        self.rest = rest;
        Ok(Some(raw))
    }
}

// How many bytes the first line has, with its line feed.
fn first_line_len(bytes: &[u8]) -> usize
    requires { 0 < length bytes.now }
    ensures line { raw_lines bytes.now
        ≡ take result bytes.now ∷ raw_lines (drop result bytes.now) }
    ensures some { 0 < result }
    ensures within { result ≤ length bytes.now }
{
    match memchr(b'\n', bytes) {
        Some(at) => at + 1,
        None => bytes.len(),
    }
}

/// The text of a line: without its line feed, and without a carriage return before that.
pub(crate) fn line_text(raw: &[u8]) -> &[u8]
    ensures { result.now ≡ line_text raw.now }
{
    match raw {
        [text @ .., b'\r', b'\n'] | [text @ .., b'\n'] => text,
        _ => raw,
    }
}

// Whether a line that comes after `size` bytes is too long, or has the byte after the greatest size of
// a script.
fn is_bad_line(size: u64, raw: &[u8]) -> bool
    requires { size ≤ 16777216 }
    ensures { result ≡ is_bad size raw.now }
{
    line_text(raw).len() > LINE_MAX || size + raw.len() as u64 > DECK_MAX
}
