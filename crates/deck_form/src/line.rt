//! The lines of a script: what each of them means, alone.

ghost use Rattle.std.specs.Prelude.{◌≡◌, IfOk, option_map, filter};
ghost use Rattle.std.specs.List.{list_all, list_any, slice_split};
ghost use Rattle.vfs_base.specs.declared.deck.Act.TheVariants as act;
ghost use Rattle.vfs_model.specs.DeckLine.{deck_line, event_line, events_of, has_bytes, post_of, rom_of, session_digit};
ghost use Rattle.vfs_model.specs.Manifest.{is_space};
ghost use Rattle.deck_form.specs.Line.{meaning_of};

use crate::entry::push_event;
use std::alloc::Global;
use vfs_base::{Act, List, Name, NoMemory, SessionId, Who, copy_bytes};

/// What a line of a script means, where it stands outside a rom.
#[derive(Debug, Drop)]
pub enum DeckLine {
    /// Nothing: it is empty, of spaces alone, or begins with `#`.
    Blank,
    /// Something is asked for.
    Asks { act: Act },
    /// The lines that follow, up to `end`, describe the rom of this name.
    Opens { name: Name },
}

/// What a line of a script means by itself, without its line feed and a carriage return before that;
/// `None` where it is outside the form. That the name of a rom was used before is not looked at.
pub fn deck_line(alloc: Global, line: &[u8]) -> Result<Option<DeckLine>, NoMemory>
    ensures { IfOk result (λ found. deck_line line.now ≡ option_map meaning_of found) }
{
    match line {
        [] | [b'#', ..] => Ok(Some(DeckLine::Blank)),
        _ if are_spaces(line) => Ok(Some(DeckLine::Blank)),
        [b'@', post @ ..] => Ok(asked(read_post(alloc, post, false)?)),
        [b'!', events @ ..] => Ok(asked(read_event_line(alloc, events)?)),
        [b'r', b'o', b'm', b' ', name @ ..] => read_rom_line(alloc, name),
        _ => Ok(asked(read_post(alloc, line, true)?)),
    }
}

fn are_spaces(line: &[u8]) -> bool
    ensures { result ≡ list_all is_space line.now }
{
    line.iter().all(|&byte| byte == b' ')
}

fn has_space(name: &[u8]) -> bool
    ensures { result ≡ list_any is_space name.now }
{
    name.iter().any(|&byte| byte == b' ')
}

fn asked(act: Option<Act>) -> Option<DeckLine>
    ensures { result ≡ option_map (λ act. DeckLine.Asks act) act }
{
    act.map(|act| DeckLine::Asks { act })
}

// The number of the session that a digit names.
fn session_of(digit: u8) -> Option<SessionId>
    ensures { result ≡ session_digit digit }
{
    SessionId::new(digit.checked_sub(b'0')?)
}

// `k`, or `k` and a space and the text that is posted.
fn read_post(alloc: Global, post: &[u8], go: bool) -> Result<Option<Act>, NoMemory>
    ensures { IfOk result (λ found. found ≡ post_of go post.now) }
{
    match post {
        [digit] => post_text(alloc, *digit, &[], go),
        [digit, b' ', text @ ..] => post_text(alloc, *digit, text, go),
        _ => Ok(None),
    }
}

// The text, posted to the session that the digit names.
fn post_text(alloc: Global, digit: u8, text: &[u8], go: bool) -> Result<Option<Act>, NoMemory>
    ensures { IfOk result (λ found. found
        ≡ option_map (λ k. act.Post k text.now go) (session_digit digit)) }
{
    let Some(k) = session_of(digit) else {
        return Ok(None);
    };
    let text = copy_bytes(alloc, text)?;
    Ok(Some(Act::Post { k, text, go }))
}

// What stands behind `!`: one or more events, with one or more spaces before each and none at the end.
fn read_event_line(alloc: Global, events: &[u8]) -> Result<Option<Act>, NoMemory>
    ensures { IfOk result (λ found. found ≡ event_line events.now) }
{
    if events.first() != Some(&b' ') || events.last() == Some(&b' ') {
        return Ok(None);
    }
    match read_events(alloc, events)? {
        Some(list) => Ok(Some(Act::Events { list })),
        None => Ok(None),
    }
}

// The events between the spaces, if each of the texts there is one.
fn read_events(alloc: Global, events: &[u8]) -> Result<Option<List<Who>>, NoMemory>
    ensures { IfOk result (λ found. found
        ≡ events_of (filter has_bytes (slice_split is_space events.now))) }
{
    let mut list = List::new(alloc);
    for text in events.split(|&byte| byte == b' ') {
        if !push_event(&mut list, text)? {
            return Ok(None);
        }
    }
    Ok(Some(list))
}

// A rom is opened by its name, which has no space.
fn read_rom_line(alloc: Global, name: &[u8]) -> Result<Option<DeckLine>, NoMemory>
    ensures { IfOk result (λ found. rom_of name.now ≡ option_map meaning_of found) }
{
    if has_space(name) {
        return Ok(None);
    }
    match Name::from_bytes(copy_bytes(alloc, name)?) {
        Some(name) => Ok(Some(DeckLine::Opens { name })),
        None => Ok(None),
    }
}
