//! Who takes a step and how it comes out, as scripts and schedules write them.

ghost use Rattle.std.specs.Prelude.{◌≡◌, ◌≤◌, length, IfOk};
ghost use Rattle.std.specs.List.{list_all, position, position_or_len};
ghost use Rattle.vfs_base.specs.declared.limits.TheConstants.{ROWS, SESSIONS};
ghost use Rattle.vfs_model.specs.DeckLine.{event_of};
ghost use Rattle.vfs_model.specs.Numeral.{is_digit as is_digit_byte, is_numeral, number_within};
ghost use Rattle.vfs_model.specs.Schedule.{begins_mark, entry_of, mark_of, most_moved, who_of};
ghost use Rattle.deck_form.specs.Line.{IsEventPushed};
ghost use Rattle.deck_form.specs.Reading.{IsEntryPushed};

use vfs_base::{Entry, List, Mark, NoMemory, RowId, SessionId, Who};

fn are_digits(text: &[u8]) -> bool
    ensures { result ≡ list_all is_digit_byte text.now }
{
    text.iter().all(|&byte| 48 <= byte && byte <= 57)
}

// Whether the text is a number in decimal without leading zeros.
fn is_numeral(text: &[u8]) -> bool
    ensures { result ≡ is_numeral text.now }
{
    match text {
        [] | [b'0', _, ..] => false,
        _ => are_digits(text),
    }
}

// The number that the text writes in decimal without leading zeros, up to 2^64 - 1.
fn read_number(text: &[u8]) -> Option<u64>
    ensures { result ≡ number_within 0 most_moved text.now }
{
    if !is_numeral(text) {
        return None;
    }
    let digits = str::from_utf8(text).ok()?;
    digits.parse().ok()
}

fn read_row(text: &[u8]) -> Option<RowId>
    ensures { result ≡ number_within 1 ROWS text.now }
{
    let number = read_number(text)?;
    RowId::new(u16::try_from(number).ok()?)
}

fn read_session(text: &[u8]) -> Option<SessionId>
    ensures { result ≡ number_within 1 SESSIONS text.now }
{
    let number = read_number(text)?;
    SessionId::new(u8::try_from(number).ok()?)
}

// Who is meant by `k`, `fR`, `rR` or `z`.
fn read_who(text: &[u8]) -> Option<Who>
    ensures { result ≡ who_of text.now }
{
    match text {
        [b'f', digits @ ..] => Some(Who::Flush {
            row: read_row(digits)?,
        }),
        [b'r', digits @ ..] => Some(Who::Reclaim {
            row: read_row(digits)?,
        }),
        [b'z'] => Some(Who::End),
        _ => Some(Who::Session {
            k: read_session(text)?,
        }),
    }
}

// Who an event of a script is a step of: `k`, `fR` or `rR`.
fn read_event(text: &[u8]) -> Option<Who>
    ensures { result ≡ event_of text.now }
{
    match read_who(text) {
        Some(Who::End) => None,
        who => who,
    }
}

// What nothing, `!n` or `mn` says of a step.
fn read_mark(text: &[u8]) -> Option<Mark>
    ensures { result ≡ mark_of text.now }
{
    match text {
        [] => Some(Mark::Clear),
        [b'!', digits @ ..] => Some(Mark::Fault {
            n: read_number(digits)?,
        }),
        [b'm', digits @ ..] => Some(Mark::NoMem {
            n: read_number(digits)?,
        }),
        _ => None,
    }
}

fn first_mark(text: &[u8]) -> Option<usize>
    ensures { result ≡ position begins_mark text.now }
{
    text.iter().position(|&byte| byte == b'!' || byte == b'm')
}

// Where the mark begins.
fn mark_place(text: &[u8]) -> usize
    ensures place { result ≡ position_or_len begins_mark text.now }
    ensures within { result ≤ length text.now }
{
    first_mark(text).unwrap_or(text.len())
}

// The entry of a schedule that the text is.
fn read_entry(text: &[u8]) -> Option<Entry>
    ensures { result ≡ entry_of text.now }
{
    let (who, mark) = text.split_at(mark_place(text));
    Some(Entry {
        who: read_who(who)?,
        mark: read_mark(mark)?,
    })
}

/// Appends the event that the text is, or nothing of an empty text. Answers `false` where it is none.
pub(crate) fn push_event(list: &mut List<Who>, text: &[u8]) -> Result<bool, NoMemory>
    ensures { IfOk result (λ pushed. IsEventPushed text.now pushed list.old list.new) }
{
    if text.is_empty() {
        return Ok(true);
    }
    let Some(asker) = read_event(text) else {
        return Ok(false);
    };
    list.push(asker)?;
    Ok(true)
}

/// Appends the entry that the text is. Answers `false` where it is none.
pub(crate) fn push_entry(entries: &mut List<Entry>, text: &[u8]) -> Result<bool, NoMemory>
    ensures { IfOk result (λ pushed. IsEntryPushed text.now pushed entries.old entries.new) }
{
    let Some(Entry { who, mark }) = read_entry(text) else {
        return Ok(false);
    };
    entries.push(Entry { who, mark })?;
    Ok(true)
}
