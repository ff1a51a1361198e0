//! Error lines and usage lines.

ghost use Rattle.std.specs.Prelude.{◌≡◌, IfOk, OnOk, ◌++◌, codes};
ghost use Rattle.std.specs.List.{last_or};
ghost use Rattle.vfs_model.specs.CommandText.{error_line, is_other_byte, line, subject_error_line, whole_lines, with_error};

use std::alloc::Global;
use vfs_base::{Bytes, Errno, NoMemory, copy_bytes};

// Appends `: `, the error's name and a line feed.
fn push_errno(out: &mut Bytes, errno: Errno) -> Result<(), NoMemory>
    ensures { OnOk result (out.new ≡ error_line out.old errno) }
{
    out.extend_from_slice(b": ")?;
    out.extend_from_slice(errno.name().as_bytes())?;
    out.push(b'\n')
}

/// The line of an error: the command and the error's name.
pub fn error_text(alloc: Global, command: &[u8], errno: Errno) -> Result<Bytes, NoMemory>
    ensures { IfOk result (λ text. text ≡ error_line command.now errno) }
{
    let mut text = copy_bytes(alloc, command)?;
    push_errno(&mut text, errno)?;
    Ok(text)
}

/// The line of an error: the command, what it failed at, and the error's name.
pub fn subject_error_text(
    alloc: Global,
    command: &[u8],
    subject: &[u8],
    errno: Errno,
) -> Result<Bytes, NoMemory>
    ensures { IfOk result (λ text. text ≡ subject_error_line command.now subject.now errno) }
{
    let mut text = copy_bytes(alloc, command)?;
    text.extend_from_slice(b": ")?;
    text.extend_from_slice(subject)?;
    push_errno(&mut text, errno)?;
    Ok(text)
}

// The text is not empty, and its last byte is no line feed.
fn lacks_line_feed(text: &[u8]) -> bool
    ensures { result ≡ is_other_byte (last_or None text.now) }
{
    match text.last() {
        Some(&byte) => byte != b'\n',
        None => false,
    }
}

// Ends the text with a line feed where it lacks one.
fn end_line(text: &mut Bytes) -> Result<(), NoMemory>
    ensures { OnOk result (text.new ≡ whole_lines text.old) }
{
    if lacks_line_feed(text.as_slice()) {
        text.push(b'\n')?;
    }
    Ok(())
}

/// Appends the line of an error, on a line of its own. After an `Err` a front of it may stand there.
pub fn push_subject_error(
    text: &mut Bytes,
    command: &[u8],
    subject: &[u8],
    errno: Errno,
) -> Result<(), NoMemory>
    ensures { OnOk result (text.new ≡ with_error text.old command.now subject.now errno) }
{
    end_line(text)?;
    text.extend_from_slice(command)?;
    text.extend_from_slice(b": ")?;
    text.extend_from_slice(subject)?;
    push_errno(text, errno)
}

/// What is shown where the words are not those of the form.
pub fn usage_text(alloc: Global, form: &[u8]) -> Result<Bytes, NoMemory>
    ensures { IfOk result (λ text. text ≡ line (codes "usage: " ++ form.now)) }
{
    let mut text = copy_bytes(alloc, b"usage: ")?;
    text.extend_from_slice(form)?;
    text.push(b'\n')?;
    Ok(text)
}

/// What is shown where no command has this name.
pub fn unknown_text(alloc: Global, name: &[u8]) -> Result<Bytes, NoMemory>
    ensures { IfOk result (λ text. text ≡ line (name.now ++ codes ": command not found.")) }
{
    let mut text = copy_bytes(alloc, name)?;
    text.extend_from_slice(b": command not found.\n")?;
    Ok(text)
}
