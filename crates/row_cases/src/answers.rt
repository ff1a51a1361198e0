//! Texts of what a row answers: the reply, its mark, and the faults of its device where they rose.

use case_forms::{push_escaped, push_reply};
use vfs_base::{Bytes, Mark, NoMemory, Reply, push_mark, push_number};

// A run of equal bytes from this length on is shown as one.
const SHORT: u64 = 8;

// So many bytes, each of them this one.
#[derive(Clone, Copy)]
struct Run {
    byte: u8,
    count: u64,
}

/// Puts the answer at the end: `done`, `got abc`, `count 3 end 3`, `EIO !0`.
pub fn push_answer(out: &mut Bytes, reply: &Reply, mark: Mark) -> Result<(), NoMemory> {
    match reply {
        Reply::Got { bytes } => push_got(out, bytes.as_slice())?,
        _ => push_reply(out, reply)?,
    }
    if mark == Mark::Clear {
        return Ok(());
    }
    out.push(b' ')?;
    push_mark(out, mark)
}

/// Puts the row's count of faults at the end, where it is another one than before: ` faults 1`.
pub fn push_faults(out: &mut Bytes, before: Option<u64>, now: Option<u64>) -> Result<(), NoMemory> {
    if now == before {
        return Ok(());
    }
    out.extend_from_slice(b" faults ")?;
    push_number(out, now.unwrap_or(0))
}

// Bytes that were read, each run of 8 equal ones or more as `\{COUNT*BYTE}`.
fn push_got(out: &mut Bytes, bytes: &[u8]) -> Result<(), NoMemory> {
    out.extend_from_slice(if bytes.is_empty() { b"got" } else { b"got " })?;
    let mut run = Run { byte: 0, count: 0 };
    for byte in bytes {
        run = push_byte(out, run, *byte)?;
    }
    push_run(out, run)
}

// The run that the byte is in. The run before it comes to the end of the text.
fn push_byte(out: &mut Bytes, run: Run, byte: u8) -> Result<Run, NoMemory> {
    if byte == run.byte {
        let count = run.count.saturating_add(1);
        return Ok(Run { byte, count });
    }
    push_run(out, run)?;
    Ok(Run { byte, count: 1 })
}

fn push_run(out: &mut Bytes, run: Run) -> Result<(), NoMemory> {
    if run.count < SHORT {
        return push_times(out, run);
    }
    out.extend_from_slice(b"\\{")?;
    push_number(out, run.count)?;
    out.push(b'*')?;
    push_escaped(out, &[run.byte])?;
    out.push(b'}')
}

fn push_times(out: &mut Bytes, run: Run) -> Result<(), NoMemory> {
    for _ in 0..run.count {
        push_escaped(out, &[run.byte])?;
    }
    Ok(())
}
