//! Escapes: how a line of a case stands for any bytes.
//!
//! `\n`, `\r`, `\t`, `\0`, `\\`, `\=` and `\xff` are one byte each, and `\{1024*x}` is a byte so often. A `\` at the end
//! of a line of a block takes its line feed away.

use crate::case_fault::CaseFault;
use vfs_base::{Bytes, NoMemory};

// Where the reading of a line stands.
#[derive(Clone, Copy)]
enum Reading {
    Plain,
    Escaped,
    High,
    Low { high: u8 },
    Count { times: u32 },
    Repeated { times: u32 },
    Close,
}

/// Puts the bytes of a block's line at the end, its line feed with them.
pub fn push_line(out: &mut Bytes, line: &str) -> Result<(), CaseFault> {
    match push_read(out, line.as_bytes())? {
        Reading::Plain => Ok(out.push(b'\n')?),
        Reading::Escaped => Ok(()),
        _ => Err(CaseFault::Escape),
    }
}

/// Puts the bytes that a text of one line stands for at the end.
pub fn push_text(out: &mut Bytes, text: &str) -> Result<(), CaseFault> {
    match push_read(out, text.as_bytes())? {
        Reading::Plain => Ok(()),
        _ => Err(CaseFault::Escape),
    }
}

fn push_read(out: &mut Bytes, text: &[u8]) -> Result<Reading, CaseFault> {
    let mut reading = Reading::Plain;
    for byte in text {
        reading = read_byte(out, reading, *byte)?;
    }
    Ok(reading)
}

fn read_byte(out: &mut Bytes, reading: Reading, byte: u8) -> Result<Reading, CaseFault> {
    match reading {
        Reading::Plain if byte == b'\\' => Ok(Reading::Escaped),
        Reading::Plain => put(out, byte),
        Reading::Escaped => read_escaped(out, byte),
        Reading::High => Ok(Reading::Low {
            high: digit_of(byte)?,
        }),
        Reading::Low { high } => put(out, high.wrapping_mul(16).wrapping_add(digit_of(byte)?)),
        Reading::Count { times } => read_count(times, byte),
        Reading::Repeated { times } => repeat(out, times, byte),
        Reading::Close if byte == b'}' => Ok(Reading::Plain),
        Reading::Close => Err(CaseFault::Escape),
    }
}

fn put(out: &mut Bytes, byte: u8) -> Result<Reading, CaseFault> {
    out.push(byte)?;
    Ok(Reading::Plain)
}

fn read_escaped(out: &mut Bytes, byte: u8) -> Result<Reading, CaseFault> {
    match byte {
        b'n' => put(out, b'\n'),
        b'r' => put(out, b'\r'),
        b't' => put(out, b'\t'),
        b'0' => put(out, 0),
        b'\\' | b'=' => put(out, byte),
        b'x' => Ok(Reading::High),
        b'{' => Ok(Reading::Count { times: 0 }),
        _ => Err(CaseFault::Escape),
    }
}

fn digit_of(byte: u8) -> Result<u8, CaseFault> {
    match byte {
        b'0'..=b'9' => Ok(byte - b'0'),
        b'a'..=b'f' => Ok(byte - b'a' + 10),
        _ => Err(CaseFault::Escape),
    }
}

fn read_count(times: u32, byte: u8) -> Result<Reading, CaseFault> {
    match byte {
        b'*' => Ok(Reading::Repeated { times }),
        b'0'..=b'9' => Ok(Reading::Count {
            times: times
                .saturating_mul(10)
                .saturating_add(u32::from(byte - b'0')),
        }),
        _ => Err(CaseFault::Escape),
    }
}

fn repeat(out: &mut Bytes, times: u32, byte: u8) -> Result<Reading, CaseFault> {
    for _ in 0..times {
        out.push(byte)?;
    }
    Ok(Reading::Close)
}

/// Puts the text at the end as the lines of a block.
pub fn push_shown(out: &mut Bytes, text: &[u8]) -> Result<(), NoMemory> {
    let mut before = b'\n';
    for byte in text {
        push_shown_byte(out, before, *byte)?;
        before = *byte;
    }
    if before == b'\n' {
        return Ok(());
    }
    out.extend_from_slice(b"\\\n")
}

fn push_shown_byte(out: &mut Bytes, before: u8, byte: u8) -> Result<(), NoMemory> {
    match byte {
        b'\n' => out.push(byte),
        b'=' if before == b'\n' => out.extend_from_slice(b"\\="),
        byte => push_escape(out, byte),
    }
}

/// Puts the bytes at the end as a text of one line.
pub fn push_escaped(out: &mut Bytes, bytes: &[u8]) -> Result<(), NoMemory> {
    for byte in bytes {
        push_escape(out, *byte)?;
    }
    Ok(())
}

fn push_escape(out: &mut Bytes, byte: u8) -> Result<(), NoMemory> {
    match byte {
        b'\n' => out.extend_from_slice(b"\\n"),
        b'\r' => out.extend_from_slice(b"\\r"),
        b'\t' => out.extend_from_slice(b"\\t"),
        0 => out.extend_from_slice(b"\\0"),
        b'\\' => out.extend_from_slice(b"\\\\"),
        b' '..=b'~' => out.push(byte),
        _ => push_hex(out, byte),
    }
}

fn push_hex(out: &mut Bytes, byte: u8) -> Result<(), NoMemory> {
    out.extend_from_slice(b"\\x")?;
    out.push(hex_digit(byte / 16))?;
    out.push(hex_digit(byte % 16))
}

fn hex_digit(value: u8) -> u8 {
    match value {
        0..=9 => b'0' + value,
        10..=15 => b'a' + (value - 10),
        _ => b'?',
    }
}
