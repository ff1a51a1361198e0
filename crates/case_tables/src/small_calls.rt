//! Calls of the tables on paths, schedules, places, requests and streams.

use case_forms::{CaseFault, kind_of, path_of, push_escaped, push_text};
use deck_form::{print_schedule, read_schedule};
use fd_table::{FdTable, OpenFile, Whence};
use mapping::may_map;
use std::alloc::Global;
use std::collections::BTreeSet;
use vfs_base::{
    Bytes, FileId, Generation, HoldId, Kind, Path, RowId, SessionId, push_number, push_printed,
};
use vfs_outside::{Sink, Source, StdSink, StdSource};
use vfs_path::normalise;

fn push_words(out: &mut Bytes, text: &str) -> Result<(), CaseFault> {
    out.extend_from_slice(text.as_bytes())?;
    Ok(out.push(b'\n')?)
}

fn push_path(out: &mut Bytes, path: &Path) -> Result<(), CaseFault> {
    push_printed(out, path)?;
    Ok(out.push(b'\n')?)
}

/// `FOLDER TEXT`: the path that the text names from the folder on. `-` is the empty text.
pub fn path_text(out: &mut Bytes, alloc: Global, rest: &str) -> Result<(), CaseFault> {
    let (folder, text) = rest.split_once(" ").ok_or(CaseFault::Text)?;
    let folder = path_of(alloc, folder)?;
    let mut bytes = Bytes::new(alloc);
    if text != "-" {
        push_text(&mut bytes, text)?;
    }
    match normalise(alloc, &folder, bytes.as_slice()) {
        Ok(path) => push_path(out, &path),
        Err(fault) => push_words(out, format!(in alloc; "{fault}")?.as_str()),
    }
}

/// `PATH PATH ..`: the paths in their order.
pub fn sorted_text(out: &mut Bytes, alloc: Global, rest: &str) -> Result<(), CaseFault> {
    let mut paths = BTreeSet::new(alloc);
    for word in rest.split_whitespace() {
        paths.insert(path_of(alloc, word)?)?;
    }
    for path in paths.iter() {
        push_path(out, path)?;
    }
    Ok(())
}

/// `PATH`: a copy of it, and what is left without its last name, as one text.
pub fn upwards_text(out: &mut Bytes, alloc: Global, rest: &str) -> Result<(), CaseFault> {
    let mut place = path_of(alloc, rest)?;
    let before = place.copy()?;
    let _ = place.pop();
    out.extend_from_slice(b"from ")?;
    push_printed(out, &before)?;
    out.extend_from_slice(if place < before { b" up to " } else { b" to " })?;
    push_path(out, &place)
}

/// The schedule's line, or its first bad entry.
pub fn entries_text(out: &mut Bytes, alloc: Global, line: &[u8]) -> Result<(), CaseFault> {
    match read_schedule(alloc, line) {
        Ok(entries) => {
            let text = print_schedule(alloc, entries.as_slice())?;
            Ok(out.extend_from_slice(text.as_slice())?)
        }
        Err(fault) => push_words(out, format!(in alloc; "{fault}")?.as_str()),
    }
}

/// `PLACE OFF set|cur`, `PLACE OFF end SIZE`: where a seek from the place ends.
pub fn seek_text(out: &mut Bytes, alloc: Global, rest: &str) -> Result<(), CaseFault> {
    let words: Vec<&str> = rest.split_whitespace().collect(alloc)?;
    match *words.as_slice() {
        [place, off, "set"] => push_seek(out, alloc, place, off, Whence::Set),
        [place, off, "cur"] => push_seek(out, alloc, place, off, Whence::Cur),
        [place, off, "end", size] => {
            let size = size.parse()?;
            push_seek(out, alloc, place, off, Whence::End { size })
        }
        _ => Err(CaseFault::Call),
    }
}

fn push_seek(
    out: &mut Bytes,
    alloc: Global,
    place: &str,
    off: &str,
    whence: Whence,
) -> Result<(), CaseFault> {
    let file = file_at(place.parse()?)?;
    let off: i64 = off.parse()?;
    let mut table = FdTable::new(alloc)?;
    let Ok(fd) = table.add(file) else {
        return Err(CaseFault::Call);
    };
    match table.seek(fd, off, whence) {
        Ok(place) => {
            push_number(out, place)?;
            Ok(out.push(b'\n')?)
        }
        Err(fault) => push_words(out, format!(in alloc; "{fault:?}")?.as_str()),
    }
}

fn file_at(place: u64) -> Result<OpenFile, CaseFault> {
    Ok(OpenFile {
        hold: HoldId {
            session: SessionId::FIRST,
            number: 1,
        },
        file: FileId {
            row: RowId::new(1).ok_or(CaseFault::Number)?,
            generation: Generation::FIRST,
        },
        kind: Kind::Tmp,
        reads: true,
        writes: true,
        appends: false,
        place,
    })
}

/// `KIND r|w|rw OFF LEN r|rw`: whether a file of this kind, open so, may be mapped so.
pub fn map_text(out: &mut Bytes, alloc: Global, rest: &str) -> Result<(), CaseFault> {
    let words: Vec<&str> = rest.split_whitespace().collect(alloc)?;
    let [kind, access, off, len, wanted] = *words.as_slice() else {
        return Err(CaseFault::Call);
    };
    let kind = kind_of(kind)?;
    let (off, len) = (off.parse()?, len.parse()?);
    match may_map(kind, access != "w", access != "r", off, len, wanted == "rw") {
        Ok(()) => push_words(out, "may be mapped"),
        Err(fault) => push_words(out, format!(in alloc; "{fault:?}")?.as_str()),
    }
}

/// The bytes through a source and a sink over streams of std, of which the sink's has room for two.
pub fn streams_text(out: &mut Bytes, alloc: Global, rest: &str) -> Result<(), CaseFault> {
    push_source(out, alloc, rest.as_bytes())?;
    push_sink(out, alloc, rest.as_bytes())
}

fn push_source(out: &mut Bytes, alloc: Global, bytes: &[u8]) -> Result<(), CaseFault> {
    let mut source = StdSource::new(bytes);
    let mut buffer = [0; 2];
    let answer = source.read_some(&mut buffer);
    let faults = source.faults();
    push_words(
        out,
        format!(in alloc; "read {answer:?}, {faults} faults")?.as_str(),
    )?;
    push_escaped(out, buffer.as_slice())?;
    Ok(out.push(b'\n')?)
}

fn push_sink(out: &mut Bytes, alloc: Global, bytes: &[u8]) -> Result<(), CaseFault> {
    let mut room = [0; 2];
    let mut sink = StdSink::new(room.as_mut_slice());
    let first = sink.write_some(bytes);
    let second = sink.write_some(bytes);
    let faults = sink.faults();
    push_words(
        out,
        format!(in alloc; "wrote {first:?} and then {second:?}, {faults} faults")?.as_str(),
    )
}
