//! The roms of a script: the lines up to `end`, which are a manifest.

ghost use Rattle.std.specs.Prelude.{◌≡◌, ◌≤◌, length, IfOk, IfErr};
ghost use Rattle.deck_form.specs.Rom.{EndsRom, StopsInRom};

use crate::deck::DeckFault;
use crate::lines::{Lines, line_text};
use romfs::Draft;
use std::alloc::Global;
use vfs_base::{Name, RomText, copy_bytes};

/// The rom of this name, whose line was read: the lines that follow describe it, up to `end`.
///
/// # Errors
/// `Line` with the first of these lines that a manifest can't have there, or with the number behind the
/// last line where there is no `end`, and `NoMemory`.
pub(crate) fn read_rom(
    alloc: Global,
    name: Name,
    lines: &mut Lines<'_>,
) -> Result<RomText, DeckFault>
    ensures rom { IfOk result (EndsRom lines.old lines.new name) }
    ensures name { IfOk result (λ rom. rom.name ≡ name) }
    ensures shorter { length lines.new.rest ≤ length lines.old.rest }
    ensures fault { IfErr result (StopsInRom lines.old name) }
{
    let text = lines.rest();
    let mut draft = Draft::new(alloc);
    let mut size = 0;
    while let Some(raw) = lines.next_line()? {
        let line = line_text(raw);
        if line == b"end".as_slice() {
            let manifest = copy_bytes(alloc, &text[..size])?;
            return Ok(RomText { name, manifest });
        }
        if !draft.take_line(alloc, line)? {
            return Err(DeckFault::Line {
                line: lines.number(),
            });
        }
        size += raw.len();
    }
    Err(DeckFault::Line {
        line: lines.number() + 1,
    })
}
