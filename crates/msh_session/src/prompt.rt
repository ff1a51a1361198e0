//! The block that shows a line: the prompt, the line, and the command's text.

ghost use Rattle.std.specs.Prelude.{◌≡◌, ◌++◌, IfOk, OnOk};
ghost use Rattle.std.specs.List.{last_or};
ghost use Rattle.vfs_model.specs.CommandText.{is_other_byte, whole_lines};
ghost use Rattle.vfs_model.specs.Shown.{bad_line_text};
ghost use Rattle.msh_session.specs.Blocks.{block_head as head_of};

use msh_commands::ShownFolder;
use std::alloc::Global;
use vfs_base::{Bytes, NoMemory};

/// What a block begins with: the prompt with the shown folder, and the line.
pub fn block_head(alloc: Global, shown: &ShownFolder, line: &[u8]) -> Result<Bytes, NoMemory>
    ensures { IfOk result (λ head. head ≡ head_of shown.now line.now) }
{
    let mut head = Bytes::new(alloc);
    head.extend_from_slice(b"msh ")?;
    shown.push_to(&mut head)?;
    head.push(b'>')?;
    head.extend_from_slice(line)?;
    head.push(b'\n')?;
    Ok(head)
}

// The text is not empty, and its last byte is no line feed.
fn lacks_line_feed(text: &[u8]) -> bool
    ensures { result ≡ is_other_byte (last_or None text.now) }
{
    match text.last() {
        Some(&byte) => byte != b'\n',
        None => false,
    }
}

/// The block of a finished command with this text.
pub fn shown_block(head: Bytes, text: &[u8]) -> Result<Bytes, NoMemory>
    ensures { IfOk result (λ block. block ≡ head ++ whole_lines text.now) }
{
    let mut block = head;
    block.extend_from_slice(text)?;
    if lacks_line_feed(text) {
        block.push(b'\n')?;
    }
    Ok(block)
}

/// The block of a line whose words are faulty.
pub fn bad_line_block(head: Bytes) -> Result<Bytes, NoMemory>
    ensures { IfOk result (λ block. block ≡ head ++ bad_line_text) }
{
    let mut block = head;
    block.extend_from_slice(b"msh: bad line\n")?;
    Ok(block)
}
