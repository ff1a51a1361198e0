//! What a command does next: it asks a step, or it is finished and has a block.

ghost use Rattle.std.specs.Prelude.{IfOk};
ghost use Rattle.msh_session.specs.Blocks.{Turns};

use crate::prompt::shown_block;
use msh_commands::{Command, Next};
use std::alloc::Global;
use vfs_base::{Bytes, NoMemory};

/// What a command does next.
#[derive(Drop)]
pub enum Turn {
    /// It asks a step, and its block begins with this head.
    Asks { head: Bytes },
    /// It is finished, and has this block.
    Shows { block: Bytes },
}

/// What a command does next whose block begins with this head.
pub fn turn_of(alloc: Global, head: Bytes, command: &Command) -> Result<Turn, NoMemory>
    ensures { IfOk result (λ turn. Turns head command.now turn) }
{
    match command.next(alloc)? {
        Next::Ask { step: _ } => Ok(Turn::Asks { head }),
        Next::Finished { text } => {
            let block = shown_block(head, text.as_slice())?;
            Ok(Turn::Shows { block })
        }
    }
}
