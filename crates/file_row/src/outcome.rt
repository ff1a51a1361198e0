//! What a step answers that its row does not refuse.

ghost use Rattle.std.specs.Prelude.{◌≡◌};
ghost use Rattle.vfs_base.specs.declared.entry.Mark.TheVariants as mark;
ghost use Rattle.vfs_base.specs.declared.errno.Errno.TheVariants as errno;
ghost use Rattle.vfs_base.specs.declared.reply.Reply.TheVariants as reply;
ghost use Rattle.file_row.specs.Passed.{answer_under};

use vfs_base::{Errno, Mark, Reply};

/// The answer to a step under its mark: this one, unless it was stopped before it moved a byte.
pub fn answer(mark: Mark, moved: Reply) -> (Reply, Mark)
    ensures { result ≡ (answer_under mark moved, mark) }
{
    let errno = match mark {
        Mark::Fault { n: 0 } => Errno::EIO,
        Mark::NoMem { n: 0 } => Errno::ENOMEM,
        _ => return (moved, mark),
    };
    (Reply::Refused { errno }, mark)
}

/// The answer where memory was wanting before a byte was moved.
pub fn starved() -> (Reply, Mark)
    ensures { result ≡ (reply.Refused errno.ENOMEM, mark.NoMem 0) }
{
    (
        Reply::Refused {
            errno: Errno::ENOMEM,
        },
        Mark::NoMem { n: 0 },
    )
}
