//! What the last reply of a command leads to.

ghost use Rattle.std.specs.Prelude.{◌≡◌, IfOk, List};
ghost use Rattle.vfs_base.specs.declared.reply.Reply.{Reply as AnyReply};
ghost use Rattle.vfs_model.specs.FolderCommands.{done_or_fails as done_talk, is_absent as is_absent_errno};
ghost use Rattle.vfs_model.specs.Talk.{shows};

use msh_forms::subject_error_text;
use std::alloc::Global;
use vfs_base::{Bytes, Errno, NoMemory, Reply, Step, copy_bytes};
use vfs_model::Next;

/// The text behind a step that has nothing to show.
pub fn done_or_fails(
    alloc: Global,
    command: &[u8],
    subject: &[u8],
    reply: &Reply,
) -> Result<Bytes, NoMemory>
    ensures { IfOk result (λ text. shows text ≡ done_talk command.now subject.now reply.now) }
{
    match reply {
        Reply::Refused { errno } => subject_error_text(alloc, command, subject, *errno),
        _ => Ok(Bytes::new(alloc)),
    }
}

/// The file has gone.
pub fn is_absent(errno: Errno) -> bool
    ensures { result ≡ is_absent_errno errno }
{
    matches!(errno, Errno::ENOENT)
}

/// A finished command's text.
pub fn finished(alloc: Global, text: &Bytes) -> Result<Next, NoMemory>
    ensures { IfOk result (λ next. next ≡ Next.Finished text.now) }
{
    let text = copy_bytes(alloc, text.as_slice())?;
    Ok(Next::Finished { text })
}

/// A step that is asked.
pub fn ask(step: Step) -> Next
    ensures { result ≡ Next.Ask step }
{
    Next::Ask { step }
}
