//! Whole pieces go to a sink, which may take them bit by bit.

ghost use Rattle.std.specs.Prelude.{OnOk, OnErr};
ghost use Rattle.std.specs.Io.KnownBytes.{Appends};
ghost use Rattle.vfs_outside.specs.Causes.{HasCause, StillTells};
ghost use Rattle.dfs_run.specs.Writing.{AppendsFront};

use vfs_outside::{Failed, Sink};

/// Writes all the bytes, in as many calls as the sink wants. Of no bytes it makes no call.
///
/// # Errors
/// `Failed` as soon as a call fails. The sink took the bytes of the calls before it.
pub fn write_all<K: Sink>(sink: &mut K, bytes: &[u8]) -> Result<(), Failed>
    ensures ok { OnOk result (Appends (K.written sink.old) (K.written sink.new) bytes.now) }
    ensures err { OnErr result (AppendsFront (K.written sink.old) (K.written sink.new) bytes.now) }
    ensures tells { StillTells (K.written sink.old) (K.written sink.new) }
    ensures cause { HasCause (K.faults sink.old) (K.faults sink.new) result }
{
    let mut done = 0;
    while done < bytes.len() {
        done += sink.write_some(&bytes[done..])?;
    }
    Ok(())
}
