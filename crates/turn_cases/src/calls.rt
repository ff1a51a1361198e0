//! One call of a pass on one part.

ghost use Rattle.std.specs.Prelude.{◌≡◌, ◌≤◌, []};
ghost use Rattle.turn_table.specs.Takes.{IsSamePass};
ghost use Rattle.vfs_base.specs.declared.limits.TheConstants.{ROWS};

use crate::log::{LogPass, Logs, with_turn};
use histories::{HistoryEntry, Untied};
use std::sync::Wait;
use vfs_base::{Mark, Reply, Step};

/// A call on one part. The answer is its stamp.
pub fn call<R: Wait>(rt: &R, table: &Logs, pass: &mut LogPass, part: u16) -> u64
    requires table { pass.old.0 ≡ table.now }
    requires part { part ≤ ROWS }
    requires rests { pass.old.1.held ≡ [] }
    ensures table { pass.new.0 ≡ pass.old.0 }
    ensures same { IsSamePass pass.old.1 pass.new.1 }
    ensures rests { pass.new.1.held ≡ [] }
{
    let value = table.take(rt, pass, part);
    let stamp = table.stamp::<Untied, R>(rt, pass, &Step::Home, Mark::Clear, &Reply::Done);
    let entry = HistoryEntry {
        stamp,
        pass: pass.number(),
        step: Step::Home,
        mark: Mark::Clear,
        reply: Reply::Done,
    };
    let value = with_turn(rt, value, Some(entry));
    table.put_back(pass, part, value);
    stamp
}
