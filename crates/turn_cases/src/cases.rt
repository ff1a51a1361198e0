//! One history a part, whichever passes and threads take it.

ghost use Rattle.std.specs.Prelude.{◌<◌};
ghost use Rattle.vfs_base.specs.declared.limits.TheConstants.{ROWS};

use crate::calls::call;
use crate::desks::{join_desks, open_desks, work_all};
use crate::entries::{entries_of, passes_of};
use crate::log::{Logs, empty, rows};
use crate::wrong::Wrong;
use std::alloc::Global;
use std::sync::Wait;
use std::thread::Threads;

/// Four threads make 5,000 calls each on these parts: each history rises, and each call is in it once, in its pass's order.
pub fn four_threads_share<R: Threads + Wait + Sync>(
    rt: &R,
    alloc: Global,
    parts: u16,
) -> Result<(), Wrong>
    requires { (0 < parts) × (parts < ROWS) }
{
    let rows = rows(alloc)?;
    let Ok((table, mut first)) = Logs::new(alloc, empty(alloc), rows) else {
        return Err(Wrong::NoMemory);
    };
    let mut desks = open_desks(alloc, &table, &mut first, parts)?;
    work_all(rt, &table, desks.as_mut_slice());
    let all = join_desks(alloc, &table, &mut first, desks)?;
    let values = table.close(first);
    let count = entries_of(alloc, values.as_slice(), all.as_slice())?;
    if count != 20_000 {
        return Err(Wrong::Entries { count });
    }
    Ok(())
}

/// Two passes call on part 0 in turn, and then the opening pass: its history has them in this order.
pub fn two_passes_share_one_history<R: Wait>(rt: &R, alloc: Global) -> Result<(), Wrong> {
    let rows = rows(alloc)?;
    let Ok((table, mut first)) = Logs::new(alloc, empty(alloc), rows) else {
        return Err(Wrong::NoMemory);
    };
    let mut one = table.split(&mut first);
    let mut two = table.split(&mut first);
    call(rt, &table, &mut one, 0);
    call(rt, &table, &mut two, 0);
    call(rt, &table, &mut one, 0);
    table.join(&mut first, one);
    table.join(&mut first, two);
    call(rt, &table, &mut first, 0);
    let values = table.close(first);
    let passes = passes_of(alloc, values.as_slice())?;
    if passes.as_slice() != [1, 2, 1, 0].as_slice() {
        return Err(Wrong::Passes);
    }
    Ok(())
}
