//! A thread that waits for its turn takes no processor time.

ghost use Rattle.std.specs.Prelude.{◌≡◌, [], None, Some};
ghost use Rattle.std.specs.Thread.{IsSync};
ghost use Rattle.turn_table.specs.Values.{IsOf, turns_of};
ghost use Rattle.turn_table.specs.Views.{seen_of, share_held};

use crate::calls::call;
use crate::log::{Log, LogPass, Logs, empty, rows, with_turn};
use crate::wrong::Wrong;
use std::alloc::Global;
use std::sync::Wait;
use std::thread::Threads;
use std::time::{Clock, CpuClock, Duration};
use std::{io, thread};
use turn_table::Held;

// Holds a row for a second, and puts it back with an empty turn.
fn hold<R: Wait + Clock>(rt: &R, table: &Logs, mut pass: LogPass, value: Held<Log, Log>)
    requires table { pass.0 ≡ table.now }
    requires fresh { pass.1.stamped ≡ None }
    requires kind { IsOf (λ _. tt) pass.1.origin 1 value }
    requires turns { turns_of (λ log. log.turns.items) (λ log. log.turns.items) value ≡ seen_of pass.1 1 }
    requires share { share_held pass.1 1 ≡ Some (record {}) }
{
    thread::sleep(rt, Duration::from_secs(1));
    let value = with_turn(rt, value, None);
    table.put_back(&mut pass, 1, value);
}

// A call on the row. The answer is the processor time that the thread has taken for it.
fn timed_call<R: Wait + CpuClock>(rt: &R, table: &Logs, mut pass: LogPass) -> io::Result<Duration>
    requires table { pass.0 ≡ table.now }
    requires rests { pass.1.held ≡ [] }
{
    let before = rt.thread_cpu_time()?;
    call(rt, table, &mut pass, 1);
    let after = rt.thread_cpu_time()?;
    Ok(after.saturating_sub(before))
}

// What a thread's processor time is while another holds the row for a second.
fn waiting_time<R: Threads + Wait + Clock + CpuClock + Sync>(
    rt: &R,
    table: &Logs,
    mut one: LogPass,
    two: LogPass,
) -> io::Result<Duration>
    requires tables { (one.0 ≡ table.now) × (two.0 ≡ table.now) }
    requires rests { (one.1.held ≡ []) × (two.1.held ≡ []) }
{
    let value = table.take(rt, &mut one, 1);
    let (_held, used) = thread::join(
        rt,
        move ||
            requires sync { IsSync R.row × (one.0 ≡ table.now) }
            requires kind { (one.1.stamped ≡ None) × IsOf (λ _. tt) one.1.origin 1 value }
            requires turns { turns_of (λ log. log.turns.items) (λ log. log.turns.items) value ≡ seen_of one.1 1 }
            requires share { share_held one.1 1 ≡ Some (record {}) }
        { hold(rt, table, one, value) },
        move || -> io::Result<Duration>
            requires { IsSync R.row × (two.0 ≡ table.now) × (two.1.held ≡ []) }
        { timed_call(rt, table, two) },
    );
    used
}

/// Of the second that a thread waits it takes less than 300 milliseconds of its processor.
pub fn a_waiting_thread_sleeps<R: Threads + Wait + Clock + CpuClock + Sync>(
    rt: &R,
    alloc: Global,
) -> Result<(), Wrong> {
    let rows = rows(alloc)?;
    let Ok((table, mut first)) = Logs::new(alloc, empty(alloc), rows) else {
        return Err(Wrong::NoMemory);
    };
    let one = table.split(&mut first);
    let two = table.split(&mut first);
    match waiting_time(rt, &table, one, two) {
        Ok(used) if used < Duration::from_millis(300) => Ok(()),
        Ok(_used) => Err(Wrong::Busy),
        Err(_fault) => Err(Wrong::Clock),
    }
}
