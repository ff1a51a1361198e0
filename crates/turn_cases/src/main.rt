//! Parts that threads take in turn: one history a part, whichever passes and threads take it.
//!
//! The program plays four cases of a `TurnTable` and prints one line for each: its name, and `ok` or what differs first. The last line
//! says how many are ok; the status is 1 where one is not. What is printed does not depend on how the threads are scheduled. Nothing is
//! promised but safety: the gate compares what is printed.
#![tactic(auto)]

ghost use Rattle.std.specs.Prelude.{◌≤◌};

mod calls;
mod cases;
mod desks;
mod entries;
mod log;
mod sleep;
mod wrong;

use crate::cases::{four_threads_share, two_passes_share_one_history};
use crate::sleep::a_waiting_thread_sleeps;
use crate::wrong::Wrong;
use std::process::ExitCode;

fn main(rt: HostRuntime) -> ExitCode {
    let many = four_threads_share(&rt, rt.alloc(), 16);
    let many = show(&rt, "four_threads_share_sixteen_parts", many);
    let one = four_threads_share(&rt, rt.alloc(), 1);
    let one = show(&rt, "four_threads_share_one_part", one);
    let two = two_passes_share_one_history(&rt, rt.alloc());
    let two = show(&rt, "two_passes_share_one_history", two);
    let sleeps = a_waiting_thread_sleeps(&rt, rt.alloc());
    let sleeps = show(&rt, "a_waiting_thread_sleeps", sleeps);
    let right = many + one + two + sleeps;
    let _ = println!(rt; "{right} of 4 cases ok");
    ExitCode::from(if right == 4 { 0 } else { 1 })
}

// Prints the line of a case. The answer is 1 where it is ok. A line that is not printed is missed by the comparison.
fn show(rt: &HostRuntime, name: &str, outcome: Result<(), Wrong>) -> u8
    ensures { result ≤ 1 }
{
    match outcome {
        Ok(()) => {
            let _ = println!(rt; "{name}: ok");
            1
        }
        Err(wrong) => {
            let _ = println!(rt; "{name}: {wrong:?}");
            0
        }
    }
}
