//! Devices over a real file, and devices that are handed in, taken out and put back.
//!
//! The program plays four cases and prints one line for each: its name, and `ok` or what differs first. The last line says how many are
//! ok; the status is 1 where one is not. No contract can say what a file holds: that is only compared here. It stands on public calls
//! alone.
#![tactic(auto)]

ghost use Rattle.std.specs.Prelude.{◌≤◌};

mod files;
mod sets;
mod wrong;

use crate::files::{a_file_that_is_cut_short_is_a_fault, pages_of_a_file_come_back};
use crate::sets::{a_volume_goes_out_and_comes_back, devices_are_refused_and_go_back};
use crate::wrong::Wrong;
use std::process::ExitCode;

fn main(rt: HostRuntime) -> ExitCode {
    let pages = pages_of_a_file_come_back(&rt);
    let pages = show(&rt, "pages_of_a_file_come_back", pages);
    let cut = a_file_that_is_cut_short_is_a_fault(&rt);
    let cut = show(&rt, "a_file_that_is_cut_short_is_a_fault", cut);
    let volume = a_volume_goes_out_and_comes_back(rt.alloc());
    let volume = show(&rt, "a_volume_goes_out_and_comes_back", volume);
    let refused = devices_are_refused_and_go_back(rt.alloc());
    let refused = show(&rt, "devices_are_refused_and_go_back", refused);
    let right = pages + cut + volume + refused;
    let _ = println!(rt; "{right} of 4 cases ok");
    ExitCode::from(if right == 4 { 0 } else { 1 })
}

// Prints the line of a case. The answer is 1 where it is ok. A line that is not printed is missed by the comparison.
fn show(rt: &HostRuntime, name: &str, outcome: Result<(), Wrong>) -> u8
    ensures { result ≤ 1 }
{
    match outcome {
        Ok(()) => {
            let _ = println!(rt; "{name}: ok");
            1
        }
        Err(wrong) => {
            let _ = println!(rt; "{name}: {wrong:?}");
            0
        }
    }
}
