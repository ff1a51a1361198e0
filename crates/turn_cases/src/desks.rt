//! Four threads, each with a pass of its own.

ghost use Rattle.std.specs.Prelude.{◌≡◌, ◌<◌, [], true, All, IfOk, OnOk, Some, vec_len};
ghost use Rattle.turn_table.specs.Passes.{IsLast, IsSpare, Opens};
ghost use Rattle.vfs_base.specs.declared.limits.TheConstants.{ROWS};

use crate::calls::call;
use crate::log::{LogPass, Logs};
use std::alloc::Global;
use std::sync::Wait;
use std::thread::{self, Threads};
use vfs_base::NoMemory;

/// A pass in a thread, and its calls: the part and the stamp of each.
#[derive(Drop)]
pub struct Desk {
    pass: LogPass,
    parts: u16,
    calls: Vec<(u16, u64)>,
    ghost parts_there: { (0 < parts) × (parts < ROWS) },
}

/// The number of a pass, and its calls.
pub type Calls = (u32, Vec<(u16, u64)>);

// Calls on the desk's parts, one after the other. A call that is not kept is missed by the comparison.
fn work<R: Wait>(rt: &R, table: &Logs, desk: &mut Desk)
    requires { (desk.old.pass.0 ≡ table.now) × IsSpare desk.old.pass.1 }
    ensures { (desk.new.pass.0 ≡ table.now) × IsSpare desk.new.pass.1 }
{
    for round in 0..5000u16 {
        let part = 1 + round % desk.parts;
        let stamp = call(rt, table, &mut desk.pass, part);
        let _ = desk.calls.push((part, stamp));
    }
}

/// Each desk makes its calls, in a thread of its own.
pub fn work_all<R: Threads + Wait + Sync>(rt: &R, table: &Logs, desks: &mut [Desk])
    requires { All (λ desk. (desk.pass.0 ≡ table.now) × IsSpare desk.pass.1) desks.old }
    ensures { All (λ desk. (desk.pass.0 ≡ table.now) × IsSpare desk.pass.1) desks.new }
{
    thread::for_each_mut(rt, desks, 4, &|_, desk| work(rt, table, desk));
}

/// Four desks, each with a pass that is split from the opening pass.
pub fn open_desks(
    alloc: Global,
    table: &Logs,
    first: &mut LogPass,
    parts: u16,
) -> Result<Vec<Desk>, NoMemory>
    requires table { first.old.0 ≡ table.now }
    requires fresh { Opens first.old.1 (Some tt) }
    requires parts { (0 < parts) × (parts < ROWS) }
    ensures table { first.new.0 ≡ first.old.0 }
    ensures desks { IfOk result (λ desks. (vec_len desks ≡ 4) × All (λ desk. (desk.pass.0 ≡ table.now) × IsSpare desk.pass.1) desks.items) }
    ensures first { OnOk result ((first.new.1.held ≡ []) × (first.new.1.joined ≡ []) × (first.new.1.opens ≡ true) × (first.new.1.made ≡ 4)) }
{
    let mut desks = Vec::with_capacity(alloc, 4)?;
    for _desk in 0..4u32 {
        let pass = table.split(first);
        desks.push(Desk {
            pass,
            parts,
            calls: Vec::new(alloc),
        })?;
    }
    Ok(desks)
}

/// Joins the desks' passes into the opening pass.
pub fn join_desks(
    alloc: Global,
    table: &Logs,
    first: &mut LogPass,
    mut desks: Vec<Desk>,
) -> Result<Vec<Calls>, NoMemory>
    requires table { first.old.0 ≡ table.now }
    requires first { (first.old.1.held ≡ []) × (first.old.1.joined ≡ []) × (first.old.1.opens ≡ true) × (first.old.1.made ≡ vec_len desks) }
    requires desks { All (λ desk. (desk.pass.0 ≡ table.now) × IsSpare desk.pass.1) desks.items }
    ensures table { first.new.0 ≡ first.old.0 }
    ensures last { OnOk result (IsLast first.new.1 × (first.new.1.held ≡ [])) }
{
    let mut all = Vec::new(alloc);
    while let Some(desk) = desks.pop() {
        let Desk {
            pass,
            parts: _,
            calls,
        } = desk;
        let number = pass.number();
        table.join(first, pass);
        all.push((number, calls))?;
    }
    Ok(all)
}
