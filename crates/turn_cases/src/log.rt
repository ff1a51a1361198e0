//! Values that are the turns which were taken at them.

ghost use Rattle.std.specs.Prelude.{◌≡◌, ℕ, ◌++◌, ◌∷◌, [], All, IfOk, Option, vec_len};
ghost use Rattle.turn_table.specs.Values.{IsOf, turns_of};
ghost use Rattle.vfs_base.specs.declared.limits.TheConstants.{ROWS};

use histories::{HistoryEntry, Originated, Turned, Untied};
use std::alloc::Global;
use std::sync::Wait;
use std::thread;
use turn_table::{Held, Pass, TurnTable};
use vfs_base::{NoMemory, ROWS};

/// A value that is the turns which were taken at it.
#[derive(Drop)]
pub struct Log {
    pub turns: Vec<Option<HistoryEntry>>,
}

impl Turned<Untied> for Log {
    ghost turns = { λ log. log.turns.items };

    ghost share = { λ _. record {} };
}

impl Originated<()> for Log {
    ghost origin = { λ _. tt };
}

/// A table whose values are their turns.
pub type Logs = TurnTable<Log, Log, Untied, ()>;

/// A pass of it.
pub type LogPass = Pass<Log, Log, Untied, ()>;

/// A value without a turn.
pub fn empty(alloc: Global) -> Log
    ensures { result.turns.items ≡ [] }
{
    Log {
        turns: Vec::new(alloc),
    }
}

/// The same for each row.
pub fn rows(alloc: Global) -> Result<Vec<Log>, NoMemory>
    ensures { IfOk result (λ rows. (vec_len rows ≡ ROWS) × All (λ log. log.turns.items ≡ []) rows.items) }
{
    let mut rows = Vec::with_capacity(alloc, ROWS as usize)?;
    for _row in 0..ROWS {
        rows.push(empty(alloc))?;
    }
    Ok(rows)
}

// Waits for good.
fn never<R: Wait>(rt: &R) -> ! {
    for _ in rt.forever() {
        thread::yield_now();
    }
    unreachable!()
}

// Without memory for the turn it waits for good: no value goes back without its turn.
fn noted<R: Wait>(rt: &R, mut log: Log, turn: Option<HistoryEntry>) -> Log
    ensures { result.turns.items ≡ log.turns.items ++ turn ∷ [] }
{
    if log.turns.push(turn).is_err() {
        never(rt);
    }
    log
}

/// The value with one turn more.
pub fn with_turn<R: Wait>(
    rt: &R,
    value: Held<Log, Log>,
    turn: Option<HistoryEntry>,
) -> Held<Log, Log>
    ensures turns { turns_of (λ log. log.turns.items) (λ log. log.turns.items) result ≡ turns_of (λ log. log.turns.items) (λ log. log.turns.items) value ++ turn ∷ [] }
    ensures kind { (part : ℕ) (began : Option (Unit {0})) → IsOf (λ _. tt) began part value → IsOf (λ _. tt) began part result }
{
    match value {
        Held::First { value } => Held::First {
            value: noted(rt, value, turn),
        },
        Held::Row { value } => Held::Row {
            value: noted(rt, value, turn),
        },
    }
}

/// The turns of a value.
pub fn log_of(value: &Held<Log, Log>) -> &Log {
    match value {
        Held::First { value } | Held::Row { value } => value,
    }
}
