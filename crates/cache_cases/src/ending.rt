//! How a call of the cache came out.

ghost use Rattle.std.specs.Prelude.{◌≡◌, IfOk, IsOk};
ghost use Rattle.cache_cases.specs.declared.ending.Ending.TheVariants.{Done};

use case_forms::CaseFault;
use page_cache::CacheFault;

/// A call did all that it was for, or stopped where a call of the device failed.
#[derive(Clone, Copy)]
pub enum Ending {
    Done,
    Fault,
}

/// What the call answered. Want of memory makes the case wrong.
pub fn ending_of(called: Result<(), CacheFault>) -> Result<Ending, CaseFault>
    ensures { IfOk result (λ ending. ending ≡ Done → IsOk called) }
{
    match called {
        Ok(()) => Ok(Ending::Done),
        Err(CacheFault::DeviceFault) => Ok(Ending::Fault),
        Err(CacheFault::NoMemory) => Err(CaseFault::NoMemory),
    }
}
