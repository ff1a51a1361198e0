//! The lines of a chain of refusals in code, and why a step is not taken.

ghost use Rattle.std.specs.Prelude.{◌≡◌, false, OnOk};
ghost use Rattle.vfs_model.specs.Chain.{refuse◌when◌, refuse_by};
ghost use Rattle.vfs_model.specs.declared.refusal.Stop.TheVariants.{NoMemory as no_memory, Refusal as refusal};

use thiserror::Error;
use vfs_base::{Errno, NoMemory};

/// Why a step was not taken; then nothing has changed.
#[derive(Clone, Copy, Debug, PartialEq, Eq, Error)]
pub enum Stop {
    /// No memory for what the step makes.
    #[error("no memory")]
    NoMemory,
    /// The step is refused with this error.
    #[error("refused")]
    Refusal(Errno),
}

impl From<NoMemory> for Stop {
    ghost from_gives = { λ _ stop. stop ≡ no_memory };

    fn from(_error: NoMemory) -> Stop {
        Stop::NoMemory
    }
}

impl From<Errno> for Stop {
    ghost from_gives = { λ errno stop. stop ≡ refusal errno };

    fn from(errno: Errno) -> Stop {
        Stop::Refusal(errno)
    }
}

/// Refuses the step with the error where the test holds.
pub fn refuse_when(errno: Errno, test: bool) -> Result<(), Errno>
    ensures value { result ≡ (refuse errno when test) }
    ensures passed { OnOk result (test ≡ false) }
{
    if test {
        return Err(errno);
    }
    Ok(())
}

/// Refuses the step with the error, if there is one.
pub fn refuse_by(errno: Option<Errno>) -> Result<(), Errno>
    ensures { result ≡ refuse_by errno }
{
    match errno {
        None => Ok(()),
        Some(errno) => Err(errno),
    }
}
