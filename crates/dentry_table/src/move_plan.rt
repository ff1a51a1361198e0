//! A move that is planned.

ghost use Rattle.std.specs.Prelude.{◌≡◌, IfOk};
ghost use Rattle.dentry_table.specs.DentryTable.{AreApart};

use std::marker::Model;
use vfs_base::{Name, NoMemory, Path};

/// A move of all that is held at and below one path to another path, for which a `DentryTable` has room.
#[derive(Debug, Drop)]
pub struct MovePlan {
    from: Path,
    to: Path,
}

impl Model for MovePlan {
    ghost use Rattle.dentry_table.specs.DentryTable.{AreApart, Planned};

    ghost Value = { Planned };

    ghost view = { λ plan. record { from = plan.from; to = plan.to } };

    ghost invariant = { λ plan. AreApart plan.from plan.to };
}

impl MovePlan {
    // Copies of the paths.
    pub(crate) fn new(from: &Path, to: &Path) -> Result<MovePlan, NoMemory>
        requires { AreApart from.now to.now }
        ensures { IfOk result (λ plan. plan ≡ record { from = from.now; to = to.now }) }
    {
        let from = from.copy()?;
        let to = to.copy()?;
        Ok(MovePlan { from, to })
    }

    /// The path that is moved.
    pub fn from(&self) -> &[Name]
        ensures value { result.now ≡ self.now.from }
        ensures apart { AreApart self.now.from self.now.to }
    {
        self.from.as_names()
    }

    /// The path to which it goes.
    pub fn to(&self) -> &[Name]
        ensures { result.now ≡ self.now.to }
    {
        self.to.as_names()
    }
}
