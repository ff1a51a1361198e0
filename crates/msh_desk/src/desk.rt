ghost use Rattle.std.specs.Prelude.{◌≡◌, IfOk};
ghost use Rattle.vfs_model.specs.Command.{opening_shell};
ghost use Rattle.msh_desk.specs.State.{state_of};

use crate::shown_folder::ShownFolder;
use fd_table::FdTable;
use mapping::Windows;
use std::alloc::Global;
use vfs_base::NoMemory;

/// The state of a session's shell.
#[derive(Drop)]
pub struct Desk {
    /// The open files and their descriptors.
    pub fds: FdTable,
    /// The mappings.
    pub windows: Windows,
    /// The folder in the prompt: that of the session's last At.
    pub shown: ShownFolder,
}

impl Desk {
    /// A shell at the start: no open file, no mapping, in `/`.
    pub fn new(alloc: Global) -> Result<Desk, NoMemory>
        ensures { IfOk result (λ desk. state_of desk ≡ opening_shell) }
    {
        Ok(Desk {
            fds: FdTable::new(alloc)?,
            windows: Windows::new(alloc)?,
            shown: ShownFolder::root(),
        })
    }
}
