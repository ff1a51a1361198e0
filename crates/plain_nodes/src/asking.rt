//! The paths that sessions ask for.

ghost use Rattle.vfs_base.specs.Path.{printed};
ghost use Rattle.vfs_model.specs.Lookup.{asked_path, or_errno};
ghost use Rattle.vfs_model.specs.NormalPath.{normal_path};
ghost use Rattle.vfs_model.specs.Gives.{Gives, is_itself};

use std::alloc::Global;
use vfs_base::{Bytes, Path, SessionId};
use vfs_model::{Namespace, Stop};
use vfs_path::{PathFault, normalise};

/// The path that a session asks for by a text, from its working directory on.
///
/// # Errors
/// `ENOENT` for no byte, `EINVAL` for a zero byte, `ENAMETOOLONG` for a name above 255 bytes or a path
/// above 1024 (POSIX.1-2017, "Pathname Resolution"). So the path has at most 1024 printed bytes.
pub fn asked_path(
    namespace: &Namespace,
    alloc: Global,
    session: SessionId,
    text: &Bytes,
) -> Result<Path, Stop>
    ensures told { Gives is_itself result (asked_path namespace.now session text.now) }
{
    let place = session.place();
    match namespace.working_directories.as_slice().get(place) {
        Some(folder) => path_from(alloc, folder, text),
        None => path_from(alloc, &Path::root(alloc), text),
    }
}

fn path_from(alloc: Global, folder: &Path, text: &Bytes) -> Result<Path, Stop>
    ensures told { Gives is_itself result (or_errno (normal_path folder.now text.now)) }
{
    match normalise(alloc, folder, text.as_slice()) {
        Ok(path) => Ok(path),
        Err(PathFault::NoMemory) => Err(Stop::NoMemory),
        Err(fault) => Err(Stop::Refusal(fault.errno())),
    }
}
