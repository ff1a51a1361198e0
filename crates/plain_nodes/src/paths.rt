//! Paths in memory of their own.

ghost use Rattle.std.specs.Prelude.{◌≡◌, ◌++◌, IfOk, OnOk};

use std::alloc::Global;
use vfs_base::{Name, NoMemory, Path};

/// The path of these names, in memory of its own.
pub fn path_of(alloc: Global, names: &[Name]) -> Result<Path, NoMemory>
    ensures { IfOk result (λ path. path ≡ names.now) }
{
    let mut path = Path::root(alloc);
    push_names(&mut path, names)?;
    Ok(path)
}

/// The path of the names of a front and of a rest behind it.
pub fn joined_path(alloc: Global, front: &[Name], rest: &[Name]) -> Result<Path, NoMemory>
    ensures { IfOk result (λ path. path ≡ front.now ++ rest.now) }
{
    let mut path = path_of(alloc, front)?;
    push_names(&mut path, rest)?;
    Ok(path)
}

/// Puts the names at the end of the path. After an `Err` some of them may stand there.
pub fn push_names(path: &mut Path, names: &[Name]) -> Result<(), NoMemory>
    ensures { OnOk result (path.new ≡ path.old ++ names.now) }
{
    for name in names {
        path.push(name.copy()?)?;
    }
    Ok(())
}
