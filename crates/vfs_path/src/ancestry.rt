ghost use Rattle.std.specs.Prelude.{◌≡◌, ◌+◌, ◌↔◌, [], ◌∷◌, ◌++◌, IsTrue, IsNone, IfSome, length, take, nat_eq};
ghost use Rattle.std.specs.Cmp.Lexicographic.{pointwise};
ghost use Rattle.std.specs.List.{starts_with as starts_with_names};

use vfs_base::{Name, Path};

/// Whether the names of `front` are the first names of `path`: then `path` is `front` or an entry
/// somewhere below it.
pub fn starts_with(path: &Path, front: &Path) -> bool
    ensures value { result ≡ starts_with_names (pointwise nat_eq) path.now front.now }
    ensures prefix { IsTrue result ↔ (front.now ≡ take (length front.now) path.now) }
{
    path.as_names().starts_with(front.as_names())
}

/// The number of names before the last one, and the last one; `None` for `/`.
pub fn parent(path: &Path) -> Option<(usize, &Name)>
    ensures root { IsNone result ↔ (path.now ≡ []) }
    ensures before { IfSome result (λ (before, last). before + 1 ≡ length path.now) }
    ensures last { IfSome result (λ (before, last). take before path.now ++ last.now ∷ [] ≡ path.now) }
{
    let (last, before) = path.as_names().split_last()?;
    Some((before.len(), last))
}
