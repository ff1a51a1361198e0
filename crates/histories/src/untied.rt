//! The share of parts that rely on nothing of one another.

use crate::told::{NamedShares, Share};

/// A share that says nothing. It serves a table whose layer names no other.
#[derive(Clone, Copy, Debug)]
pub struct Untied;

impl Share for Untied {
    ghost use Rattle.std.specs.Prelude.{[], ⊤};

    ghost tie = { record { nothing = record {}; rows = λ _ share. share; references = λ _ _. []; replied = λ _ files. files; held_open = λ _. ⊤ } };
}

impl NamedShares<Untied> for Untied {
    ghost named = { λ _ _. record {} };
}
