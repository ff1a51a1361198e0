//! What a part's value tells contracts, and what the shares of the parts say of one another.

ghost use Rattle.std.specs.Prelude.{ℕ, List};
ghost use Rattle.histories.specs.Tie.{Tie};
ghost use Rattle.histories.specs.Turns.{Turn};

/// A part's value: it tells the turns that were taken at it, and its share.
pub trait Turned<S> {
    /// The turns, first to last. A turn has the entry that was made in it, or none.
    ghost turns: { Self → List Turn };

    /// What other parts may rely on.
    ghost share: { Self → S };
}

/// A value that tells with what it began.
pub trait Originated<O> {
    ghost origin: { Self → O };
}

/// A share of a part, where part 0 is the namespace and the other parts are rows.
pub trait Share {
    /// How the shares of the parts hang together; `specs/Tie.antt` has the members.
    ghost tie: { Tie Self };
}

/// The shares that the parts which a pass holds will have after its step.
pub trait NamedShares<S> {
    /// Of the stamp that the step draws, and of the part.
    ghost named: { ℕ → ℕ → S };
}
