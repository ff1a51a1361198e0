//! The value of a part.

/// The value of a part, while a pass has it.
#[derive(Debug, Drop)]
pub enum Held<A, B> {
    /// Part 0's.
    First { value: A },
    /// That of any other part.
    Row { value: B },
}
