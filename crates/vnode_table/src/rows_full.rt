use thiserror::Error;

/// No row is free: each one is bound, or has had its last generation.
#[derive(Clone, Copy, Debug, PartialEq, Eq, Error)]
#[error("no free row")]
pub struct RowsFull;
