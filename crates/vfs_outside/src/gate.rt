/// Where threads pass on their way, so that a caller can hold them back: the thread of session k
/// passes as `k` before it runs its line number `turn`, and a worker as 0 before it looks at its row
/// number `turn`; both numbers count from 1.
pub trait Gate: Sync {
    /// Returns once `who` may go on. Nothing else is promised.
    fn pass_point(&self, who: u8, turn: u64);
}

/// A gate that holds nobody back.
#[derive(Clone, Copy, Debug, Default, PartialEq, Eq)]
pub struct OpenGate;

impl OpenGate {
    pub fn new() -> OpenGate {
        OpenGate
    }
}

impl Gate for OpenGate {
    fn pass_point(&self, _who: u8, _turn: u64) {}
}
