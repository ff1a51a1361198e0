/// What a session is at.
#[derive(Clone, Copy)]
pub enum Phase {
    /// Nothing is pending.
    Idle,
    /// A command asks a step.
    Asking,
    /// A command was lost for want of memory.
    Lost,
}
