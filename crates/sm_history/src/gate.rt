//! Gates, which are called at points of sessions and changes.

use crate::effect::Effect;

/// Called at points of a session and of a change, so that a test can hold it there, and a server can let a `take` wait
/// for a delivery. Lines are numbered from 1 in each session. What a gate does changes no answer.
pub trait Gate {
    /// The desk will be asked this line next.
    fn enter(&self, line: u64);

    /// The desk will make a change next.
    fn inside(&self);

    /// The answer to this line was written.
    fn leave(&self, line: u64);

    /// The desk will be asked a `take` next, and the answers to all earlier lines were written.
    fn before_take(&self) {}

    /// A change with these effects was published. The manager's lock is held.
    fn changed(&self, _effects: &[Effect]) {}
}

/// The gate of the program, which does nothing.
#[derive(Drop)]
pub struct NoGate;

impl Gate for NoGate {
    fn enter(&self, _line: u64) {}

    fn inside(&self) {}

    fn leave(&self, _line: u64) {}
}
