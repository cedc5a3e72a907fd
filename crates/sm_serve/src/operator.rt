//! What the program that runs a server hears besides the notices of connections.

use sm_account::Supervisor;

/// What a client's connection has come to.
#[derive(Clone, Copy, PartialEq, Eq)]
pub enum Milestone {
    /// Its client is connected, and has taken a client number.
    Connected,
    /// It has made nine tenths of its reads.
    AlmostAllReads,
    /// It has made all of its reads, and ends.
    AllReads,
}

/// The program that runs a server.
pub trait Operator: Supervisor {
    /// Hears of a milestone, from any thread. The client's reply waits for it, so it must not block.
    fn reach(&self, milestone: Milestone);

    /// Returns the microseconds between two calls of `beat`, or `None` if there are to be none.
    fn heartbeat(&self) -> Option<u64>;

    /// Hears from a thread of its own that the manager's lock was taken and the shared view was read since the last
    /// call. While one of them doesn't come, there is no call.
    fn beat(&self);
}
