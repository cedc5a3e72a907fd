//! Kinds of streams.

/// The peer of a stream of request lines, which decides which lines are valid.
#[derive(Clone, Copy, PartialEq, Eq)]
pub enum Kind {
    /// A process that connects as a client. Its lines have no client numbers.
    Client,
    /// An administrator, who replaces the policy and asks about it.
    Admin,
    /// A script: lines of any number of clients, each with the client's number, and of an administrator.
    Script,
}
