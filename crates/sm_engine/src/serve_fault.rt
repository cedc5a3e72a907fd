//! Why a server ended early.

use thiserror::Error;

/// Why a server ended early. It is defined here so that the command line, which has the words for it, doesn't depend on
/// the server.
#[derive(Clone, Copy, Debug, Error, PartialEq, Eq)]
pub enum ServeFault {
    /// A listener failed to accept a connection.
    #[error("a connection was not accepted")]
    AcceptFault,
    /// A thread couldn't be started.
    #[error("a thread was not started")]
    NoThread,
    /// An allocation failed.
    #[error("no memory")]
    Memory,
}
