//! Notices of a server to the program that runs it.

use sm_history::Record;
use std::io;

/// A notice of a server to the program that runs it.
#[derive(Clone, Copy)]
pub enum ServerEvent {
    /// All threads run, and connections are accepted from now on.
    Listening,
    /// Files or memory were short when a connection was to be accepted. It is tried again, and reported once until
    /// then.
    AcceptDelayed(io::Error),
    /// A listener failed. No more connections are accepted, and those that have begun are served for some seconds more.
    AcceptFailed(io::Error),
    /// A client's connection has waited for a worker for a second, beside at least this many others: at most one for each
    /// worker is counted. Reported once until one needn't wait.
    ClientWaits { others: usize },
    /// Nine tenths of the journal's slots are used. Reported once until a seal.
    AlmostFull { used: u64, slots: u64 },
    /// A change was refused, because the journal has no slot left. Reported once until a seal.
    Full,
    /// A request was refused or a connection has ended, because an allocation failed. Reported once until a seal.
    MemoryShort,
}

/// The program that runs a server.
pub trait Supervisor {
    /// Takes a notice, from any thread.
    fn tell(&self, notice: ServerEvent);

    /// Hears the audit records of a client's request, one or more, from any thread. The client's reply waits for it, so
    /// it must not block.
    fn audit(&self, records: &[Record]);

    /// Closes both entrances, from any thread: calls of `accept` return errors from then on, those that wait too.
    fn close_entrances(&self);
}
