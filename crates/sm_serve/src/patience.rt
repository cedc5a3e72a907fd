//! Time limits of connections.

use crate::visitor::COURTESY;
use std::io;
use std::os::unix::net::UnixStream;
use std::time::Duration;

/// Time limits of connections, in seconds, each at least 1. A connection that exceeds one has ended.
#[derive(Clone, Copy, PartialEq, Eq)]
pub struct Patience {
    /// For all reads of a client's connection until its `hello` is answered by a number. Later reads have no limit.
    pub hello: u64,
    /// For a client to take the replies to what the server read at once.
    pub reply: u64,
    /// For a read of an administrator's connection, and for the administrator to take a reply.
    pub admin: u64,
    /// For all connections to end after a fault. Then they are shut down.
    pub end: u64,
}

/// Ends of connections whose calls can be limited in time.
pub trait Limited {
    /// Limits each read, or none.
    fn limit_reads(&self, most: Option<Duration>) -> io::Result<()>;

    /// Limits each write, or none.
    fn limit_writes(&self, most: Option<Duration>) -> io::Result<()>;
}

impl<'a> Limited for &'a UnixStream {
    fn limit_reads(&self, most: Option<Duration>) -> io::Result<()> {
        UnixStream::set_read_timeout(*self, most)
    }

    fn limit_writes(&self, most: Option<Duration>) -> io::Result<()> {
        UnixStream::set_write_timeout(*self, most)
    }
}

impl Patience {
    /// Limits a write to a client's connection.
    pub fn limit_replies<O: Limited>(&self, output: &O) -> io::Result<()> {
        output.limit_writes(Some(Duration::from_secs(self.reply)))
    }
}

/// Limits each write of an administrator's connection to this number of seconds, and each read to few.
pub fn limit_administrator<I: Limited, O: Limited>(
    seconds: u64,
    input: &I,
    output: &O,
) -> io::Result<()> {
    input.limit_reads(Some(Duration::from_secs(seconds.min(COURTESY))))?;
    output.limit_writes(Some(Duration::from_secs(seconds)))
}
