//! Entrances, which accept connections.

use std::io;
use std::os::unix::net::{UnixListener, UnixStream};

/// Accepts connections: a listening socket, or a test's list of connections.
pub trait Entrance {
    /// Waits for the next connection.
    fn accept(&mut self) -> io::Result<UnixStream>;

    /// Returns the next connection if it waits already.
    fn try_accept(&mut self) -> Option<UnixStream>;
}

impl Entrance for UnixListener {
    fn accept(&mut self) -> io::Result<UnixStream> {
        let (stream, _) = UnixListener::accept(self)?;
        Ok(stream)
    }

    // A failure shows at the next `accept`.
    fn try_accept(&mut self) -> Option<UnixStream> {
        self.set_nonblocking(true).ok()?;
        let accepted = UnixListener::accept(self);
        self.set_nonblocking(false).ok()?;
        let (stream, _) = accepted.ok()?;
        Some(stream)
    }
}
