//! Standard output that may be a pipe.

use std::io::{self, ErrorKind, Write};

/// A writer that notes whether its reader is gone.
#[derive(Drop)]
pub struct Pipe<W> {
    inner: W,
    is_closed: bool,
}

impl<W> Pipe<W> {
    /// Wraps a writer.
    pub fn new(inner: W) -> Pipe<W> {
        Pipe {
            inner,
            is_closed: false,
        }
    }

    /// Returns whether a write failed since nobody reads any more.
    pub fn is_closed(&self) -> bool {
        self.is_closed
    }
}

impl<W: Write> Write for Pipe<W> {
    ghost contents = { λ p. W.contents p.inner };

    fn write(&mut self, buf: &[u8]) -> io::Result<usize> {
        let result = self.inner.write(buf);
        if let Err(error) = &result {
            self.is_closed = self.is_closed || error.kind() == ErrorKind::BrokenPipe;
        }
        result
    }

    fn flush(&mut self) -> io::Result<()> {
        self.inner.flush()
    }
}
