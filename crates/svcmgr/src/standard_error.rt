//! Standard error of a server, whose reader may be slow, or gone for good.

use libc::STDERR_FILENO;
use libc::net::{POLLOUT, poll};
use libc::types::pollfd;
use sm_serve::ServerLog;
use sm_values::drop_fields;
use std::io::{self, ErrorKind, Write};
use std::sync::Wait;

/// The most bytes of a write (`PIPE_BUF`). A pipe that takes anything takes as many without blocking.
const AT_ONCE: usize = 4096;

/// Milliseconds after which a writer that waits looks whether the log is over.
const PAUSE: i32 = 250;

/// How often a writer waits in vain once the log is over, before it gives up: for five seconds.
const PAUSES: u32 = 20;

/// A writer to standard error that waits until a write doesn't block. Once the log is over, it waits for five seconds in
/// all, and then its writes fail.
pub struct StandardError<'a, R> {
    host: &'a HostRuntime,
    rt: &'a R,
    // `None`: the log is over.
    log: Option<&'a ServerLog>,
    pauses: u32,
}

impl<'a, R> Drop for StandardError<'a, R> {
    fn drop(self) {
        drop_fields!(self: host, rt, log, pauses);
    }
}

impl<'a, R: Wait> StandardError<'a, R> {
    /// The writer of a log, or of what comes after its end.
    pub fn new(
        host: &'a HostRuntime,
        rt: &'a R,
        log: Option<&'a ServerLog>,
    ) -> StandardError<'a, R> {
        StandardError {
            host,
            rt,
            log,
            pauses: PAUSES,
        }
    }

    // Waits until a write doesn't block.
    fn wait(&mut self) -> io::Result<()> {
        for _ in self.rt.forever() {
            let pause = if self.pauses == 0 { 0 } else { PAUSE };
            if is_ready(pause) {
                return Ok(());
            }
            if self.log.is_none_or(ServerLog::is_over) {
                self.pauses = self.pauses.saturating_sub(1);
            }
            if self.pauses == 0 {
                return Err(io::Error::from(ErrorKind::TimedOut));
            }
        }
        unreachable!()
    }
}

impl<'a, R: Wait> Write for StandardError<'a, R> {
    fn write(&mut self, buf: &[u8]) -> io::Result<usize> {
        self.wait()?;
        let most = buf.len().min(AT_ONCE);
        self.host.stderr().write(&buf[..most])
    }

    fn flush(&mut self) -> io::Result<()> {
        Ok(())
    }
}

// Returns whether a write to standard error is answered at once, also by an error, after this many milliseconds at
// most.
fn is_ready(milliseconds: i32) -> bool {
    let mut asked = [pollfd {
        fd: STDERR_FILENO,
        events: POLLOUT,
        revents: 0,
    }];
    poll(&mut asked, milliseconds) != 0
}
