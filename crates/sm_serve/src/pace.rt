//! The time that a client's connection takes.

ghost use Rattle.std.specs.Prelude.{◌≡◌};

use crate::patience::{Limited, Patience};
use crate::queue::Queue;
use sm_values::drop_fields;
use std::cell::Cell;
use std::io::{self, ErrorKind, Read, Write};
use std::rt::Clock;
use std::time::{Duration, Instant};

/// The most bytes of a write, which the kernel keeps in one block: it limits the wait for each block alone.
const AT_ONCE: usize = 32_768;

/// The most reads of a connection. Each gives at least one byte, or is the last.
pub const READS: u32 = 16_777_216;

/// Nine tenths of them.
const ALMOST_ALL: u32 = 15_099_494;

/// Seconds until a client must be connected while other connections wait for a worker.
const HURRY: u64 = 1;

/// The most seconds between two looks at whether they do.
const LOOK: u64 = 1;

/// The time limits of a client's connection, each for several calls together: for all reads until the client is
/// connected, and for all writes between two reads, which have the replies to one piece of input.
pub struct Pace<'a, R> {
    rt: &'a R,
    patience: Patience,
    queue: &'a Queue,
    begun: Instant,
    is_connected: Cell<bool>,
    // The number of reads, and whether it was told that they are almost all.
    reads: Cell<u32>,
    is_told: Cell<bool>,
    // When the replies to the last piece began to be written.
    replying: Cell<Option<Instant>>,
}

impl<'a, R> Drop for Pace<'a, R> {
    fn drop(self) {
        drop_fields!(self: rt, patience, queue, begun, is_connected, reads, is_told, replying);
    }
}

impl<'a, R: Clock> Pace<'a, R> {
    /// Begins with a connection that has sent nothing.
    pub fn new(rt: &'a R, patience: Patience, queue: &'a Queue) -> io::Result<Pace<'a, R>> {
        Ok(Pace {
            rt,
            patience,
            queue,
            begun: Instant::now(rt)?,
            is_connected: Cell::new(false),
            reads: Cell::new(0),
            is_told: Cell::new(false),
            replying: Cell::new(None),
        })
    }

    /// Notes that the client is connected, so it may idle from now on.
    pub fn connect(&self) {
        self.is_connected.set(true);
    }

    // Counts a read.
    fn count(&self) {
        self.reads.set(self.reads.get().saturating_add(1));
    }

    /// Returns whether the reads are almost all that the connection has, which it does once.
    pub fn nears_the_last_read(&self) -> bool {
        self.reads.get() >= ALMOST_ALL && !self.is_told.replace(true)
    }

    // Returns the limit of the next read of a connection whose client isn't connected.
    fn left_to_connect(&self) -> io::Result<Duration> {
        let seconds = if self.queue.is_crowded() {
            self.patience.hello.min(HURRY)
        } else {
            self.patience.hello
        };
        let left = self.left(self.begun, seconds)?;
        let look = Duration::from_secs(LOOK);
        Ok(if look < left { look } else { left })
    }

    // Returns what is left of this number of seconds. An error if it is less than a millisecond.
    fn left(&self, begun: Instant, seconds: u64) -> io::Result<Duration> {
        let passed = begun.elapsed(self.rt)?;
        let left = Duration::from_secs(seconds).saturating_sub(passed);
        if left < Duration::from_millis(1) {
            return Err(io::Error::from(ErrorKind::TimedOut));
        }
        Ok(left)
    }
}

/// The reader of a connection, within its limits.
pub struct PacedRead<'a, R, I> {
    pace: &'a Pace<'a, R>,
    input: I,
    // Whether a read has no limit.
    is_free: bool,
}

impl<'a, R, I: Drop> Drop for PacedRead<'a, R, I> {
    fn drop(self) {
        drop_fields!(self: pace, input, is_free);
    }
}

impl<'a, R, I> PacedRead<'a, R, I> {
    /// A reader within these limits.
    pub fn new(pace: &'a Pace<'a, R>, input: I) -> PacedRead<'a, R, I>
        ensures { result.input ≡ input }
    {
        PacedRead {
            pace,
            input,
            is_free: false,
        }
    }

    /// Returns the reader without limits.
    pub fn into_inner(self) -> I
        ensures { result ≡ self.entry.input }
    {
        let PacedRead {
            pace: _,
            input,
            is_free: _,
        } = self;
        input
    }
}

impl<'a, R: Clock, I: Read + Limited> PacedRead<'a, R, I> {
    // Limits the next read until the client is connected.
    fn limit(&mut self) -> io::Result<()>
        ensures { self.new.input ≡ self.old.input }
    {
        if self.is_free {
            return Ok(());
        }
        if self.pace.is_connected.get() {
            self.is_free = true;
            // Removing a limit of an open socket can't fail.
            let _ = self.input.limit_reads(None);
            return Ok(());
        }
        let left = self.pace.left_to_connect()?;
        self.input.limit_reads(Some(left))
    }
}

impl<'a, R: Clock, I: Read + Limited> Read for PacedRead<'a, R, I> {
    ghost remaining = { λ p. I.remaining p.input };

    fn read(&mut self, buf: &mut [u8]) -> io::Result<usize> {
        let pace = self.pace;
        pace.replying.set(None);
        pace.count();
        for _ in 0..pace.patience.hello {
            self.limit()?;
            match self.input.read(buf) {
                Ok(n) => return Ok(n),
                Err(error) => {
                    if self.is_free || error.kind() != ErrorKind::WouldBlock {
                        return Err(error);
                    }
                }
            }
        }
        Err(io::Error::from(ErrorKind::TimedOut))
    }
}

/// The writer of a connection, within its limits.
pub struct PacedWrite<'a, R, O> {
    pace: &'a Pace<'a, R>,
    output: O,
    // Whether the limit of a write is what was left for a piece.
    is_short: bool,
}

impl<'a, R, O: Drop> Drop for PacedWrite<'a, R, O> {
    fn drop(self) {
        drop_fields!(self: pace, output, is_short);
    }
}

impl<'a, R, O> PacedWrite<'a, R, O> {
    /// A writer within these limits.
    pub fn new(pace: &'a Pace<'a, R>, output: O) -> PacedWrite<'a, R, O>
        ensures { result.output ≡ output }
    {
        PacedWrite {
            pace,
            output,
            is_short: false,
        }
    }

    /// Returns the writer without limits.
    pub fn into_inner(self) -> O
        ensures { result ≡ self.entry.output }
    {
        let PacedWrite {
            pace: _,
            output,
            is_short: _,
        } = self;
        output
    }
}

impl<'a, R: Clock, O: Write + Limited> Write for PacedWrite<'a, R, O> {
    ghost contents = { λ p. O.contents p.output };

    fn write(&mut self, buf: &[u8]) -> io::Result<usize> {
        let pace = self.pace;
        if let Some(begun) = pace.replying.get() {
            let left = pace.left(begun, pace.patience.reply)?;
            self.is_short = true;
            self.output.limit_writes(Some(left))?;
        } else {
            pace.replying.set(Some(Instant::now(pace.rt)?));
            if self.is_short {
                self.is_short = false;
                pace.patience.limit_replies(&self.output)?;
            }
        }
        let most = buf.len().min(AT_ONCE);
        self.output.write(&buf[..most])
    }

    fn flush(&mut self) -> io::Result<()> {
        Ok(())
    }
}
