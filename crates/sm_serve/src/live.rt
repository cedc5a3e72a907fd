//! The connections that a server serves.

use crate::arrived::{Arrived, Cutter, Guest};
use crate::turned_away::TurnedAway;
use sm_values::drop_fields;
use std::alloc::{AllocError, Global};
use std::rt::Clock;
use std::sync::atomic::{AtomicU64, Ordering};
use std::sync::{Mutex, Wait};
use std::thread;
use std::time::Duration;

/// The connections that a server's threads serve, so that another thread can shut them down.
pub struct Live {
    alloc: Global,
    open: Mutex<Open>,
    // The threads that serve connections, or are about to.
    threads: AtomicU64,
    turned_away: TurnedAway,
}

impl Drop for Live {
    fn drop(self) {
        drop_fields!(self: alloc, open, threads, turned_away);
    }
}

/// The connections that are open.
struct Open {
    is_over: bool,
    // The number of the next one.
    next: u64,
    connections: Vec<Connected>,
}

impl Drop for Open {
    fn drop(self) {
        drop_fields!(self: is_over, next, connections);
    }
}

/// A connection under a number of its own.
struct Connected {
    number: u64,
    cutter: Cutter,
}

impl Drop for Connected {
    fn drop(self) {
        drop_fields!(self: number, cutter);
    }
}

/// Microseconds between two looks at the number of threads.
const LOOK: u64 = 100_000;

impl Live {
    /// Makes an empty list.
    pub fn new(alloc: Global) -> Live {
        Live {
            alloc,
            open: Mutex::new(Open {
                is_over: false,
                next: 0,
                connections: Vec::new(alloc),
            }),
            threads: AtomicU64::new(0),
            turned_away: TurnedAway::new(),
        }
    }

    /// Returns the count of connections that were turned away.
    pub fn turned_away(&self) -> &TurnedAway {
        &self.turned_away
    }

    /// Counts a thread that is about to be started.
    pub fn begin_thread(&self) {
        self.threads.fetch_add(1, Ordering::SeqCst);
    }

    /// Counts a thread that has ended, or wasn't started.
    pub fn end_thread(&self) {
        self.threads.fetch_sub(1, Ordering::SeqCst);
    }

    /// Keeps a connection that begins, and returns it with its number. If all connections are to be shut down, so is
    /// this one.
    ///
    /// # Errors
    ///
    /// `AllocError` if an allocation failed. The connection is turned away then.
    pub fn enter<R: Wait>(&self, rt: &R, arrived: Arrived) -> Result<(u64, Guest), AllocError> {
        let (guest, cutter) = arrived.admit(self.alloc, &self.turned_away)?;
        let mut open = self.open.lock(rt);
        let number = open.next;
        if open.is_over {
            cutter.cut();
        }
        if open.connections.push(Connected { number, cutter }).is_err() {
            guest.turn_away(&self.turned_away);
            return Err(AllocError);
        }
        open.next = number.wrapping_add(1);
        Ok((number, guest))
    }

    /// Forgets the connection of this number, which has ended.
    pub fn leave<R: Wait>(&self, rt: &R, number: u64) {
        let mut open = self.open.lock(rt);
        open.connections
            .retain(|connection| connection.number != number);
    }

    /// Waits until all threads have ended, for this number of seconds at most. Then the connections that are open, and
    /// those that begin later, are shut down.
    pub fn cut_off<R: Wait + Clock>(&self, rt: &R, seconds: u64) {
        if !self.ends_within(rt, seconds.saturating_mul(1_000_000)) {
            self.shut_down(rt);
        }
    }

    /// Waits until all threads have ended, for this number of microseconds at most. Returns whether they have.
    pub fn ends_within<R: Wait + Clock>(&self, rt: &R, microseconds: u64) -> bool {
        for _ in 0..microseconds / LOOK {
            if self.has_ended() {
                return true;
            }
            thread::sleep(rt, Duration::from_micros(LOOK));
        }
        thread::sleep(rt, Duration::from_micros(microseconds % LOOK));
        self.has_ended()
    }

    fn has_ended(&self) -> bool {
        self.threads.load(Ordering::SeqCst) == 0
    }

    fn shut_down<R: Wait>(&self, rt: &R) {
        let mut open = self.open.lock(rt);
        open.is_over = true;
        for connection in open.connections.iter() {
            connection.cutter.cut();
        }
    }
}
