//! The passage from the thread that accepts clients' connections to the workers.

use crate::arrived::Arrived;
use crate::load::Load;
use crate::turned_away::TurnedAway;
use crossbeam_channel::{Receiver, SendTimeoutError, Sender, bounded};
use std::alloc::{AllocError, Global};
use std::rt::Clock;
use std::sync::atomic::{AtomicU64, Ordering};
use std::sync::{Mutex, Wait};
use std::time::Duration;

/// The end at which workers are told that a connection has come.
pub type Arrivals = Sender<()>;

/// The end from which workers take connections, each in its turn. A channel carries only what may be dropped, so the
/// connections lie beside it: one for each worker that was told, and the one that is offered.
pub struct Queue {
    turns: Mutex<Receiver<()>>,
    offered: Mutex<Vec<Arrived>>,
    // Whether a connection waits for a worker: `NOBODY` or `SOMEBODY`.
    waiting: AtomicU64,
    // The connections that wait behind it.
    others: AtomicU64,
    // The workers that serve a connection.
    busy: AtomicU64,
    workers: u32,
}

const NOBODY: u64 = 0;

const SOMEBODY: u64 = 1;

/// Returns the two ends. A worker is told when it waits for a connection. There is room for one connection for each of
/// this many workers, and for the one that is offered.
pub fn queue_of(alloc: Global, workers: u32) -> Result<(Arrivals, Queue), AllocError> {
    let most = (workers as usize).saturating_add(1);
    let offered = Vec::<Arrived>::with_capacity(alloc, most)?;
    match bounded::<(), Global>(alloc, 0) {
        Ok((to, from)) => Ok((
            to,
            Queue {
                turns: Mutex::new(from),
                offered: Mutex::new(offered),
                waiting: AtomicU64::new(NOBODY),
                others: AtomicU64::new(0),
                busy: AtomicU64::new(0),
                workers,
            },
        )),
        Err(_) => {
            offered.destroy_empty();
            Err(AllocError)
        }
    }
}

impl Queue {
    /// Returns the next connection, or `None` if no more come.
    pub fn next<R: Wait>(&self, rt: &R) -> Option<Arrived> {
        if self.turns.lock(rt).recv(rt).is_err() {
            return None;
        }
        self.take(rt)
    }

    // Takes the oldest connection. Another one may have been offered since a worker was told of it.
    fn take<R: Wait>(&self, rt: &R) -> Option<Arrived> {
        let mut offered = self.offered.lock(rt);
        if offered.is_empty() {
            return None;
        }
        Some(offered.remove(0))
    }

    // Takes back the newest connection, of which no worker was told.
    fn take_back<R: Wait>(&self, rt: &R) -> Option<Arrived> {
        self.offered.lock(rt).pop()
    }

    fn put<R: Wait>(&self, rt: &R, arrived: Arrived) -> Option<Arrived> {
        match self.offered.lock(rt).push(arrived) {
            Ok(()) => None,
            Err(failed) => Some(failed.value),
        }
    }

    /// Turns away what no worker took.
    pub fn close(self, turned: &TurnedAway) {
        let Queue {
            turns: _,
            offered,
            waiting: _,
            others: _,
            busy: _,
            workers: _,
        } = self;
        let mut left = offered.into_inner();
        while let Some(arrived) = left.pop() {
            arrived.turn_away(turned);
        }
        left.destroy_empty();
    }

    /// Returns whether a connection waits for a worker.
    pub fn is_crowded(&self) -> bool {
        self.waiting.load(Ordering::SeqCst) == SOMEBODY
    }

    /// Notes how many connections wait behind the one that is offered.
    pub fn note_others(&self, number: usize) {
        self.others.store(number as u64, Ordering::SeqCst);
    }

    /// Notes that a worker begins to serve a connection.
    pub fn begin_work(&self) {
        self.busy.fetch_add(1, Ordering::SeqCst);
    }

    /// Notes that a worker has served a connection.
    pub fn end_work(&self) {
        self.busy.fetch_sub(1, Ordering::SeqCst);
    }

    /// Returns what the workers have to do.
    pub fn load(&self) -> Load {
        let first = self.waiting.load(Ordering::SeqCst);
        let others = self.others.load(Ordering::SeqCst);
        Load {
            busy: self.busy.load(Ordering::SeqCst),
            workers: u64::from(self.workers),
            waiting: first.saturating_add(others),
        }
    }

    /// Offers a connection to the workers for this number of milliseconds.
    pub fn offer<R: Wait + Clock>(
        &self,
        rt: &R,
        to: &Arrivals,
        arrived: Arrived,
        milliseconds: u64,
    ) -> Offered {
        if let Some(arrived) = self.put(rt, arrived) {
            return Offered::Refused(arrived);
        }
        let told = to.send_timeout(rt, (), Duration::from_millis(milliseconds));
        if told.is_ok() {
            self.waiting.store(NOBODY, Ordering::SeqCst);
            return Offered::Taken;
        }
        self.waiting.store(SOMEBODY, Ordering::SeqCst);
        if matches!(told, Err(SendTimeoutError::Disconnected(_))) {
            return Offered::Closed;
        }
        match self.take_back(rt) {
            Some(arrived) => Offered::Refused(arrived),
            None => Offered::Taken,
        }
    }
}

/// What became of a connection that was offered to the workers.
pub enum Offered {
    /// A worker has it.
    Taken,
    /// No worker was free for the whole time.
    Refused(Arrived),
    /// There are no workers any more. It is turned away with the queue.
    Closed,
}
