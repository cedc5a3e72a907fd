//! The fill level of a server's journal, of which the supervisor is told.

use crate::audit_sink::SupervisorSink;
use crate::reserve::Reserve;
use crate::seal_at::SealAt;
use crate::supervisor::{ServerEvent, Supervisor};
use std::alloc::{AllocError, Global};
use std::sync::Wait;
use std::sync::atomic::{AtomicU64, Ordering};

/// The fill level of the open segment of a server's journal, as its threads have counted it, and the memory that is
/// kept for sealing it. A count may lag behind the journal by the changes that threads are answering.
#[derive(Drop)]
pub struct Gauge {
    // The slots of a segment.
    slots: u64,
    seal_at: SealAt,
    // The entries of all segments.
    entries: AtomicU64,
    // Those of sealed segments.
    sealed: AtomicU64,
    // The bytes of the entries of the open segment.
    bytes: AtomicU64,
    // What was reported of the open segment: `NOTHING`, `ALMOST_FULL` or `FULL`.
    reported: AtomicU64,
    // Whether an allocation failed since the last seal: `ENOUGH`, `SHORT` or `TRIED`.
    memory: AtomicU64,
    reserve: Reserve,
}

const NOTHING: u64 = 0;

const ALMOST_FULL: u64 = 1;

const FULL: u64 = 2;

/// No allocation failed.
const ENOUGH: u64 = 0;

/// An allocation failed, and a seal is due.
const SHORT: u64 = 1;

/// An allocation failed, and none since a seal was tried, which failed.
const TRIED: u64 = 2;

/// The number of tenths of a journal from which on it is almost full.
const MARK: u64 = 9;

impl Gauge {
    /// Makes a gauge with the entry of the opening.
    ///
    /// # Errors
    ///
    /// `AllocError` if an allocation failed.
    pub fn new(alloc: Global, slots: u32, seal_at: SealAt) -> Result<Gauge, AllocError> {
        Ok(Gauge {
            slots: u64::from(slots),
            seal_at,
            entries: AtomicU64::new(1),
            sealed: AtomicU64::new(0),
            bytes: AtomicU64::new(0),
            reported: AtomicU64::new(NOTHING),
            memory: AtomicU64::new(ENOUGH),
            reserve: Reserve::new(alloc)?,
        })
    }
}

/// Counts the changes that are answered, and tells the supervisor when the journal fills up.
pub struct Monitor<'a, H> {
    host: &'a H,
    gauge: &'a Gauge,
}

impl<'a, H> Drop for Monitor<'a, H> {
    fn drop(self) {
        let Monitor { host: _, gauge: _ } = self;
    }
}

impl<'a, H: Supervisor> Monitor<'a, H> {
    /// A monitor over this gauge's journal.
    pub fn new(host: &'a H, gauge: &'a Gauge) -> Monitor<'a, H> {
        Monitor { host, gauge }
    }

    /// Returns a sink for the audit records of a connection, which are passed to the supervisor.
    pub fn sink(&self) -> SupervisorSink<'a, H> {
        SupervisorSink::new(self.host)
    }

    /// Counts a change whose entry has this many bytes. That the open segment is almost full is told once until a seal.
    pub fn count(&self, bytes: u64) {
        self.gauge.bytes.fetch_add(bytes, Ordering::SeqCst);
        let before = self.gauge.entries.fetch_add(1, Ordering::SeqCst);
        let sealed = self.gauge.sealed.load(Ordering::SeqCst);
        let used = before.saturating_add(1).saturating_sub(sealed);
        let slots = self.gauge.slots;
        if used.saturating_mul(10) < slots.saturating_mul(MARK) {
            return;
        }
        let (order, failed) = (Ordering::SeqCst, Ordering::SeqCst);
        let reported = &self.gauge.reported;
        if reported
            .compare_exchange(NOTHING, ALMOST_FULL, order, failed)
            .is_ok()
        {
            self.host.tell(ServerEvent::AlmostFull { used, slots });
        }
    }

    /// Notes that a change was refused because no slot is left, which is told once until a seal.
    pub fn refuse(&self) {
        if self.gauge.reported.swap(FULL, Ordering::SeqCst) != FULL {
            self.host.tell(ServerEvent::Full);
        }
    }

    /// Notes that an allocation failed, which is told once until a seal.
    pub fn run_short(&self) {
        if self.gauge.memory.swap(SHORT, Ordering::SeqCst) == ENOUGH {
            self.host.tell(ServerEvent::MemoryShort);
        }
    }

    /// Returns whether the server is to seal the open segment by itself: it has the required number of entries or
    /// bytes, it was full before that, since slots are kept for the deaths of clients, or an allocation failed.
    pub fn is_due(&self) -> bool {
        let SealAt { entries, bytes } = self.gauge.seal_at;
        if entries.is_none() && bytes.is_none() {
            return false;
        }
        let made = self.gauge.entries.load(Ordering::SeqCst);
        let used = made.saturating_sub(self.gauge.sealed.load(Ordering::SeqCst));
        entries.is_some_and(|entries| used >= u64::from(entries))
            || bytes.is_some_and(|bytes| self.gauge.bytes.load(Ordering::SeqCst) >= bytes)
            || self.gauge.reported.load(Ordering::SeqCst) == FULL
            || self.gauge.memory.load(Ordering::SeqCst) == SHORT
    }

    /// Prepares a seal, which `keep_reserve` ends: if an allocation failed since the last one, the reserve is freed for it.
    pub fn begin_seal<R: Wait>(&self, rt: &R) {
        if self.gauge.memory.load(Ordering::SeqCst) != ENOUGH {
            self.gauge.memory.store(TRIED, Ordering::SeqCst);
            self.gauge.reserve.release(rt);
        }
    }

    /// Notes that no memory was left for a seal.
    pub fn fail_to_seal(&self) {
        if self.gauge.memory.swap(TRIED, Ordering::SeqCst) == ENOUGH {
            self.host.tell(ServerEvent::MemoryShort);
        }
    }

    /// Fills the reserve again after a seal, whether it was made or not, as far as there is memory.
    pub fn keep_reserve<R: Wait>(&self, rt: &R) {
        self.gauge.reserve.refill(rt);
    }

    /// Notes that a segment was sealed, which ends with the entry of this number.
    pub fn sealed(&self, length: u64) {
        self.gauge.sealed.store(length, Ordering::SeqCst);
        self.gauge.bytes.store(0, Ordering::SeqCst);
        self.gauge.reported.store(NOTHING, Ordering::SeqCst);
        self.gauge.memory.store(ENOUGH, Ordering::SeqCst);
    }
}
