//! The log of a server: lines that wait for one writer.

ghost use Rattle.std.specs.Prelude.{◌≡◌, IfOk};
ghost use Rattle.std.specs.List.{flat_map};
ghost use Rattle.sm_audit.specs.AuditLines.{audit_line};
ghost use Rattle.sm_serve.specs.Lines.{bytes_of};

use crate::level::{Level, LogEntry};
use crate::log_lines::LogLines;
use crossbeam_channel::{Receiver, Sender, bounded};
use sm_audit::push_lines;
use sm_history::Record;
use sm_values::drop_fields;
use std::alloc::{AllocError, Global};
use std::sync::Wait;
use std::sync::atomic::{AtomicBool, AtomicU64, Ordering};

/// The most requests and warnings whose lines wait for the writer.
const WAITING: usize = 1024;

/// The most bytes of lines that wait for the writer.
const WAITING_BYTES: u64 = 4_194_304;

/// Where the threads of a server put lines for operators. They never wait: lines that find no room or no memory are lost,
/// and counted.
pub struct ServerLog {
    alloc: Global,
    to: Sender<Option<LogEntry>>,
    // The capacity of all lines that wait.
    waiting: AtomicU64,
    lost: AtomicU64,
    is_over: AtomicBool,
}

impl Drop for ServerLog {
    fn drop(self) {
        drop_fields!(self: alloc, to, waiting, lost, is_over);
    }
}

/// Where the writer takes the lines. `None` is the end of the log.
pub type WaitingLines = Receiver<Option<LogEntry>>;

impl ServerLog {
    /// An empty log, and the lines for its writer.
    ///
    /// # Errors
    ///
    /// `AllocError` if an allocation failed.
    pub fn new(alloc: Global) -> Result<(ServerLog, WaitingLines), AllocError> {
        let (to, from) = bounded::<Option<LogEntry>, Global>(alloc, WAITING)?;
        let log = ServerLog {
            alloc,
            to,
            waiting: AtomicU64::new(0),
            lost: AtomicU64::new(0),
            is_over: AtomicBool::new(false),
        };
        Ok((log, from))
    }

    /// Appends the lines of these records, which stay together. It never blocks.
    pub fn append_records<R: Wait>(&self, rt: &R, records: &[Record]) {
        match lines_of(self.alloc, records) {
            Ok(lines) => self.append(rt, Level::Audit, lines),
            Err(_) => self.miss(rt, records.len() as u64),
        }
    }

    /// Appends these lines of one level, which stay together. It never blocks.
    pub fn append<R: Wait>(&self, rt: &R, level: Level, lines: LogLines) {
        let count = lines.count();
        if !self.passes(rt, LogEntry { level, lines }) {
            self.miss(rt, count);
        }
    }

    // Counts lines that found no room or no memory, and wakes the writer, which tells of them.
    fn miss<R: Wait>(&self, rt: &R, lines: u64) {
        self.lose(lines);
        let level = Level::Warning;
        let lines = LogLines::Fixed(b"");
        // If it finds no room, lines wait for the writer.
        let _ = self.to.try_send(rt, Some(LogEntry { level, lines }));
    }

    // Passes these lines to the writer. Returns whether there was room.
    fn passes<R: Wait>(&self, rt: &R, entry: LogEntry) -> bool {
        let bytes = entry.lines.capacity();
        if !self.has_room(bytes) {
            return false;
        }
        let is_passed = self.to.try_send(rt, Some(entry)).is_ok();
        if !is_passed {
            self.make_room(bytes);
        }
        is_passed
    }

    // Takes room for lines of this capacity. Returns whether there is: lines of any capacity have it if none wait.
    fn has_room(&self, bytes: u64) -> bool {
        let before = self.waiting.fetch_add(bytes, Ordering::SeqCst);
        if before == 0 || before.saturating_add(bytes) <= WAITING_BYTES {
            return true;
        }
        self.make_room(bytes);
        false
    }

    /// Notes that the writer has taken lines of this capacity.
    pub fn make_room(&self, bytes: u64) {
        self.waiting.fetch_sub(bytes, Ordering::SeqCst);
    }

    /// Counts lines that were lost.
    pub fn lose(&self, lines: u64) {
        self.lost.fetch_add(lines, Ordering::SeqCst);
    }

    /// The number of lines that were lost since this was asked last.
    pub fn take_lost(&self) -> u64 {
        self.lost.swap(0, Ordering::SeqCst)
    }

    /// Tells the writer that no more lines come, once it has taken those that wait.
    pub fn end<R: Wait>(&self, rt: &R) {
        self.is_over.store(true, Ordering::SeqCst);
        // The writer has its end of the channel until it hears this.
        let _ = self.to.send(rt, None);
    }

    /// Returns whether no more lines come than those that wait.
    pub fn is_over(&self) -> bool {
        self.is_over.load(Ordering::SeqCst)
    }
}

fn lines_of(alloc: Global, records: &[Record]) -> Result<LogLines, AllocError>
    ensures { IfOk result (λ lines. bytes_of lines ≡ flat_map audit_line records.now) }
{
    let mut lines = Vec::new(alloc);
    push_lines(alloc, &mut lines, records)?;
    Ok(LogLines::Made(lines))
}
