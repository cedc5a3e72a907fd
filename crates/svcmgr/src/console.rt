//! What operators see of a server, on standard error.

use crate::journald::is_journal;
use crate::standard_error::StandardError;
use crate::systemd::{tell_systemd, watchdog_interval};
use crate::waking::{ListenerAddress, address_of, wake};
use sm_command::{Sockets, VERSION};
use sm_connection::{ServerEvent, Supervisor};
use sm_history::Record;
use sm_serve::{Level, LogForm, LogLines, Milestone, Operator, ServerLog, WaitingLines, write_log};
use sm_values::drop_fields;
use std::alloc::AllocError;
use std::io;
use std::net::Shutdown;
use std::os::fd::OwnedFd;
use std::os::unix::net::{UnixListener, UnixStream};
use std::rt::Clock;
use std::sync::Wait;
use std::sync::atomic::{AtomicU64, Ordering};

const CLIENT_WAITS: &[u8] = b"warning: a client has waited for a worker for a second\n";

const ALMOST_ALL_READS: &[u8] =
    b"warning: a connection has made nine tenths of its 16777216 reads: its client should connect again\n";

const ALL_READS: &[u8] = b"warning: a connection has ended, since it has made 16777216 reads\n";

const FEW_NUMBERS: &[u8] =
    b"warning: nine tenths of the 4294967295 client numbers are used: the server should be restarted\n";

/// Nine tenths of the client numbers.
const ALMOST_ALL_NUMBERS: u64 = 3_865_470_566;

const FULL: &[u8] = b"warning: the journal is full: changes are refused until it is sealed\n";

const MEMORY_SHORT: &[u8] = b"warning: memory is short: an allocation failed\n";

const NO_LINE: &[u8] = b"warning: no memory for a line\n";

/// The sockets of a server, and whether each was passed to it: those of clients, then those of administrators. The
/// owner's socket, if there is one, never is.
#[derive(Drop)]
pub struct Entrances {
    pub clients: UnixListener,
    pub admins: UnixListener,
    pub owner: Option<UnixListener>,
    pub are_passed: (bool, bool),
}

/// The means to end a call that waits for a connection.
#[derive(Drop)]
enum Closer {
    /// A handle on the socket, to shut it down.
    Handle(UnixStream),
    /// The address of a socket that was passed, to connect there. The next server finds it as it was.
    Address(ListenerAddress),
}

/// What operators see of a server, on standard error, and the means to close its sockets.
pub struct Console<'a, R> {
    host: &'a HostRuntime,
    rt: &'a R,
    // The line that says where it listens.
    listening: String,
    clients: Closer,
    admins: Closer,
    owner: Option<Closer>,
    log: ServerLog,
    form: LogForm,
    // Whether audit records are logged.
    audits: bool,
    // The microseconds between two notices to systemd's watchdog.
    heartbeat: Option<u64>,
    // The clients that were connected so far.
    connected: AtomicU64,
}

impl<'a, R> Drop for Console<'a, R> {
    fn drop(self) {
        drop_fields!(self: host, rt, listening, clients, admins, owner, log, form, audits, heartbeat, connected);
    }
}

impl<'a, R: Wait> Console<'a, R> {
    /// The console of a server that listens there, and the lines for its writer.
    pub fn new(
        host: &'a HostRuntime,
        rt: &'a R,
        sockets: Sockets,
        entrances: &Entrances,
    ) -> io::Result<(Console<'a, R>, WaitingLines)> {
        let places = (sockets.clients, sockets.admins);
        let (log, lines) = ServerLog::new(host.alloc())?;
        let form = LogForm {
            is_journal: is_journal(host),
            audit_rate: sockets.audit_rate,
        };
        let console = Console {
            host,
            rt,
            listening: format!(in host.alloc();
                "listening for clients at {} and for administrators at {} (svcmgr {})\n",
                places.0, places.1, VERSION
            )?,
            clients: closer_of(&entrances.clients, entrances.are_passed.0)?,
            admins: closer_of(&entrances.admins, entrances.are_passed.1)?,
            owner: closer_of_owner(&entrances.owner)?,
            log,
            form,
            audits: sockets.audit,
            heartbeat: watchdog_interval(host),
            connected: AtomicU64::new(0),
        };
        Ok((console, lines))
    }

    /// Ends the log, once the lines that wait are written.
    pub fn end_log(&self) {
        self.log.end(self.rt);
    }

    fn line_of(&self, notice: ServerEvent) -> Result<LogLines, AllocError> {
        let alloc = self.host.alloc();
        let line = match notice {
            ServerEvent::Listening => self.listening.clone()?,
            ServerEvent::AcceptDelayed(error) => {
                format!(in alloc; "warning: a connection waits to be accepted: {error}\n")?
            }
            ServerEvent::AcceptFailed(error) => {
                format!(in alloc; "warning: no more connections are accepted: {error}\n")?
            }
            ServerEvent::AlmostFull { used, slots } => {
                format!(in alloc;
                    "warning: the journal is almost full: {used} of {slots} slots are used\n"
                )?
            }
            ServerEvent::ClientWaits { others: 0 } => return Ok(LogLines::Fixed(CLIENT_WAITS)),
            ServerEvent::ClientWaits { others } => {
                format!(in alloc;
                    "warning: a client has waited for a worker for a second, beside at least {others} more\n"
                )?
            }
            ServerEvent::Full => return Ok(LogLines::Fixed(FULL)),
            ServerEvent::MemoryShort => return Ok(LogLines::Fixed(MEMORY_SHORT)),
        };
        Ok(LogLines::Made(line.into_bytes()))
    }
}

impl<'a, R: Wait + Clock> Console<'a, R> {
    /// Writes the lines of the log to standard error as they come, until it ends.
    pub fn write_log(&self, lines: WaitingLines) {
        let (host, log) = (self.host, &self.log);
        let writer = StandardError::new(host, self.rt, Some(log));
        write_log(self.rt, host.alloc(), log, lines, self.form, writer);
    }
}

impl<'a, R: Wait> Supervisor for Console<'a, R> {
    fn tell(&self, notice: ServerEvent) {
        match &notice {
            ServerEvent::Listening => tell_systemd(self.host, b"READY=1"),
            ServerEvent::AcceptFailed(_) => tell_systemd(self.host, b"STOPPING=1"),
            _ => {}
        }
        let level = level_of(&notice);
        let (level, line) = match self.line_of(notice) {
            Ok(line) => (level, line),
            Err(_) => (Level::Warning, LogLines::Fixed(NO_LINE)),
        };
        self.log.append(self.rt, level, line);
    }

    fn audit(&self, records: &[Record]) {
        if self.audits {
            self.log.append_records(self.rt, records);
        }
    }

    fn close_entrances(&self) {
        close(&self.clients);
        close(&self.admins);
        if let Some(owner) = &self.owner {
            close(owner);
        }
    }
}

impl<'a, R: Wait> Operator for Console<'a, R> {
    fn reach(&self, milestone: Milestone) {
        let line = match milestone {
            Milestone::Connected => {
                let before = self.connected.fetch_add(1, Ordering::SeqCst);
                if before.saturating_add(1) != ALMOST_ALL_NUMBERS {
                    return;
                }
                FEW_NUMBERS
            }
            Milestone::AlmostAllReads => ALMOST_ALL_READS,
            Milestone::AllReads => ALL_READS,
        };
        self.log
            .append(self.rt, Level::Warning, LogLines::Fixed(line));
    }

    fn heartbeat(&self) -> Option<u64> {
        self.heartbeat
    }

    fn beat(&self) {
        tell_systemd(self.host, b"WATCHDOG=1");
    }
}

fn level_of(notice: &ServerEvent) -> Level {
    match notice {
        ServerEvent::Listening => Level::Information,
        _ => Level::Warning,
    }
}

// A listener has no `shutdown` of its own.
fn closer_of(listener: &UnixListener, is_passed: bool) -> io::Result<Closer> {
    if is_passed {
        return Ok(Closer::Address(address_of(listener)?));
    }
    let handle = UnixStream::from(OwnedFd::from(listener.try_clone()?));
    Ok(Closer::Handle(handle))
}

fn closer_of_owner(listener: &Option<UnixListener>) -> io::Result<Option<Closer>> {
    match listener {
        Some(listener) => Ok(Some(closer_of(listener, false)?)),
        None => Ok(None),
    }
}

// If it fails, no call waits: the socket is shut down already, or has connections for each call.
fn close(closer: &Closer) {
    match closer {
        Closer::Handle(handle) => {
            let _ = handle.shutdown(Shutdown::Both);
        }
        Closer::Address(address) => wake(address),
    }
}
