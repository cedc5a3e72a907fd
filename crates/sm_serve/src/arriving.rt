//! The next connection of an entrance, in spite of failures that pass.

use crate::arrived::Arrived;
use crate::entrance::Entrance;
use crate::faults::Faults;
use sm_account::{ServerEvent, Supervisor};
use sm_engine::ServeFault;
use std::io::{self, ErrorKind};
use std::os::unix::net::UnixStream;
use std::rt::Clock;
use std::sync::Wait;
use std::thread;
use std::time::Duration;

/// Milliseconds that an entrance pauses while files or memory are short.
const SHORTAGE_PAUSE: u64 = 100;

// Linux's numbers of errors without an `ErrorKind`.
const ENFILE: i32 = 23;

const EMFILE: i32 = 24;

const ENOBUFS: i32 = 105;

/// What a failed `accept` means for the calls after it.
#[derive(Clone, Copy, PartialEq, Eq)]
enum AcceptFailure {
    /// It concerns only one connection or one call.
    Passing,
    /// Files or memory are short for now.
    Shortage,
    /// The listener can't be used any more.
    Lasting,
}

fn failure_of(error: &io::Error) -> AcceptFailure {
    match error.kind() {
        ErrorKind::ConnectionAborted | ErrorKind::Interrupted | ErrorKind::WouldBlock => {
            AcceptFailure::Passing
        }
        ErrorKind::OutOfMemory => AcceptFailure::Shortage,
        _ => match error.raw_os_error() {
            Some(ENFILE | EMFILE | ENOBUFS) => AcceptFailure::Shortage,
            _ => AcceptFailure::Lasting,
        },
    }
}

/// Returns the next connection, or `None` if the listener failed for good, or if there is a fault, which may have come
/// while this one waited.
pub fn arrival<E: Entrance, H: Supervisor, R: Wait + Clock>(
    rt: &R,
    entrance: &mut E,
    host: &H,
    faults: &Faults,
) -> Option<Arrived> {
    let stream = next_stream(rt, entrance, host, faults)?;
    unless_noted(rt, faults, Arrived::new(stream))
}

/// Returns the next connection as a stream, or `None` if the listener failed for good, or if there is a fault.
pub fn next_stream<E: Entrance, H: Supervisor, R: Wait + Clock>(
    rt: &R,
    entrance: &mut E,
    host: &H,
    faults: &Faults,
) -> Option<UnixStream> {
    let mut told = false;
    for _ in rt.forever() {
        if faults.is_noted(rt) {
            return None;
        }
        match entrance.accept() {
            Ok(stream) => return Some(stream),
            Err(error) => match failure_of(&error) {
                AcceptFailure::Passing => {}
                AcceptFailure::Shortage => {
                    wait_out(rt, host, error, told);
                    told = true;
                }
                AcceptFailure::Lasting => {
                    give_up(rt, host, faults, error);
                    return None;
                }
            },
        }
    }
    None
}

fn unless_noted<R: Wait>(rt: &R, faults: &Faults, arrived: Arrived) -> Option<Arrived> {
    if faults.is_noted(rt) {
        arrived.turn_away(faults.live().turned_away());
        return None;
    }
    Some(arrived)
}

fn wait_out<H: Supervisor, R: Clock>(rt: &R, host: &H, error: io::Error, told: bool) {
    if !told {
        host.tell(ServerEvent::AcceptDelayed(error));
    }
    thread::sleep(rt, Duration::from_millis(SHORTAGE_PAUSE));
}

// That an entrance was closed for an earlier fault is no fault of its own.
fn give_up<H: Supervisor, R: Wait>(rt: &R, host: &H, faults: &Faults, error: io::Error) {
    if faults.is_noted(rt) {
        return;
    }
    host.tell(ServerEvent::AcceptFailed(error));
    faults.note(rt, host, ServeFault::AcceptFault);
}
