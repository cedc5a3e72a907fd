//! Sockets that systemd passes to a server, as in sd_listen_fds(3).

use crate::settings::{Setting, is_own, read_setting};
use libc::net as c;
use libc::types::pollfd;
use os::FromRawFd;
use std::env::{Env, FillError};
use std::os::unix::net::UnixListener;

/// The environment's variable with the number of the process for which the sockets are.
const PROCESS: &str = "LISTEN_PID";

/// The variable with the number of the sockets.
const NUMBER: &str = "LISTEN_FDS";

/// The variable with their names, each but the last with a colon after it.
const NAMES: &str = "LISTEN_FDNAMES";

/// The most bytes of the names. Longer ones aren't those of a server.
const MOST_NAMES: usize = 64;

/// The file of the first socket. Those of the others follow.
const FIRST: i32 = 3;

/// The sockets that systemd passes.
#[derive(Drop)]
pub struct Passed {
    pub clients: Option<UnixListener>,
    pub admins: Option<UnixListener>,
}

/// Why they can't be used.
#[derive(Clone, Copy, PartialEq, Eq)]
pub enum Unusable {
    OddProcess,
    OddNumber,
    Unnamed,
    OtherName,
    SameName,
    NotListening,
}

impl Unusable {
    /// Returns the line that says why.
    pub fn line(self) -> &'static [u8] {
        match self {
            Unusable::OddProcess => b"fault: LISTEN_PID isn't a number\n",
            Unusable::OddNumber => b"fault: LISTEN_FDS isn't a number\n",
            Unusable::Unnamed =>
                b"fault: LISTEN_FDNAMES doesn't have a name for each of LISTEN_FDS\n",
            Unusable::OtherName =>
                b"fault: LISTEN_FDNAMES has a name that isn't clients or admin\n",
            Unusable::SameName => b"fault: LISTEN_FDNAMES has a name twice\n",
            Unusable::NotListening => {
                b"fault: one of LISTEN_FDS isn't a listening Unix stream socket\n"
            }
        }
    }
}

/// Takes over the sockets that are passed to this process. The program does it before it opens a file that stays open.
pub fn passed_sockets(host: &HostRuntime) -> Result<Passed, Unusable> {
    let none = Passed {
        clients: None,
        admins: None,
    };
    match read_setting(host, PROCESS) {
        Setting::Number(process) if is_own(process) => {}
        Setting::Odd => return Err(Unusable::OddProcess),
        _ => return Ok(none),
    }
    match read_setting(host, NUMBER) {
        Setting::Number(number) if number > 0 => named(host, number, none),
        Setting::Odd => Err(Unusable::OddNumber),
        _ => Ok(none),
    }
}

// Adds the sockets, by their names, to none.
fn named(host: &HostRuntime, number: u64, none: Passed) -> Result<Passed, Unusable> {
    let mut text = [0u8; MOST_NAMES];
    let length = match host.var(NAMES, &mut text) {
        Ok(length) => length,
        Err(FillError::NotPresent) => return Err(Unusable::Unnamed),
        Err(FillError::TooLong) => return Err(Unusable::OtherName),
    };
    let names = &text[..length];
    if names.split(|byte| *byte == b':').count() as u64 != number {
        return Err(Unusable::Unnamed);
    }
    let mut passed = none;
    let mut file = FIRST;
    for name in names.split(|byte| *byte == b':') {
        add(&mut passed, name, file)?;
        file = file.saturating_add(1);
    }
    Ok(passed)
}

fn add(passed: &mut Passed, name: &[u8], file: i32) -> Result<(), Unusable> {
    match name {
        b"clients" => put(&mut passed.clients, file),
        b"admin" => put(&mut passed.admins, file),
        _ => Err(Unusable::OtherName),
    }
}

fn put(place: &mut Option<UnixListener>, file: i32) -> Result<(), Unusable> {
    if place.is_some() {
        return Err(Unusable::SameName);
    }
    *place = Some(listener(file)?);
    Ok(())
}

fn listener(file: i32) -> Result<UnixListener, Unusable> {
    if file < 0 {
        return Err(Unusable::NotListening);
    }
    if !is_listening(file) {
        return Err(Unusable::NotListening);
    }
    let listener = unsafe { UnixListener::from_raw_fd(file) };
    match listener.set_nonblocking(false) {
        Ok(()) => Ok(listener),
        Err(_) => Err(Unusable::NotListening),
    }
}

// Returns whether a file is a listening Unix stream socket. A read from a socket fails with EINVAL only for a Unix stream
// that isn't connected, and a poll reports a hangup of one that doesn't listen.
fn is_listening(file: i32) -> bool {
    let mut byte = [0u8; 1];
    let read = unsafe { c::recv(file, &mut byte, c::MSG_PEEK | c::MSG_DONTWAIT) };
    read < 0 && os::errno() == libc::EINVAL && !is_hung_up(file)
}

fn is_hung_up(file: i32) -> bool {
    let mut asked = [pollfd {
        fd: file,
        events: 0,
        revents: 0,
    }];
    c::poll(&mut asked, 0) != 0
}
