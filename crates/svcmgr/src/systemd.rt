//! What systemd is told of a server.

ghost use Rattle.std.specs.Prelude.{◌≡◌, ◌+◌, ◌≤◌, length};

use crate::settings::{Setting, is_own, read_setting};
use libc::net as c;
use std::env::Env;

/// The environment's variable with the name of the socket at which systemd waits.
const VARIABLE: &str = "NOTIFY_SOCKET";

/// The most bytes of a socket's name.
const MOST_NAME: usize = 107;

/// How long systemd may take, in seconds.
const PATIENCE: u64 = 5;

/// The variable with the microseconds after which systemd's watchdog ends a server that says nothing.
const WATCHDOG_TIME: &str = "WATCHDOG_USEC";

/// The variable with the number of the process that is to say it. Without it each one is.
const WATCHDOG_PROCESS: &str = "WATCHDOG_PID";

/// Returns the microseconds between two notices that the watchdog expects of this process: half of its time. `None` if
/// it expects none.
pub fn watchdog_interval(host: &HostRuntime) -> Option<u64> {
    match read_setting(host, WATCHDOG_PROCESS) {
        Setting::Absent => {}
        Setting::Number(process) if is_own(process) => {}
        _ => return None,
    }
    match read_setting(host, WATCHDOG_TIME) {
        Setting::Number(time) if time > 1 => Some(time / 2),
        _ => None,
    }
}

/// Tells systemd a state of the server, if it waits for that. A state that it doesn't take in time is lost.
pub fn tell_systemd(host: &HostRuntime, state: &[u8]) {
    let mut name = [0u8; MOST_NAME];
    if let Ok(length) = host.var(VARIABLE, &mut name) {
        send(&name[..length], state);
    }
}

fn send(name: &[u8], state: &[u8])
    requires { length name.now ≤ 107 }
{
    let (address, length) = address_of(name);
    let socket = unsafe { c::socket(c::AF_UNIX, c::SOCK_DGRAM | c::SOCK_CLOEXEC, 0) };
    if socket >= 0 {
        let _ = unsafe { c::setsockopt(socket, c::SOL_SOCKET, c::SO_SNDTIMEO, &limit(), 16) };
        let _ = unsafe { c::sendto(socket, state, c::MSG_NOSIGNAL, &address, length) };
        libc::close(socket);
    }
}

// Returns C's `timeval` of the time that systemd may take.
fn limit() -> [u8; 16] {
    let mut limit = [0u8; 16];
    limit[..8].copy_from_slice(&PATIENCE.to_ne_bytes());
    limit
}

// Returns C's `sockaddr_un` of a path, or of a name in the abstract namespace, which begins with `@`.
fn address_of(name: &[u8]) -> ([u8; c::_SS_SIZE], u32)
    requires { length name.now ≤ 107 }
    ensures size { result.1 ≡ 2 + length name.now }
{
    let mut address = [0u8; c::_SS_SIZE];
    address[..2].copy_from_slice(&(c::AF_UNIX as u16).to_ne_bytes());
    address[2..2 + name.len()].copy_from_slice(name);
    if name.starts_with(b"@") {
        address[2] = 0;
    }
    (address, 2 + name.len() as u32)
}
