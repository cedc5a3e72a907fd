//! Connections that end a call which waits for one.

use libc::net as c;
use std::io;
use std::os::fd::AsRawFd;
use std::os::unix::net::UnixListener;

/// The most bytes of an address.
const MOST_BYTES: u32 = 128;

/// The address of a listening socket, as C has it.
#[derive(Clone, Copy)]
pub struct ListenerAddress {
    bytes: [u8; c::_SS_SIZE],
    length: u32,
}

/// Returns the address of a listening socket.
pub fn address_of(listener: &UnixListener) -> io::Result<ListenerAddress> {
    let mut bytes = [0u8; c::_SS_SIZE];
    let mut length = MOST_BYTES;
    let status = unsafe { c::getsockname(listener.as_raw_fd(), &mut bytes, &mut length) };
    if status < 0 {
        return Err(io::Error::from_raw_os_error(os::errno()));
    }
    Ok(ListenerAddress { bytes, length })
}

/// Connects to a listening socket, and leaves. A call that waits there returns.
pub fn wake(address: &ListenerAddress) {
    if address.length > MOST_BYTES {
        return;
    }
    let kind = c::SOCK_STREAM | c::SOCK_CLOEXEC | c::SOCK_NONBLOCK;
    let socket = unsafe { c::socket(c::AF_UNIX, kind, 0) };
    if socket >= 0 {
        let _ = unsafe { c::connect(socket, &address.bytes, address.length) };
        libc::close(socket);
    }
}
