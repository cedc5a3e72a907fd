//! The sockets of a server.

use mio::net::UnixStream as Probe;
use sm_command::{Ending, lock_of};
use std::fs::{self, File, OpenOptions, TryLockError};
use std::io::{self, ErrorKind};
use std::net::Net;
use std::os::unix::fs::{FileTypeExt, MetadataExt, OpenOptionsExt, PermissionsExt};
use std::os::unix::net::UnixListener;
use std::rt::Files;

/// Only its owner may connect.
pub const OWNER_ALONE: u32 = 0o600;

/// Linux's number of "Address already in use".
const EADDRINUSE: i32 = 98;

/// A path at which only this process starts servers, by a lock on the file PATH.lock, as long as it lives. Who locks a
/// file that was removed meanwhile hasn't claimed the path, so the process that made the file may remove it.
#[derive(Drop)]
pub struct Claim<'a> {
    path: &'a str,
    lock: Lock,
}

/// A locked file.
#[derive(Drop)]
struct Lock {
    name: String,
    file: File,
    /// Whether this process made the file.
    is_new: bool,
}

impl<'a> Claim<'a> {
    /// Claims the path. A path that another server has claimed is in use.
    pub fn new(host: &HostRuntime, path: &'a str) -> Result<Claim<'a>, Ending<'a>> {
        let Ok(name) = lock_of(host.alloc(), path) else {
            return Err(Ending::Memory);
        };
        let lock = match Lock::open(host, name) {
            Ok(lock) => lock,
            Err(error) => return Err(Ending::of_lock(path, error)),
        };
        match lock.try_lock(host) {
            Ok(true) => Ok(Claim { path, lock }),
            Ok(false) => Err(Ending::of_file(path, io::Error::from_raw_os_error(EADDRINUSE))),
            Err(error) => Err(Ending::of_lock(path, error)),
        }
    }

    /// Listens at the path, by a socket with these permissions (`None`: the umask decides). The socket of a dead server
    /// is replaced; that of a live server is in use. An error leaves no socket of this process.
    pub fn listen<R: Files + Net>(&self, rt: &R, mode: Option<u32>) -> io::Result<UnixListener> {
        let listener = self.bind(rt)?;
        if let Some(mode) = mode {
            let permissions = fs::Permissions::from_mode(mode);
            if let Err(error) = fs::set_permissions(rt, self.path, permissions) {
                self.remove_socket(rt);
                return Err(error);
            }
        }
        Ok(listener)
    }

    fn bind<R: Files + Net>(&self, rt: &R) -> io::Result<UnixListener> {
        match self.bind_unused(rt) {
            Err(error) if error.kind() == ErrorKind::AddrInUse => {
                if !is_left_behind(rt, self.path) {
                    return Err(error);
                }
                fs::remove_file(rt, self.path)?;
                self.bind_unused(rt)
            }
            ended => ended,
        }
    }

    // Where the path is unused and the socket can't listen, it is removed.
    fn bind_unused<R: Files + Net>(&self, rt: &R) -> io::Result<UnixListener> {
        match UnixListener::bind(rt, self.path) {
            Err(error) if error.kind() != ErrorKind::AddrInUse => {
                if is_left_behind(rt, self.path) {
                    self.remove_socket(rt);
                }
                Err(error)
            }
            ended => ended,
        }
    }

    fn remove_socket<R: Files>(&self, rt: &R) {
        // Nothing more can be done about a file that stays.
        let _ = fs::remove_file(rt, self.path);
    }

    /// Gives the path up, where this process has no socket: removes the lock, if this process made it.
    pub fn give_up<R: Files>(self, rt: &R) {
        if self.lock.is_new {
            let _ = fs::remove_file(rt, &self.lock.name);
        }
    }

    /// Removes the socket that this process made at the path, and gives the path up.
    pub fn remove<R: Files>(self, rt: &R) {
        self.remove_socket(rt);
        self.give_up(rt);
    }
}

impl Lock {
    // Opens the file, or makes it.
    fn open(host: &HostRuntime, name: String) -> io::Result<Lock> {
        let mut options = OpenOptions::new();
        // A FIFO that is opened for writing alone would wait for a reader.
        options.read(true).write(true).mode(OWNER_ALONE);
        let (file, is_new) = match options.create_new(true).open(host, &name) {
            Err(error) if error.kind() == ErrorKind::AlreadyExists => {
                (options.create_new(false).open(host, &name)?, false)
            }
            opened => (opened?, true),
        };
        if !file.metadata()?.is_file() {
            return Err(io::Error::new(ErrorKind::InvalidInput, "not a regular file"));
        }
        Ok(Lock { name, file, is_new })
    }

    // Locks the file. Returns whether this process has it now and the file is still there.
    fn try_lock(&self, host: &HostRuntime) -> io::Result<bool> {
        match self.file.try_lock() {
            Ok(()) => self.is_there(host),
            Err(TryLockError::WouldBlock) => Ok(false),
            Err(TryLockError::Error(error)) => Err(error),
        }
    }

    fn is_there(&self, host: &HostRuntime) -> io::Result<bool> {
        let locked = self.file.metadata()?;
        match fs::metadata(host, &self.name) {
            Ok(found) => Ok((found.dev(), found.ino()) == (locked.dev(), locked.ino())),
            Err(error) if error.kind() == ErrorKind::NotFound => Ok(false),
            Err(error) => Err(error),
        }
    }
}

/// Returns whether this is a socket at which nobody listens.
fn is_left_behind<R: Files + Net>(rt: &R, path: &str) -> bool {
    let is_socket = match fs::symlink_metadata(rt, path) {
        Ok(metadata) => metadata.file_type().is_socket(),
        Err(_) => false,
    };
    is_socket && is_refused(Probe::connect(rt, path))
}

// A listener with too many waiting connections answers `WouldBlock`.
fn is_refused(connected: io::Result<Probe>) -> bool {
    match connected {
        Ok(_) => false,
        Err(error) => error.kind() == ErrorKind::ConnectionRefused,
    }
}
