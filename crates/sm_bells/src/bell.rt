//! A connection's bell.

use libc::EINTR;
use libc::net::{EFD_CLOEXEC, EFD_NONBLOCK, POLLIN, eventfd, poll};
use libc::types::pollfd;
use std::io;
use std::sync::atomic::{AtomicU64, Ordering};

/// The owner of a bell that no connection has.
const NOBODY: u64 = 0;

/// The owner of a bell whose connection has no client yet.
const UNNAMED: u64 = 1;

/// What is added to a client's number, to make it an owner.
const FIRST: u64 = 2;

/// The most milliseconds of one wait.
const LONGEST: u32 = 60_000;

/// A bell counts the deliveries to one connection's client, and wakes the worker that waits for the next.
pub struct Bell {
    // The client's number and `FIRST`, or `NOBODY` or `UNNAMED`.
    owner: AtomicU64,
    rings: AtomicU64,
    // 1 while the worker waits.
    is_awaited: AtomicU64,
    // An eventfd, which the worker polls.
    counter: i32,
}

impl Drop for Bell {
    fn drop(self) {
        let Bell {
            owner: _,
            rings: _,
            is_awaited: _,
            counter,
        } = self;
        libc::close(counter);
    }
}

impl Bell {
    /// Makes a bell that no connection has.
    ///
    /// # Errors
    ///
    /// The kernel's, if it gives no file descriptor.
    pub fn new() -> io::Result<Bell> {
        let counter = eventfd(0, EFD_CLOEXEC | EFD_NONBLOCK);
        if counter < 0 {
            return Err(io::Error::from_raw_os_error(os::errno()));
        }
        Ok(Bell {
            owner: AtomicU64::new(NOBODY),
            rings: AtomicU64::new(0),
            is_awaited: AtomicU64::new(0),
            counter,
        })
    }

    /// Gives the bell to a connection that has no client yet. Returns whether no other one had it.
    pub fn claim(&self) -> bool {
        let claimed = self
            .owner
            .compare_exchange(NOBODY, UNNAMED, Ordering::SeqCst, Ordering::SeqCst);
        if claimed.is_err() {
            return false;
        }
        self.rings.store(0, Ordering::SeqCst);
        true
    }

    /// Notes the client of its connection.
    pub fn name(&self, client: u32) {
        let owner = u64::from(client).saturating_add(FIRST);
        self.owner.store(owner, Ordering::SeqCst);
    }

    /// Takes the bell back from its connection.
    pub fn free(&self) {
        self.owner.store(NOBODY, Ordering::SeqCst);
    }

    /// Returns whether its connection has this client.
    pub fn is_of(&self, client: u32) -> bool {
        self.owner.load(Ordering::SeqCst) == u64::from(client).saturating_add(FIRST)
    }

    /// Rings once, and wakes the worker if it waits.
    pub fn ring(&self) {
        self.rings.fetch_add(1, Ordering::SeqCst);
        if self.is_awaited.load(Ordering::SeqCst) != 0 {
            let one = 1u64.to_ne_bytes();
            libc::write(self.counter, &one);
        }
    }

    /// Returns how often it has rung since it was claimed.
    pub fn rings(&self) -> u64 {
        self.rings.load(Ordering::SeqCst)
    }

    /// Says whether the worker waits. A ring that comes after this wakes it.
    pub fn await_rings(&self, is_awaited: bool) {
        self.is_awaited
            .store(u64::from(is_awaited), Ordering::SeqCst);
    }

    /// Waits for a ring, for the end of the connection with this descriptor, or for some milliseconds, at most 60,000.
    /// Returns whether there may have been a ring. Lines that the client sends don't end the wait.
    pub fn wait(&self, connection: i32, milliseconds: u32) -> bool {
        let mut asked = [
            pollfd {
                fd: self.counter,
                events: POLLIN,
                revents: 0,
            },
            // The end of a connection is told whether or not it is asked for.
            pollfd {
                fd: connection,
                events: 0,
                revents: 0,
            },
        ];
        let ready = poll(&mut asked, milliseconds.min(LONGEST) as i32);
        if ready < 0 {
            return os::errno() == EINTR;
        }
        if ready == 0 || asked[1].revents != 0 {
            return false;
        }
        if asked[0].revents != 0 {
            let mut count = [0u8; 8];
            libc::read(self.counter, &mut count);
        }
        true
    }
}
