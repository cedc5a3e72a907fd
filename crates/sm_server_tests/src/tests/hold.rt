//! A change that is held under the lock.

use crossbeam_utils::Backoff;
use std::sync::atomic::{AtomicU64, Ordering};

/// Holds the first change that comes once it is armed, under the lock, until it is released.
#[derive(Drop)]
pub struct Hold {
    state: AtomicU64,
}

/// The next change is to be held.
pub const ARMED: u64 = 1;

/// A change is held.
pub const HOLDING: u64 = 2;

/// The change goes on.
pub const RELEASED: u64 = 3;

/// The change went on by itself, since nobody released it.
pub const GIVEN_UP: u64 = 4;

/// How often a state is looked for.
const TURNS: u32 = 1_000_000;

impl Hold {
    pub fn new() -> Hold {
        Hold {
            state: AtomicU64::new(0),
        }
    }

    pub fn set(&self, state: u64) {
        self.state.store(state, Ordering::SeqCst);
    }

    pub fn is(&self, state: u64) -> bool {
        self.state.load(Ordering::SeqCst) == state
    }

    /// Whether the state comes.
    pub fn comes(&self, state: u64) -> bool {
        let backoff = Backoff::new();
        for _ in 0..TURNS {
            if self.is(state) {
                return true;
            }
            backoff.snooze();
        }
        false
    }

    /// Holds the change that is made now, if it is the one.
    pub fn inside(&self) {
        if self.is(ARMED) {
            self.set(HOLDING);
            if !self.comes(RELEASED) {
                self.set(GIVEN_UP);
            }
        }
    }
}
